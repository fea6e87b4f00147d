use anyhow::anyhow;
use case_words::{Room, decoded, words_of};
use std::alloc::Global;

/// A case: a call with its arguments.
#[derive(Drop)]
pub enum Case {
    Check {
        stream: Vec<u8>,
    },
    List {
        room: usize,
        stream: Vec<u8>,
    },
    Join {
        room: usize,
        earlier: Vec<u8>,
        later: Vec<u8>,
    },
    Apply {
        room: Room,
        image: Vec<u8>,
        name: Vec<u8>,
        stream: Vec<u8>,
    },
}

/// The case of a line.
pub fn read_case(heap: Global, line: &str) -> anyhow::Result<Case> {
    match words_of(line) {
        ["check", stream, ..] => Ok(Case::Check {
            stream: decoded(heap, stream)?,
        }),
        ["list", room, stream, ..] => Ok(Case::List {
            room: room.parse()?,
            stream: decoded(heap, stream)?,
        }),
        ["join", room, earlier, later, ..] => Ok(Case::Join {
            room: room.parse()?,
            earlier: decoded(heap, earlier)?,
            later: decoded(heap, later)?,
        }),
        ["flat", bytes, image, name, stream, _] => Ok(Case::Apply {
            room: Room::Flat {
                bytes: bytes.parse()?,
            },
            image: decoded(heap, image)?,
            name: decoded(heap, name)?,
            stream: decoded(heap, stream)?,
        }),
        ["paged", places, pages, image, name, stream] => Ok(Case::Apply {
            room: Room::Paged {
                places: places.parse()?,
                pages: pages.parse()?,
            },
            image: decoded(heap, image)?,
            name: decoded(heap, name)?,
            stream: decoded(heap, stream)?,
        }),
        _ => Err(anyhow!("no such call")),
    }
}
