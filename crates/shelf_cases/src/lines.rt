use anyhow::anyhow;
use case_words::{Room, decoded, words_of};
use std::alloc::Global;

/// The opening of a series: what its image lies in, the shelf's base name, how many bytes the shelf
/// has, and the image.
#[derive(Drop)]
pub struct Opening {
    pub room: Room,
    pub name: Vec<u8>,
    pub length: usize,
    pub image: Vec<u8>,
}

/// A step of a series. A call gets the first `handed` of the shelf's bytes and a buffer of `room`
/// bytes; a poke writes into the shelf's bytes. A `Request` of replay does not do here: its calls
/// share one buffer, and none of them spoils bytes.
#[derive(Drop)]
pub enum Step {
    Put {
        handed: usize,
        stream: Vec<u8>,
    },
    Join {
        handed: usize,
        entry: usize,
        room: usize,
    },
    Settle {
        handed: usize,
    },
    List {
        handed: usize,
        entry: usize,
        room: usize,
    },
    Poke {
        place: usize,
        bytes: Vec<u8>,
    },
}

/// The opening of a line.
pub fn read_opening(heap: Global, line: &str) -> anyhow::Result<Opening> {
    match words_of(line) {
        ["flat", bytes, name, length, image, _] => Ok(Opening {
            room: Room::Flat {
                bytes: bytes.parse()?,
            },
            image: decoded(heap, image)?,
            name: decoded(heap, name)?,
            length: length.parse()?,
        }),
        ["paged", places, pages, name, length, image] => Ok(Opening {
            room: Room::Paged {
                places: places.parse()?,
                pages: pages.parse()?,
            },
            image: decoded(heap, image)?,
            name: decoded(heap, name)?,
            length: length.parse()?,
        }),
        _ => Err(anyhow!("no such store")),
    }
}

/// The step of a line.
pub fn read_step(heap: Global, line: &str) -> anyhow::Result<Step> {
    match words_of(line) {
        ["put", handed, stream, ..] => Ok(Step::Put {
            handed: handed.parse()?,
            stream: decoded(heap, stream)?,
        }),
        ["join", handed, entry, room, ..] => Ok(Step::Join {
            handed: handed.parse()?,
            entry: entry.parse()?,
            room: room.parse()?,
        }),
        ["settle", handed, ..] => Ok(Step::Settle {
            handed: handed.parse()?,
        }),
        ["list", handed, entry, room, ..] => Ok(Step::List {
            handed: handed.parse()?,
            entry: entry.parse()?,
            room: room.parse()?,
        }),
        ["poke", place, bytes, ..] => Ok(Step::Poke {
            place: place.parse()?,
            bytes: decoded(heap, bytes)?,
        }),
        _ => Err(anyhow!("no such step")),
    }
}
