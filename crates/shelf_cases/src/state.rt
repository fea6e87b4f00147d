use case_words::{contents, encoded};
use shelf::Shelf;
use std::alloc::Global;
use store::Store;

// The most bytes that are printed one by one.
const MOST_PRINTED: usize = 200;

/// A shelf's table, its bytes and the image, as text.
#[derive(Drop)]
pub struct State {
    pub table: String,
    pub bytes: String,
    pub image: String,
}

impl State {
    /// Three empty texts.
    pub fn empty(heap: Global) -> State {
        State {
            table: String::new(heap),
            bytes: String::new(heap),
            image: String::new(heap),
        }
    }

    pub fn of<S: Store>(
        heap: Global,
        shelf: &Shelf,
        bytes: &[u8],
        image: &S,
    ) -> anyhow::Result<State> {
        Ok(State {
            table: table_text(heap, shelf)?,
            bytes: bytes_text(heap, bytes)?,
            image: bytes_text(heap, &contents(heap, image)?)?,
        })
    }
}

fn checksum(bytes: &[u8]) -> u64 {
    bytes.iter().fold(0xcbf29ce484222325, |sum: u64, b| {
        (sum ^ u64::from(*b)).wrapping_mul(0x100000001b3)
    })
}

/// Bytes as a word; more than 200 by their length and checksum.
pub fn bytes_text(heap: Global, bytes: &[u8]) -> anyhow::Result<String> {
    let length = bytes.len();
    if length <= MOST_PRINTED {
        return encoded(heap, bytes);
    }
    let sum = checksum(bytes);
    Ok(format!(in heap; "{length}:{sum}")?)
}

/// The shelf's bytes before the first step, and a buffer before a call: they count up to 250 again
/// and again.
pub fn counting_bytes(heap: Global, length: usize) -> anyhow::Result<Vec<u8>> {
    Ok((0..length).map(|i| (i % 251) as u8).collect(heap)?)
}

// The entries of a shelf, each after a space.
fn entries_text(heap: Global, shelf: &Shelf) -> anyhow::Result<String> {
    let mut text = String::new(heap);
    for entry in shelf.entries() {
        let place = entry.place;
        let length = entry.length;
        let from = encoded(heap, entry.from.as_bytes())?;
        let to = encoded(heap, entry.to.as_bytes())?;
        write!(text, " {place} {length} {from} {to}")?;
    }
    Ok(text)
}

// Base name, fill, the number of entries, and the entries.
fn table_text(heap: Global, shelf: &Shelf) -> anyhow::Result<String> {
    let base = encoded(heap, shelf.base_name().as_bytes())?;
    let fill = shelf.fill();
    let count = shelf.count();
    let entries = entries_text(heap, shelf)?;
    Ok(format!(in heap; "{base} {fill} {count}{entries}")?)
}
