// What no clause says: that every call succeeds where there is memory, and which words a line has.
use super::{Memory, Pages, answer_text, contents, decoded, encoded, words_of};
use fault::{Cause, Fault};
use std::test::Fail;

// An image of either kind is opened, and its bytes are read.
#[test]
fn images_are_opened(rt: HostRuntime) -> Result<(), Fail> {
    let heap = rt.alloc();
    let mut memory = Memory::new(heap, 8)?;
    let flat = memory.open(b"abc")?;
    assert_eq!(rt; contents(heap, &flat)?.as_slice(), b"abc".as_slice());
    let mut pages = Pages::new(heap, 2, 1)?;
    let paged = pages.open(b"abc")?;
    assert_eq!(rt; contents(heap, &paged)?.as_slice(), b"abc".as_slice());
    Ok(())
}

// Bytes are read and spelled, and answers are spelled.
#[test]
fn words_are_made(rt: HostRuntime) -> Result<(), Fail> {
    let heap = rt.alloc();
    let bytes = decoded(heap, "00ff7a")?;
    assert_eq!(rt; bytes.as_slice(), [0, 255, 122].as_slice());
    assert_eq!(rt; encoded(heap, &bytes)?.as_str(), "00ff7a");
    assert_eq!(rt; answer_text(heap, Ok(7u64))?.as_str(), "7");
    let refused: Result<u64, Fault> = Err(Fault::new(Cause::ShortBuffer, 9));
    assert_eq!(rt; answer_text(heap, refused)?.as_str(), "14 1 9 0 0");
    Ok(())
}

// A word that is missing is empty, also between two spaces; the seventh is left out.
#[test]
fn words_of_a_line(rt: HostRuntime) {
    assert_eq!(rt; words_of("join 3 - 0a"), ["join", "3", "-", "0a", "", ""]);
    assert_eq!(rt; words_of("a  c d e f g"), ["a", "", "c", "d", "e", "f"]);
    assert_eq!(rt; words_of(""), ["", "", "", "", "", ""]);
}
