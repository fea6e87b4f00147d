// A tour of the work: it writes a difference stream, checks it, lists it, shows refusals, joins two
// streams, applies the join, and plays a series of calls on a shelf.
use crate::samples::{CUT, GROWN, SAMPLE, accepted};
use crate::series::show_series;
use anyhow::anyhow;
use apply::apply;
use join::join;
use listing::list;
use std::io::Write;
use store::{FlatImage, Store};
use stream::check;
use writer::Opened;

/// The first `n` bytes, or all where there are fewer.
pub fn front(bytes: &[u8], n: usize) -> &[u8] {
    bytes.get(..n).unwrap_or(bytes)
}

// Checks bytes, and prints what they are and the outcome.
fn show_check(rt: &HostRuntime, what: &str, stream: &[u8]) -> anyhow::Result<()> {
    let n = stream.len();
    match check(stream) {
        Ok(()) => println!(rt; "check of {what}, {n} bytes: accepted")?,
        Err(fault) => { println!(rt; "check of {what}, {n} bytes: refused: {fault}")? }
    }
    Ok(())
}

// Prints the list of a stream.
fn show_list(rt: &HostRuntime, stream: &[u8]) -> anyhow::Result<()> {
    let mut text = [0u8; 128];
    match list(stream, &mut text) {
        Ok(n) => {
            println!(rt; "its ranges (touching records of one kind are one range):")?;
            rt.stdout().write_all(front(&text, n))?;
        }
        Err(fault) => {
            println!(rt; "list: refused: {fault}")?;
        }
    }
    Ok(())
}

// Shows that a writer refuses a range that passes the size, and is given back.
fn show_refused_record(rt: &HostRuntime) -> anyhow::Result<()> {
    let mut out = [0u8; 64];
    let Ok(recording) = Opened::new().names(&mut out, b"", b"a", 10) else {
        return Err(anyhow!("the names were refused"));
    };
    match recording.zero(&mut out, 9, 2) {
        Ok(_) => println!(rt; "a range past the size was taken")?,
        Err(refused) => {
            let fault = refused.fault;
            println!(rt; "zeros at 9, length 2, in an image of 10 bytes: refused: {fault}")?;
            match refused.writer.zero(&mut out, 9, 1) {
                Ok(_) => println!(rt;
                    "the same with length 1: written, with the writer that came back"
                )?,
                Err(_) => println!(rt; "the same with length 1 was refused")?,
            }
        }
    }
    Ok(())
}

// Shows a stream that is written, checked and listed, and refusals.
fn show_one_stream(rt: &HostRuntime) -> anyhow::Result<()> {
    let stream = SAMPLE.stream(rt)?;
    println!(rt;
        "wrote a stream from snapshot a to snapshot b, image size 10: bytes WXYZ at 2, bytes 12 at 6, a zero at 9"
    )?;
    show_check(rt, "the stream", &stream)?;
    show_list(rt, &stream)?;
    if let [cut @ .., _] = &stream[..] {
        show_check(rt, "the stream without its last byte", cut)?;
    }
    show_check(rt, "the header alone", front(&stream, 12))?;
    show_refused_record(rt)
}

/// Prints `n` bytes of an image from an offset on, a zero as a dot.
pub fn show_bytes<S: Store>(
    rt: &HostRuntime,
    image: &S,
    offset: u64,
    n: usize,
) -> anyhow::Result<()> {
    let mut bytes = vec![in rt.alloc(); 0u8; n]?;
    image.read(offset, &mut bytes)?;
    for b in bytes.iter_mut() {
        if *b == 0 {
            *b = b'.';
        }
    }
    rt.stdout().write_all(&bytes)?;
    Ok(())
}

// Prints the bytes of an image of 10 bytes.
fn show_image<S: Store>(rt: &HostRuntime, what: &str, image: &S) -> anyhow::Result<()> {
    if image.size() != 10 {
        return Err(anyhow!("the image does not have 10 bytes"));
    }
    print!(rt; "{what}: ")?;
    show_bytes(rt, image, 0, 10)?;
    println!(rt; "")?;
    Ok(())
}

// Applies a stream to an image of ten digits that stands at snapshot a.
fn show_apply(rt: &HostRuntime, stream: &[u8]) -> anyhow::Result<()> {
    let mut memory = *b"0123456789";
    let mut image = FlatImage::open(&mut memory, 10);
    show_image(rt, "an image at snapshot a", &image)?;
    match apply(stream, b"b", &mut image) {
        Ok(()) => println!(rt; "the join was applied to an image at another snapshot")?,
        Err(fault) => {
            println!(rt; "were it at snapshot b, the join would be refused: {fault}")?;
        }
    }
    match apply(stream, b"a", &mut image) {
        Ok(()) => show_image(rt, "the join applied, zeros as dots", &image),
        Err(_) => Err(anyhow!("the join was not applied")),
    }
}

// Shows the join of two streams that follow each other.
fn show_join(rt: &HostRuntime) -> anyhow::Result<()> {
    let earlier = CUT.stream(rt)?;
    let later = GROWN.stream(rt)?;
    let mut buffer = [0u8; 128];
    println!(rt;
        "wrote two more: from a to b the image is cut to 4 bytes; from b to c it grows to 10, with k at 8"
    )?;
    let length = accepted(rt, join(&earlier, &later, &mut buffer))?;
    println!(rt;
        "their join leads from a to c, {length} bytes; what grew back is zero, not what was there before"
    )?;
    let joined = front(&buffer, length);
    show_list(rt, joined)?;
    show_apply(rt, joined)?;
    match join(&later, &earlier, &mut buffer) {
        Ok(_) => println!(rt; "the two were joined the other way round")?,
        Err(fault) => {
            println!(rt; "the two the other way round: refused: {fault}")?;
        }
    }
    Ok(())
}

/// Prints the tour: streams, and a series of calls on a shelf.
pub fn show_tour(rt: &HostRuntime) -> anyhow::Result<()> {
    println!(rt;
        "Lovgwarzh: differences between snapshots of an image, checked, listed, joined, applied, and kept on a shelf."
    )?;
    show_one_stream(rt)?;
    show_join(rt)?;
    show_series(rt)
}
