// The commands, each on the files that its words name. What a command makes is made in memory
// first, and written only once nothing can be refused any more.
use crate::failure::{About, Failure};
use crate::files::{read_file, write_file};
use file_calls::{ApplyBytes, ApplyPaths, JoinBytes, JoinPaths, list_text, name_of, name_text};
use overlay::Side;
use std::io;
use std::io::Write;
use stream::{RunBuffer, Stream};

// Prints what a checked stream says.
fn print_stream(rt: &HostRuntime, path: &str, stream: Stream) -> io::Result<()> {
    let from = name_text(stream.from);
    let to = name_text(stream.to);
    let size = stream.sheet.size;
    let count = stream.sheet.runs.len();
    println!(rt; "{path}: accepted")?;
    println!(rt; "from snapshot: {from}")?;
    println!(rt; "to snapshot: {to}")?;
    println!(rt; "image size: {size} bytes")?;
    println!(rt; "data records: {count}")
}

/// Checks a stream, and prints its names, the image's size and how many data records it has.
pub fn check_file(rt: &HostRuntime, path: &str) -> Result<(), Failure> {
    let bytes = read_file(rt, path)?;
    let mut buffer = RunBuffer::new();
    let stream = Stream::read(&bytes, Side::Later, &mut buffer).about(rt.alloc(), path)?;
    print_stream(rt, path, stream)?;
    Ok(())
}

/// Prints the list of a stream.
pub fn list_file(rt: &HostRuntime, path: &str) -> Result<(), Failure> {
    let heap = rt.alloc();
    let stream = read_file(rt, path)?;
    let text = list_text(heap, &stream).map_err(|error| Failure::of_call(
        error,
        |_| String::from_str(heap, path),
    ))?;
    rt.stdout().write_all(&text)?;
    Ok(())
}

/// Joins two streams into a file.
pub fn join_files(rt: &HostRuntime, paths: JoinPaths, out: &str) -> Result<(), Failure> {
    let heap = rt.alloc();
    let earlier = read_file(rt, paths.earlier)?;
    let later = read_file(rt, paths.later)?;
    let streams = JoinBytes {
        earlier: &earlier,
        later: &later,
    };
    let joined = streams.joined(heap).map_err(|error| Failure::of_call(
        error,
        |fault| paths.refused(heap, fault),
    ))?;
    write_file(rt, out, &joined)?;
    let length = joined.len();
    println!(rt; "{out}: {length} bytes")?;
    Ok(())
}

// Prints the snapshot that an image is at, and its size.
fn print_image(rt: &HostRuntime, path: &str, name: &[u8], size: usize) -> io::Result<()> {
    let name = name_text(name);
    println!(rt; "{path}: now at snapshot {name}, {size} bytes")
}

/// Applies a stream to an image in a file, whose snapshot has the name that the word stands for.
/// The image is read whole, and written only after the last record, so that a refusal leaves the
/// file as it was.
pub fn apply_to_file(rt: &HostRuntime, paths: ApplyPaths, word: &str) -> Result<(), Failure> {
    let heap = rt.alloc();
    let bytes = read_file(rt, paths.stream)?;
    let mut image = read_file(rt, paths.image)?;
    let difference = ApplyBytes {
        stream: &bytes,
        name: name_of(word),
    };
    let to = difference.apply(&mut image).map_err(|error| Failure::of_call(
        error,
        |fault| String::from_str(heap, paths.refused(fault)),
    ))?;
    write_file(rt, paths.image, &image)?;
    print_image(rt, paths.image, to, image.len())?;
    Ok(())
}
