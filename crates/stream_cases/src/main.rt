// Runs cases from standard input, one to a line, against the proved calls, and prints a line for
// each:
//   check BYTES         `accepted`, or the five numbers of the fault
//   list ROOM BYTES     the number of bytes written or the five numbers, and then the whole buffer
//   join ROOM BYTES BYTES   the same for the join of an earlier stream and a later one
//   flat ROOM IMAGE NAME BYTES           applies a stream to a flat image over ROOM bytes of memory
//   paged PLACES PAGES IMAGE NAME BYTES  the same to a paged image; `done` or the five numbers, and
//                                        the image
// Bytes are in hexadecimal, `-` for none. Every byte of a buffer is AA before the call.
#![tactic(auto)]

use apply::apply;
use case::{Case, read_case};
use case_words::{Memory, Pages, Room, answer_text, contents, encoded};
use fault::Fault;
use join::join;
use listing::list;
use std::alloc::Global;
use std::io::{BufRead, BufReader};
use store::Store;
use stream::check;

mod case;

// Makes a call with a buffer of `room` bytes: its answer, and the buffer afterwards.
fn with_buffer<F: FnOnce(&mut [u8]) -> Result<usize, Fault>>(
    heap: Global,
    room: usize,
    call: F,
) -> anyhow::Result<String>
    requires { F.IsAlwaysCallable call }
{
    let mut buffer = vec![in heap; 0xaau8; room]?;
    let outcome = answer_text(heap, call(&mut buffer))?;
    let held = encoded(heap, &buffer)?;
    Ok(format!(in heap; "{outcome} {held}")?)
}

// Applies a stream to an image: the answer, and the image afterwards.
fn apply_to<S: Store>(
    heap: Global,
    image: &mut S,
    name: &[u8],
    stream: &[u8],
) -> anyhow::Result<String> {
    let answer = apply(stream, name, image);
    let outcome = answer_text(heap, answer.map(|()| "done"))?;
    let held = encoded(heap, &contents(heap, image)?)?;
    Ok(format!(in heap; "{outcome} {held}")?)
}

// Runs a case and returns its line.
fn run_case(heap: Global, case: &Case) -> anyhow::Result<String> {
    match case {
        Case::Check { stream } => answer_text(heap, check(stream).map(|()| "accepted")),
        Case::List { room, stream } => with_buffer(heap, *room, |buffer| list(stream, buffer)),
        Case::Join {
            room,
            earlier,
            later,
        } => with_buffer(heap, *room, |buffer| join(earlier, later, buffer)),
        Case::Apply {
            room: Room::Flat { bytes },
            image,
            name,
            stream,
        } => {
            let mut memory = Memory::new(heap, *bytes)?;
            apply_to(heap, &mut memory.open(image)?, name, stream)
        }
        Case::Apply {
            room: Room::Paged { places, pages },
            image,
            name,
            stream,
        } => {
            let mut memory = Pages::new(heap, *places, *pages)?;
            apply_to(heap, &mut memory.open(image)?, name, stream)
        }
    }
}

fn run(rt: &HostRuntime) -> anyhow::Result<()> {
    let heap = rt.alloc();
    for line in BufReader::new(heap, rt.stdin())?.lines(heap) {
        let line = line?;
        let case = read_case(heap, line.as_str())?;
        let outcome = run_case(heap, &case)?;
        println!(rt; "{outcome}")?;
    }
    Ok(())
}

fn main(rt: HostRuntime) -> anyhow::Result<()> {
    run(&rt)
}
