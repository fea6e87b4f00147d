use crate::lines::Step;
use crate::state::{State, bytes_text, counting_bytes};
use anyhow::anyhow;
use case_words::answer_text;
use fault::Fault;
use shelf::Shelf;
use std::alloc::Global;
use store::Store;

/// A shelf in play, its bytes, and the state that was printed last.
#[derive(Drop)]
pub struct Play {
    shelf: Shelf,
    bytes: Vec<u8>,
    printed: State,
}

// Makes a call with a buffer of `room` bytes: its answer, and the buffer afterwards.
fn with_buffer<F: FnOnce(&mut [u8]) -> Result<usize, Fault>>(
    heap: Global,
    room: usize,
    call: F,
) -> anyhow::Result<String>
    requires { F.IsAlwaysCallable call }
{
    let mut buffer = counting_bytes(heap, room)?;
    let outcome = answer_text(heap, call(&mut buffer))?;
    let held = bytes_text(heap, &buffer)?;
    Ok(format!(in heap; "{outcome} {held}")?)
}

impl Play {
    pub fn new(heap: Global, shelf: Shelf, bytes: Vec<u8>) -> Play {
        let printed = State::empty(heap);
        Play {
            shelf,
            bytes,
            printed,
        }
    }

    /// Takes a step and returns its outcome as text.
    pub fn take<S: Store>(
        &mut self,
        heap: Global,
        image: &mut S,
        step: &Step,
    ) -> anyhow::Result<String> {
        let length = self.bytes.len();
        match step {
            Step::Put { handed, stream } => {
                let bytes = &mut self.bytes[..length.min(*handed)];
                answer_text(heap, self.shelf.put(bytes, stream).map(|()| "done"))
            }
            Step::Join {
                handed,
                entry,
                room,
            } => {
                let bytes = &mut self.bytes[..length.min(*handed)];
                with_buffer(heap, *room, |work| self.shelf.join(bytes, *entry, work))
            }
            Step::Settle { handed } => {
                let bytes = &mut self.bytes[..length.min(*handed)];
                answer_text(heap, self.shelf.settle(bytes, image).map(|()| "done"))
            }
            Step::List {
                handed,
                entry,
                room,
            } => {
                let bytes = &self.bytes[..length.min(*handed)];
                with_buffer(heap, *room, |text| self.shelf.list(bytes, *entry, text))
            }
            Step::Poke { place, bytes } => self.poke(heap, *place, bytes),
        }
    }

    // Writes into the shelf's bytes, without the shelf.
    fn poke(&mut self, heap: Global, place: usize, new: &[u8]) -> anyhow::Result<String> {
        let length = self.bytes.len();
        if place > length || new.len() > length - place {
            return Err(anyhow!("a poke past the shelf's bytes"));
        }
        self.bytes[place..place + new.len()].copy_from_slice(new);
        Ok(String::from_str(heap, "done")?)
    }
}

// A part of the state, or `same` where it is as it was printed before.
fn news<'a>(now: &'a str, before: &str) -> &'a str {
    if now == before { "same" } else { now }
}

/// Prints the outcome of a step, and the parts of the state that are new.
pub fn print_step<S: Store>(
    rt: &HostRuntime,
    play: &mut Play,
    image: &S,
    outcome: &str,
) -> anyhow::Result<()> {
    let now = State::of(rt.alloc(), &play.shelf, &play.bytes, image)?;
    let table = news(now.table.as_str(), play.printed.table.as_str());
    let bytes = news(now.bytes.as_str(), play.printed.bytes.as_str());
    let held = news(now.image.as_str(), play.printed.image.as_str());
    println!(rt; "{outcome} {table} {bytes} {held}")?;
    play.printed = now;
    Ok(())
}
