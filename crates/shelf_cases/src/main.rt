// Plays series of calls on a shelf, from standard input, one step to a line, and prints a line for
// each:
//   flat ROOM NAME LENGTH IMAGE           opens a series: a shelf with a base name and LENGTH
//                                         bytes, a flat image over ROOM bytes of memory
//   paged PLACES PAGES NAME LENGTH IMAGE  the same with a paged image
//   put HANDED BYTES            puts a stream
//   join HANDED ENTRY ROOM      joins an entry and the next, with a work buffer of ROOM bytes
//   settle HANDED               settles entry 0 on the image
//   list HANDED ENTRY ROOM      lists an entry, with a text buffer of ROOM bytes
//   poke PLACE BYTES            writes into the shelf's bytes, without the shelf
//   end                         ends the series
// A call gets the first HANDED of the shelf's bytes, or all where there are no more. Its line has
// the outcome: `done`, the number of bytes written, or the five numbers of the fault; after a join
// or a list the whole buffer; then three parts of the state: the table, the shelf's bytes, and the
// image. The table is the base name, the fill, the number of entries, and of each entry its place,
// length, from name and to name. A part that is as it was in the line before is printed as `same`.
// A series whose shelf is refused has no steps, and only the fault is printed. Bytes are in
// hexadecimal, `-` for none; more than 200 are printed as LENGTH:CHECKSUM, by FNV-1a with 64 bits.
// Before the first step byte i of the shelf's bytes is i modulo 251, and so is byte i of a buffer
// before its call.
#![tactic(auto)]

use anyhow::anyhow;
use case_words::{Memory, Pages, Room, numbers};
use lines::{Opening, read_opening, read_step};
use play::{Play, print_step};
use shelf::Shelf;
use state::counting_bytes;
use std::io::{BufRead, BufReader};
use store::Store;

mod lines;
mod play;
mod state;

// Makes a shelf and takes the steps of a series. A shelf that is refused ends the series without an
// error.
fn play_steps<S: Store>(
    rt: &HostRuntime,
    image: &mut S,
    opening: &Opening,
    steps: &[String],
) -> anyhow::Result<()> {
    let heap = rt.alloc();
    let shelf = match Shelf::new(&opening.name) {
        Ok(shelf) => shelf,
        Err(fault) => {
            let outcome = numbers(heap, fault)?;
            println!(rt; "{outcome}")?;
            return Ok(());
        }
    };
    let bytes = counting_bytes(heap, opening.length)?;
    let mut play = Play::new(heap, shelf, bytes);
    print_step(rt, &mut play, image, "done")?;
    for line in steps {
        let step = read_step(heap, line.as_str())?;
        let outcome = play.take(heap, image, &step)?;
        print_step(rt, &mut play, image, outcome.as_str())?;
    }
    Ok(())
}

fn play_series(rt: &HostRuntime, lines: &[String]) -> anyhow::Result<()> {
    let [first, steps @ ..] = lines else {
        return Err(anyhow!("a series without an opening"));
    };
    let heap = rt.alloc();
    let opening = read_opening(heap, first.as_str())?;
    match opening.room {
        Room::Flat { bytes } => {
            let mut memory = Memory::new(heap, bytes)?;
            play_steps(rt, &mut memory.open(&opening.image)?, &opening, steps)
        }
        Room::Paged { places, pages } => {
            let mut memory = Pages::new(heap, places, pages)?;
            play_steps(rt, &mut memory.open(&opening.image)?, &opening, steps)
        }
    }
}

fn run(rt: &HostRuntime) -> anyhow::Result<()> {
    let mut lines = Vec::new(rt.alloc());
    for line in BufReader::new(rt.alloc(), rt.stdin())?.lines(rt.alloc()) {
        let line = line?;
        if line.as_str() == "end" {
            play_series(rt, &lines)?;
            println!(rt; "end")?;
            lines.clear();
        } else {
            lines.push(line)?;
        }
    }
    Ok(())
}

fn main(rt: HostRuntime) -> anyhow::Result<()> {
    run(&rt)
}
