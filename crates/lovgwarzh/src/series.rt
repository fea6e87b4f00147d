use crate::samples::CHAIN;
use crate::tour::{front, show_bytes};
use anyhow::anyhow;
use apply::apply;
use fault::Fault;
use paged::PagedImage;
use replay::{Request, Window, replay};
use shelf::Shelf;
use std::io::Write;
use store::{FlatImage, Store};

// A call gets all of the shelf's bytes.
const WHOLE: usize = usize::MAX;

// Where joined streams and the texts of the two lists stand in the series' buffer.
const WORK: Window = Window {
    start: 0,
    length: 256,
};

const FIRST_TEXT: Window = Window {
    start: 256,
    length: 64,
};

const LAST_TEXT: Window = Window {
    start: 320,
    length: 64,
};

// A call of the series, and words for it.
#[derive(Clone, Copy)]
struct Step<'a> {
    words: &'static str,
    request: Request<'a>,
}

impl<'a> Step<'a> {
    fn new(words: &'static str, request: Request<'a>) -> Step<'a> {
        Step { words, request }
    }
}

// The series, on a chain of four streams.
fn series_on<'a>(chain: [&'a [u8]; 4]) -> [Step<'a>; 14] {
    let [first, second, third, fourth] = chain;
    let settle = Step::new("settle entry 0", Request::Settle { handed: WHOLE });
    [
        Step::new("put a to b", put(first)),
        Step::new("put b to c", put(second)),
        Step::new("put c to d", put(third)),
        Step::new("put d to e", put(fourth)),
        Step::new("put a to b once more", put(first)),
        Step::new("join entries 1 and 2, the middle pair", join(1)),
        Step::new("list entry 1", list(WHOLE, 1, FIRST_TEXT)),
        Step::new(
            "list entry 1, the shelf's bytes cut short",
            list(20, 1, FIRST_TEXT),
        ),
        settle,
        Step::new("join entries 0 and 1", join(0)),
        settle,
        Step::new("list entry 0", list(WHOLE, 0, LAST_TEXT)),
        settle,
        settle,
    ]
}

fn put(stream: &[u8]) -> Request {
    Request::Put {
        handed: WHOLE,
        stream,
    }
}

fn join(entry: usize) -> Request<'static> {
    Request::Join {
        handed: WHOLE,
        entry,
        work: WORK,
    }
}

fn list(handed: usize, entry: usize, text: Window) -> Request<'static> {
    Request::List {
        handed,
        entry,
        text,
    }
}

// The next `n` bytes of a buffer from a place on, or all where there are fewer.
fn part(buffer: &[u8], start: usize, n: usize) -> &[u8] {
    front(buffer.get(start..).unwrap_or(&[]), n)
}

// Prints the outcome of a call, and the text of a list.
fn show_step(
    rt: &HostRuntime,
    step: &Step,
    answer: Result<usize, Fault>,
    buffer: &[u8],
) -> anyhow::Result<()> {
    let words = step.words;
    match (answer, step.request) {
        (Err(fault), _) => println!(rt; "  {words}: refused: {fault}")?,
        (Ok(n), Request::Join { .. }) => println!(rt; "  {words}: {n} bytes")?,
        (Ok(n), Request::List { text, .. }) => {
            println!(rt; "  {words}:")?;
            rt.stdout().write_all(part(buffer, text.start, n))?;
        }
        (Ok(_), _) => println!(rt; "  {words}: done")?,
    }
    Ok(())
}

// Prints the bytes of an image that the chain changes.
fn show_pages<S: Store>(rt: &HostRuntime, what: &str, image: &S) -> anyhow::Result<()> {
    print!(rt; "{what}: ")?;
    show_bytes(rt, image, 0, 3)?;
    print!(rt; " at 0, ")?;
    show_bytes(rt, image, 256, 3)?;
    print!(rt; " at 256, ")?;
    show_bytes(rt, image, 512, 3)?;
    println!(rt; " at 512")?;
    Ok(())
}

// An image of three pages, with `o` at 0 and `p` at 256.
fn fill_image<S: Store>(image: &mut S) -> Result<(), Fault> {
    image.resize(768)?;
    image.write(0, b"o")?;
    image.write(256, b"p")
}

// Prints the outcome of each call.
fn show_steps(
    rt: &HostRuntime,
    steps: &[Step],
    answers: &[Result<usize, Fault>],
    buffer: &[u8],
) -> anyhow::Result<()> {
    for (step, answer) in steps.iter().zip(answers) {
        show_step(rt, step, *answer, buffer)?;
    }
    Ok(())
}

// The calls that the steps ask for.
fn requests_of<'a>(steps: &[Step<'a>; 14]) -> [Request<'a>; 14] {
    steps.map(|step| step.request)
}

// Plays the series on a base image in a pool of two pages, and prints the outcome of each call.
fn play_series<S: Store>(
    rt: &HostRuntime,
    base: &mut S,
    chain: [&[u8]; 4],
) -> anyhow::Result<Shelf> {
    let mut bytes = [0u8; 512];
    let mut buffer = [0u8; 384];
    let steps = series_on(chain);
    let calls = requests_of(&steps);
    let mut answers: [Result<usize, Fault>; 14] = [Ok(0); 14];
    let Ok(shelf) = replay(b"a", base, &mut bytes, &mut buffer, &calls, &mut answers) else {
        return Err(anyhow!("the base name was refused"));
    };
    show_steps(rt, &steps, &answers, &buffer)?;
    Ok(shelf)
}

// Applies the four streams one after another to another image.
fn apply_chain<S: Store>(image: &mut S, chain: [&[u8]; 4]) -> Result<(), Fault> {
    for (stream, difference) in chain.iter().zip(&CHAIN) {
        apply(stream, difference.from, image)?;
    }
    Ok(())
}

// Prints a series of calls on a shelf, and the base image that comes back.
fn show_chain(rt: &HostRuntime, chain: [&[u8]; 4]) -> anyhow::Result<()> {
    let mut map = [0u32; 3];
    let mut pool = [0u8; 512];
    let mut base = PagedImage::open(&mut map, &mut pool);
    let mut memory = [0u8; 768];
    let mut copy = FlatImage::open(&mut memory, 0);
    fill_image(&mut base)?;
    fill_image(&mut copy)?;
    println!(rt; "a shelf beside a base image of three pages in a pool of two, at snapshot a:")?;
    let shelf = play_series(rt, &mut base, chain)?;
    let left = shelf.count();
    println!(rt; "entries left: {left}")?;
    show_pages(rt, "the base image that comes back", &base)?;
    apply_chain(&mut copy, chain)?;
    show_pages(rt, "the four streams applied in order", &copy)
}

/// Writes the chain and plays the series.
pub fn show_series(rt: &HostRuntime) -> anyhow::Result<()> {
    let [first, second, third, fourth] = &CHAIN;
    let first = first.stream(rt)?;
    let second = second.stream(rt)?;
    let third = third.stream(rt)?;
    let fourth = fourth.stream(rt)?;
    show_chain(rt, [&first, &second, &third, &fourth])
}
