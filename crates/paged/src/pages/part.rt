ghost use Rattle.std.specs.Prelude.{◌≡◌, ◌+◌, ◌*◌, ◌<◌};
ghost use Rattle.paged.specs.Pages.{bytes_before, PartOf};

use crate::pages::{PAGE, PLACES};

// The part of a range that lies in one page: from which place of the page on, and which bytes of
// the range they are.
#[derive(Clone, Copy)]
pub(super) struct Part {
    pub from: usize,
    pub start: usize,
    pub end: usize,
}

impl Part {
    // The part in page i, which the range meets.
    #[tactic(auto, using(crate::proofs::Ranges::part_of))]
    pub(super) fn of(offset: usize, count: usize, i: usize) -> Part
        requires page { i < PLACES }
        requires meets { (offset < PAGE * (i + 1)) × (PAGE * i < offset + count) }
        ensures start { result.start ≡ bytes_before offset count i }
        ensures end { result.end ≡ bytes_before offset count (i + 1) }
        ensures part { PartOf offset count i result.start result.end result.from }
    {
        let from = if i == offset / PAGE { offset % PAGE } else { 0 };
        Part {
            from,
            start: PAGE * i + from - offset,
            end: (PAGE * (i + 1) - offset).min(count),
        }
    }
}
