ghost use Rattle.std.specs.Prelude.{◌≡◌, ◌+◌, ◌≤◌, min};

use std::ops::Range;

/// A part of a buffer: its first place and its length. What passes the buffer's end is cut off.
#[derive(Clone, Copy)]
pub struct Window {
    pub start: usize,
    pub length: usize,
}

impl Window {
    // The places of the window in a buffer of `room` bytes.
    pub(crate) fn within(self, room: usize) -> Range<usize>
        ensures start { result.start ≡ min self.start room }
        ensures end { result.end ≡ min (self.start + self.length) room }
        ensures ordered { (result.start ≤ result.end) × (result.end ≤ room) }
    {
        let start = self.start.min(room);
        let length = self.length.min(room - start);
        start..start + length
    }
}

/// A call of a series, with its arguments. It gets the first `handed` of the shelf's bytes, all of
/// them where there are no more; join and list get a window of the series' buffer besides.
#[derive(Clone, Copy)]
pub enum Request<'a> {
    Put {
        handed: usize,
        stream: &'a [u8],
    },
    Join {
        handed: usize,
        entry: usize,
        work: Window,
    },
    Settle {
        handed: usize,
    },
    List {
        handed: usize,
        entry: usize,
        text: Window,
    },
}
