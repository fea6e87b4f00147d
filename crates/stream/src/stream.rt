ghost use Rattle.stream.specs.Reads.{WasRead};

use crate::buffers::RunBuffer;
use crate::summary::Summary;
use fault::Fault;
use overlay::{PayloadMark, Sheet, Side};

/// A stream that was read: its bytes, its two names, and its data records as runs below the image's
/// size, whose payload marks name places of the bytes.
#[derive(Clone, Copy)]
pub struct Stream<'s, 'r> {
    pub bytes: &'s [u8],
    pub from: &'s [u8],
    pub to: &'s [u8],
    pub sheet: Sheet<'r, PayloadMark>,
    pub ghost was_read: { ∥ WasRead bytes.now from.now to.now sheet.size sheet.runs.now ∥₁ },
}

impl<'s, 'r> Stream<'s, 'r> {
    ghost use Rattle.stream.specs.Streams.{StreamRead};

    fn read_all(
        bytes: &'s [u8],
        side: Side,
        buffer: &'r mut RunBuffer,
    ) -> Result<Stream<'s, 'r>, Fault>
        ensures { StreamRead side bytes.now result }
    {
        let summary = Summary::gather(bytes, side, buffer)?;
        let from = summary.from.of(bytes);
        let to = summary.to.of(bytes);
        let sheet = Sheet {
            runs: buffer.as_slice(),
            size: summary.size,
        };
        Ok(Stream {
            bytes,
            from,
            to,
            sheet,
        })
    }

    /// Reads a stream for a side of a join: its runs lie in the buffer. For a stream that is not to
    /// be joined, either side will do. What a refused reading leaves in the buffer does not
    /// matter: nobody can look at it, and the next reading begins anew.
    pub fn read(
        bytes: &'s [u8],
        side: Side,
        buffer: &'r mut RunBuffer,
    ) -> Result<Stream<'s, 'r>, Fault>
        ensures { StreamRead side bytes.now result }
    {
        Stream::read_all(bytes, side, buffer)
    }
}
