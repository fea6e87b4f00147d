ghost use Rattle.std.specs.Prelude.{◌≡◌, length};
ghost use Rattle.stream.specs.Verdict.{verdict};

use crate::buffers::RunBuffer;
use crate::reader::Reader;
use crate::records::{Record, Span};
use fault::Fault;
use overlay::{PayloadMark, Run, Side};

// The metadata of a stream, its names by their places.
#[derive(Clone, Copy)]
pub struct Summary {
    pub from: Span,
    pub to: Span,
    pub size: u64,
}

impl Summary {
    ghost use Rattle.stream.specs.Gathered.{RunFits, buffer_runs, with_found, gathered_of, gathered_result, gathered_from, nothing_gathered};

    // Adds a record: a data record becomes one more run in the buffer.
    fn add(&mut self, side: Side, found: Record, buffer: &mut RunBuffer)
        requires { RunFits (length (buffer_runs buffer.old)) found }
        ensures { gathered_of self.new buffer.new ≡
            with_found side (gathered_of self.old buffer.old) found }
    {
        match found {
            Record::From(name) => self.from = name,
            Record::To(name) => self.to = name,
            Record::Size(size) => self.size = size,
            Record::Write {
                offset,
                length,
                place,
            } => buffer.push(Run {
                offset,
                length,
                mark: PayloadMark::Written(side, place as u64),
            }),
            Record::Zero { offset, length } => buffer.push(Run {
                offset,
                length,
                mark: PayloadMark::Zeroed,
            }),
            Record::End => {}
        }
    }

    // Reads a stream to its end: its metadata, and its data records as the runs of the buffer.
    pub(crate) fn gather(
        stream: &[u8],
        side: Side,
        buffer: &mut RunBuffer,
    ) -> Result<Summary, Fault>
        ensures { gathered_result result buffer.new ≡
            gathered_from side nothing_gathered 12 (verdict stream.now) }
    {
        let mut reader = Reader::open(stream)?;
        let mut summary = Summary {
            from: Span::NONE,
            to: Span::NONE,
            size: 0,
        };
        buffer.clear();
        while let Some(record) = reader.next()? {
            summary.add(side, record, buffer);
        }
        Ok(summary)
    }
}
