ghost use Rattle.std.specs.Prelude.{◌≡◌, ◌+◌, ◌-◌, ◌^◌, ◌<◌, ◌≤◌, length, Ok};
ghost use Rattle.stream.specs.Steps.{fault_at};

use crate::fields::{array_at, name_length, size_in};
use crate::limits::{HEADER, MOST_RECORDS, NAME_HEAD, RANGE_HEAD, SIZE_HEAD};
use crate::records::{Record, Span};
use fault::{Cause, Fault};

// Which metadata was read so far: whether there were names, and the size.
#[derive(Clone, Copy)]
pub struct Metadata {
    pub from: bool,
    pub to: bool,
    pub size: Option<u64>,
}

// What the next data record has to keep to: the image's size, where the last record ends, and how
// many there were.
#[derive(Clone, Copy)]
pub struct Reached {
    pub size: u64,
    pub end: u64,
    pub count: usize,
}

impl Reached {
    // The same after one more data record.
    fn past(self, offset: u64, length: u64) -> Reached
        requires { (offset + «length» < 2 ^ 64) × (self.count < MOST_RECORDS) }
        ensures { result ≡ record self { end = offset + «length»; count = self.count + 1 } }
    {
        Reached {
            end: offset + length,
            count: self.count + 1,
            ..self
        }
    }
}

// What was read so far: metadata only, or data too.
#[derive(Clone, Copy)]
pub enum State {
    Meta(Metadata),
    Data(Reached),
}

impl State {
    ghost use Rattle.stream.specs.Stands.{reached_of};

    // What the next data record has to keep to. Data may come once the to name and the size were
    // read.
    fn reached(self) -> Result<Reached, Cause>
        ensures { result ≡ reached_of self }
    {
        match self {
            State::Data(reached) => Ok(reached),
            State::Meta(
                Metadata {
                    to: true,
                    size: Some(size),
                    ..
                },
            ) => Ok(Reached {
                size,
                end: 0,
                count: 0,
            }),
            State::Meta(_) => Err(Cause::Incomplete),
        }
    }
}

// A stream with the place of the next record, and what was read before it.
#[derive(Drop)]
pub struct Reader<'a> {
    pub(crate) bytes: &'a [u8],
    pub(crate) place: usize,
    pub(crate) state: State,
    ghost within: { place ≤ length bytes.now },
}

impl<'a> Reader<'a> {
    ghost use Rattle.stream.specs.Rule.{seen_size, Data};
    ghost use Rattle.stream.specs.Steps.{data_range_of, payload_range_of, step_of, size_step, data_step, zeros_step, end_step};
    ghost use Rattle.stream.specs.Stands.{seen_of, in_meta, in_data, pos_of, rest_of, Took, TookName, Opened, finish_answer, Stepped, Turned};

    // A reader that stands after the header of a stream.
    pub(crate) fn open(bytes: &'a [u8]) -> Result<Reader<'a>, Fault>
        ensures { Opened bytes.now result }
    {
        if !bytes.starts_with(HEADER) {
            return Err(Fault::new(Cause::Header, 0));
        }
        Ok(Reader {
            bytes,
            place: HEADER.len(),
            state: State::Meta(Metadata {
                from: false,
                to: false,
                size: None,
            }),
        })
    }

    // The bytes from the next record on.
    fn rest(&self) -> &'a [u8]
        ensures { result.now ≡ rest_of self.now }
    {
        &self.bytes[self.place..]
    }

    // The offset and the length of the next data record. A record too many is reported first, then
    // one that is cut off, then a bad range.
    fn range(&self, reached: Reached) -> Result<(u64, u64), Cause>
        ensures { result ≡ data_range_of (in_data self.now.place reached) (rest_of self.now) }
    {
        if reached.count >= MOST_RECORDS {
            return Err(Cause::TooManyRecords);
        }
        let offset = u64::from_le_bytes(array_at(self.rest(), 1)?);
        let length = u64::from_le_bytes(array_at(self.rest(), 9)?);
        if length == 0 || offset > reached.size || length > reached.size - offset {
            return Err(Cause::BadRange);
        }
        if offset < reached.end {
            return Err(Cause::Overlap);
        }
        Ok((offset, length))
    }

    // The same for a record with payload, which must not be cut off.
    fn payload(&self, reached: Reached) -> Result<(u64, u64), Cause>
        ensures { result ≡ payload_range_of (in_data self.now.place reached) (rest_of self.now) }
    {
        let (offset, length) = self.range(reached)?;
        if ((self.rest().len() - RANGE_HEAD) as u64) < length {
            return Err(Cause::Cut);
        }
        Ok((offset, length))
    }

    // Steps over the next record, a name of either kind. `metadata` is what was read with it.
    fn take_name(&mut self, metadata: Metadata) -> Result<Span, Cause>
        ensures { TookName self.old self.new metadata result }
    {
        let length = name_length(self.rest())?;
        let place = self.place + NAME_HEAD;
        self.place = place + length;
        self.state = State::Meta(metadata);
        Ok(Span { place, length })
    }

    // Reads the size, after this metadata.
    fn take_size(&mut self, metadata: Metadata) -> Result<Record, Cause>
        ensures { Took self.old self.new
            (size_step (in_meta self.old.place metadata) (rest_of self.old) (seen_size (seen_of metadata)))
            result }
    {
        let size = size_in(self.rest())?;
        self.place += SIZE_HEAD;
        self.state = State::Meta(Metadata {
            size: Some(size),
            ..metadata
        });
        Ok(Record::Size(size))
    }

    // Reads a written range, after data records that reached this far.
    fn take_data(&mut self, reached: Reached) -> Result<Record, Cause>
        ensures { Took self.old self.new
            (data_step (in_data self.old.place reached) (rest_of self.old) Data) result }
    {
        let (offset, length) = self.payload(reached)?;
        let place = self.place + RANGE_HEAD;
        self.place = place + length as usize;
        self.state = State::Data(reached.past(offset, length));
        Ok(Record::Write {
            offset,
            length,
            place,
        })
    }

    // Reads a range of zeros, after data records that reached this far.
    fn take_zeros(&mut self, reached: Reached) -> Result<Record, Cause>
        ensures { Took self.old self.new
            (zeros_step (in_data self.old.place reached) (rest_of self.old) Data) result }
    {
        let (offset, length) = self.range(reached)?;
        self.place += RANGE_HEAD;
        self.state = State::Data(reached.past(offset, length));
        Ok(Record::Zero { offset, length })
    }

    // Reads the end record.
    fn take_end(&mut self, reached: Reached) -> Record
        requires { self.old.place < length self.old.bytes.now }
        ensures { Took self.old self.new
            (end_step (in_data self.old.place reached) Data) (Ok result) }
    {
        self.place += 1;
        self.state = State::Data(reached);
        Record::End
    }

    // Reads the next record and steps over it. Which tags may come depends on the state. A refusal
    // leaves the reader as it was.
    fn record(&mut self) -> Result<Record, Cause>
        ensures { Took self.old self.new (step_of (pos_of self.old) (rest_of self.old)) result }
    {
        let [tag, ..] = self.rest() else {
            return Err(Cause::Cut);
        };
        match (self.state, *tag) {
            (State::Meta(metadata), b'f') if !metadata.from => {
                let span = self.take_name(Metadata {
                    from: true,
                    ..metadata
                })?;
                Ok(Record::From(span))
            }
            (State::Meta(metadata), b't') if !metadata.to => {
                let span = self.take_name(Metadata {
                    to: true,
                    ..metadata
                })?;
                Ok(Record::To(span))
            }
            (State::Meta(metadata), b's') if metadata.size.is_none() => self.take_size(metadata),
            (_, b'f' | b't' | b's') => Err(Cause::Misplaced),
            (state, b'w') => self.take_data(state.reached()?),
            (state, b'z') => self.take_zeros(state.reached()?),
            (state, b'e') => Ok(self.take_end(state.reached()?)),
            _ => Err(Cause::UnknownTag),
        }
    }

    // The same, with the fault in place of the cause.
    fn step(&mut self) -> Result<Record, Fault>
        ensures { Stepped self.old self.new result }
    {
        let (total, place) = (self.bytes.len(), self.place);
        self.record().map_err(|cause| fault_at(total, place, cause))
    }

    // Reads the next record and steps over it. There is none at the end record, after which no byte
    // may follow. This is no `Iterator`: after a refusal the reader stands where it stood, and each
    // further call would be refused again.
    pub(crate) fn next(&mut self) -> Result<Option<Record>, Fault>
        ensures { Turned self.old self.new result }
    {
        let record = self.step()?;
        if let Record::End = record {
            self.finish()?;
            return Ok(None);
        }
        Ok(Some(record))
    }

    // Refuses bytes after the end record.
    fn finish(&self) -> Result<(), Fault>
        ensures { result ≡ finish_answer (length self.now.bytes.now) self.now.place }
    {
        if self.place < self.bytes.len() {
            return Err(Fault::new(Cause::Trailing, self.place as u64));
        }
        Ok(())
    }
}

// The fault of a record at a place. Where the stream is cut off, its place is the stream's length.
fn fault_at(total: usize, place: usize, cause: Cause) -> Fault
    ensures { result ≡ fault_at total place cause }
{
    match cause {
        Cause::Cut => Fault::new(cause, total as u64),
        _ => Fault::new(cause, place as u64),
    }
}
