// A writer that takes data records.
ghost use Rattle.std.specs.Prelude.{◌+◌, ◌*◌, ◌≤◌};
ghost use Rattle.stream.specs.declared.limits.TheConstants.{MOST_RECORDS, LARGEST_SIZE, RANGE_HEAD};
ghost use Rattle.writer.specs.declared.heading.TheConstants.{LONGEST_OPENING};

use crate::ended::Ended;
use crate::heading::LONGEST_OPENING;
use crate::records::{place_data, place_end, place_zeros, reach};
use crate::refused::Refused;
use fault::{Cause, Fault};
use stream::{LARGEST_SIZE, MOST_RECORDS, RANGE_HEAD};

/// A stream that has its names and its size, and takes data records. Its position is the number of
/// bytes written so far. The ghost fields bound the numbers, so that no sum of them overflows.
#[derive(Drop)]
pub struct Recording {
    // the place of the next record
    pub(crate) place: usize,
    // the image's size
    pub(crate) size: u64,
    // where the last data record ends in the image
    pub(crate) end: u64,
    // how many data records there are
    pub(crate) count: usize,
    ghost sized: { size ≤ LARGEST_SIZE },
    ghost within: { end ≤ size },
    ghost few: { count ≤ MOST_RECORDS },
    ghost short: { place ≤ LONGEST_OPENING + RANGE_HEAD * count + end },
}

impl Recording {
    ghost use Rattle.std.specs.Prelude.{◌≡◌, IfOk, OnOk};
    ghost use Rattle.stream.specs.Records.{data_at, zeros_at};
    ghost use Rattle.stream.specs.Wellformed.{GoodRange};
    ghost use Rattle.writer.specs.Calls.{range_check, place_after_record, writer_pos, recording_place, Follows, Recorded, Finished};

    // Checks a data record of `count` bytes at an offset.
    fn check_range(&self, offset: u64, count: u64) -> Result<(), Cause>
        ensures answer { result ≡ range_check (writer_pos self.now) offset count }
        ensures good { OnOk result (GoodRange (writer_pos self.now) offset count) }
    {
        if self.count >= MOST_RECORDS {
            return Err(Cause::TooManyRecords);
        }
        if count == 0 || offset > self.size || count > self.size - offset {
            return Err(Cause::BadRange);
        }
        if offset < self.end {
            return Err(Cause::Overlap);
        }
        Ok(())
    }

    // The writer after a data record of `payload` payload bytes, where the record is good and fits
    // into a buffer of `room` bytes.
    fn admit(
        &self,
        room: usize,
        offset: u64,
        count: u64,
        payload: usize,
    ) -> Result<Recording, Fault>
        requires { payload ≤ count }
        ensures answer { recording_place result
            ≡ place_after_record (writer_pos self.now) room offset count (RANGE_HEAD + payload) }
        ensures good { IfOk result
            (λ w. Follows (writer_pos self.now) room offset count (RANGE_HEAD + payload) w) }
    {
        self.check_range(offset, count)
            .map_err(|cause| Fault::new(cause, self.place as u64))?;
        let place = reach(room, self.place + RANGE_HEAD + payload)?;
        Ok(Recording {
            place,
            size: self.size,
            end: offset + count,
            count: self.count + 1,
        })
    }

    /// Adds a range of written bytes. Refused, in this order, for a record too many (10), an empty
    /// range or one that passes the size (8), one that begins before the last one's end (9), and a
    /// buffer that is too short for this record (14).
    pub fn write(
        self,
        out: &mut [u8],
        offset: u64,
        bytes: &[u8],
    ) -> Result<Recording, Refused<Recording>>
        ensures { Recorded self out.old (data_at offset bytes.now) result out.new }
    {
        let at = self.place;
        let next = self
            .admit(out.len(), offset, bytes.len() as u64, bytes.len())
            .map_err(|fault| Refused {
                writer: self,
                fault,
            })?;
        place_data(out, at, offset, bytes);
        Ok(next)
    }

    /// Adds a range of zeros. Refused as `write` is.
    pub fn zero(
        self,
        out: &mut [u8],
        offset: u64,
        length: u64,
    ) -> Result<Recording, Refused<Recording>>
        ensures { Recorded self out.old (zeros_at offset «length») result out.new }
    {
        let at = self.place;
        let next = self
            .admit(out.len(), offset, length, 0)
            .map_err(|fault| Refused {
                writer: self,
                fault,
            })?;
        place_zeros(out, at, offset, length);
        Ok(next)
    }

    /// Ends the stream. Refused only for a buffer that is too short (14).
    pub fn end(self, out: &mut [u8]) -> Result<Ended, Refused<Recording>>
        ensures { Finished self out.old result out.new }
    {
        let at = self.place;
        let length = reach(out.len(), at + 1).map_err(|fault| Refused {
            writer: self,
            fault,
        })?;
        place_end(out, at);
        Ok(Ended { length })
    }
}
