// A writer that has written nothing.
ghost use Rattle.std.specs.Prelude.{◌≡◌};

use crate::names::admit_names;
use crate::recording::Recording;
use crate::refused::Refused;

/// A stream that has nothing yet.
#[derive(Drop)]
pub struct Opened {
    pub(crate) place: usize,
    ghost first: { place ≡ 0 },
}

impl Opened {
    ghost use Rattle.writer.specs.Calls.{Named};

    /// A writer at the beginning of its buffer.
    pub fn new() -> Opened
        ensures { result.place ≡ 0 }
    {
        Opened { place: 0 }
    }

    /// Writes the header, f unless the from name is empty, t and s. Refused, in this order, for a
    /// bad name (6), a size above 2^40 (7), and a buffer that is too short (14).
    pub fn names(
        self,
        out: &mut [u8],
        from: &[u8],
        to: &[u8],
        size: u64,
    ) -> Result<Recording, Refused<Opened>>
        ensures { Named out.old from.now to.now size result out.new }
    {
        let heading = admit_names(out.len(), from, to, size).map_err(|fault| Refused {
            writer: self,
            fault,
        })?;
        heading.put(out);
        Ok(Recording {
            place: heading.length(),
            size,
            end: 0,
            count: 0,
        })
    }
}
