// Whether names and a size may stand in a stream, and in a buffer.
ghost use Rattle.std.specs.Prelude.{◌≡◌, ◌≤◌, length, IfOk, OnOk};
ghost use Rattle.writer.specs.Calls.{good_name, names_check, place_after_names, heading_length, Opens};

use crate::heading::Heading;
use crate::records::reach;
use fault::{Cause, Fault};
use stream::{LARGEST_SIZE, LONGEST_NAME, printable};

/// Whether a name may stand in a stream: 1 to 64 bytes, each of them printable.
pub fn is_good_name(name: &[u8]) -> bool
    ensures { result ≡ good_name name.now }
{
    !name.is_empty() && name.len() <= LONGEST_NAME && printable(name)
}

// Checks names and a size. An empty from name stands for none.
fn check_names(from: &[u8], to: &[u8], size: u64) -> Result<(), Cause>
    ensures answer { result ≡ names_check from.now to.now size }
    ensures short_from { OnOk result (length from.now ≤ LONGEST_NAME) }
    ensures short_to { OnOk result (length to.now ≤ LONGEST_NAME) }
    ensures small { OnOk result (size ≤ LARGEST_SIZE) }
{
    if !from.is_empty() && !is_good_name(from) || !is_good_name(to) {
        return Err(Cause::BadName);
    }
    if size > LARGEST_SIZE {
        return Err(Cause::TooLarge);
    }
    Ok(())
}

// The heading of names and a size that are good and fit into a buffer of `room` bytes.
pub(crate) fn admit_names<'a>(
    room: usize,
    from: &'a [u8],
    to: &'a [u8],
    size: u64,
) -> Result<Heading<'a>, Fault>
    ensures answer { heading_length result ≡ place_after_names room from.now to.now size }
    ensures good { IfOk result (λ h. Opens room from.now to.now size h) }
{
    check_names(from, to, size).map_err(|cause| Fault::new(cause, 0))?;
    let heading = Heading { from, to, size };
    reach(room, heading.length())?;
    Ok(heading)
}
