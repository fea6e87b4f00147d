ghost use Rattle.std.specs.Prelude.{◌≡◌, ◌+◌, nat_le};
ghost use Rattle.store.specs.Stores.{range_answer};

use fault::{Cause, Fault};

/// Whether a range ends inside an image of a size, also where offset and length together pass 64
/// bits. It is for stores that refuse in their own words.
pub fn within(offset: u64, length: u64, size: u64) -> bool
    ensures { result ≡ nat_le (offset + length) size }
{
    offset <= size && length <= size - offset
}

/// Refuses a range that does not end inside an image of a size.
pub fn check_range(offset: u64, length: u64, size: u64) -> Result<(), Fault>
    ensures { result ≡ range_answer offset length size }
{
    if within(offset, length, size) {
        Ok(())
    } else {
        Err(Fault::new(Cause::Outside, offset))
    }
}
