ghost use Rattle.std.specs.Prelude.{◌≡◌, ◌+◌, if◌then◌else◌, length, Ok, Err, nat_lt};
ghost use Rattle.stream.specs.Bytes.{field};
ghost use Rattle.stream.specs.Steps.{every_printable, name_length_of, size_of};
ghost use Rattle.fault.specs.declared.cause.Cause.TheVariants.{Cut};

use crate::limits::{LARGEST_SIZE, LONGEST_NAME, NAME_HEAD};
use fault::Cause;

// The N bytes from `at` on, or `Cut` where the bytes end before.
pub(crate) fn array_at<const N: usize>(bytes: &[u8], at: usize) -> Result<[u8; N], Cause>
    ensures { result ≡ (
        if nat_lt (length bytes.now) (at + N) then Err Cut else Ok (field bytes.now at N)) }
{
    let Some(tail) = bytes.get(at..) else {
        return Err(Cause::Cut);
    };
    let chunk = tail.first_chunk().ok_or(Cause::Cut)?;
    Ok(*chunk)
}

/// Whether each byte may stand in a name: 33 to 126, the graphic ASCII characters.
pub fn printable(name: &[u8]) -> bool
    ensures { result ≡ every_printable name.now }
{
    name.iter().all(|byte| byte.is_ascii_graphic())
}

// The length of the name in the record at the beginning of `rest`. Its length is checked first,
// then whether it is cut off, then its bytes.
pub(crate) fn name_length(rest: &[u8]) -> Result<usize, Cause>
    ensures { result ≡ name_length_of rest.now }
{
    let length = u32::from_le_bytes(array_at(rest, 1)?) as usize;
    if length == 0 || length > LONGEST_NAME {
        return Err(Cause::BadName);
    }
    if rest.len() < NAME_HEAD + length {
        return Err(Cause::Cut);
    }
    if !printable(&rest[NAME_HEAD..NAME_HEAD + length]) {
        return Err(Cause::BadName);
    }
    Ok(length)
}

// The size in the record at the beginning of `rest`.
pub(crate) fn size_in(rest: &[u8]) -> Result<u64, Cause>
    ensures { result ≡ size_of rest.now }
{
    let size = u64::from_le_bytes(array_at(rest, 1)?);
    if size > LARGEST_SIZE {
        return Err(Cause::TooLarge);
    }
    Ok(size)
}
