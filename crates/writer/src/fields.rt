// Field writers: each writes at the beginning of the slice that it is given and leaves the bytes
// after that as they were. The slice is the rest of a buffer, and the caller has checked its room.
ghost use Rattle.std.specs.Prelude.{◌≡◌, ◌+◌, ◌≤◌, [], ◌∷◌, ◌++◌, length};
ghost use Rattle.stream.specs.Bytes.{le_bytes, buffer_with};
ghost use Rattle.writer.specs.Fields.{name_record, range_head};

use stream::{LONGEST_NAME, NAME_HEAD, RANGE_HEAD};

/// Writes one byte.
pub fn put_u8(tail: &mut [u8], v: u8)
    requires { 1 ≤ length tail.old }
    ensures { tail.new ≡ buffer_with tail.old 0 (v ∷ []) }
{
    tail[0] = v;
}

/// Writes bytes as they are.
pub fn put_bytes(tail: &mut [u8], bytes: &[u8])
    requires { length bytes.now ≤ length tail.old }
    ensures { tail.new ≡ buffer_with tail.old 0 bytes.now }
{
    tail[0..bytes.len()].copy_from_slice(bytes);
}

// Writes a name with its tag and its length.
pub(crate) fn put_name(tail: &mut [u8], tag: u8, name: &[u8])
    requires short { length name.now ≤ LONGEST_NAME }
    requires room { NAME_HEAD + length name.now ≤ length tail.old }
    ensures { tail.new ≡ buffer_with tail.old 0 (name_record tag name.now) }
{
    put_u8(tail, tag);
    put_bytes(&mut tail[1..], &(name.len() as u32).to_le_bytes());
    put_bytes(&mut tail[NAME_HEAD..], name);
}

// Writes a tag and two numbers of 8 bytes.
fn put_numbers(tail: &mut [u8], tag: u8, first: u64, second: u64)
    requires { RANGE_HEAD ≤ length tail.old }
    ensures { tail.new ≡ buffer_with tail.old 0 (tag ∷ (le_bytes 8 first ++ le_bytes 8 second)) }
{
    put_u8(tail, tag);
    put_bytes(&mut tail[1..], &first.to_le_bytes());
    put_bytes(&mut tail[9..], &second.to_le_bytes());
}

/// Writes the head of the data record of a range of `count` bytes. The payload of a written range
/// comes after these `RANGE_HEAD` bytes.
pub fn put_range(tail: &mut [u8], tag: u8, offset: u64, count: u64)
    requires { RANGE_HEAD ≤ length tail.old }
    ensures { tail.new ≡ buffer_with tail.old 0 (range_head tag offset count) }
{
    put_numbers(tail, tag, offset, count);
}
