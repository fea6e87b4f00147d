use overlay::{RangeMark, Run};

/// The first bytes of every stream.
pub const HEADER: &[u8] = b"rbd diff v1\n";

/// The most data records that a stream may have.
pub const MOST_RECORDS: usize = 512;

/// The length of the longest name, in bytes.
pub const LONGEST_NAME: usize = 64;

/// The largest size of an image, in bytes.
pub const LARGEST_SIZE: u64 = 1 << 40;

/// The bytes of a name's record before the name: its tag and its length.
pub const NAME_HEAD: usize = 5;

/// The bytes of a size's record: its tag and the size.
pub const SIZE_HEAD: usize = 9;

/// The bytes of a data record before its payload: its tag, its offset and its length.
pub const RANGE_HEAD: usize = 17;

/// Room for the ranges of one stream, or of a join. Nothing here allocates: the caller provides the
/// array, and a count beside it says how many elements are in use.
pub type Ranges = [Run<RangeMark>; MOST_RECORDS];
