// Which file a refusal names. The paths are fields, so that no call can take one for another.
ghost use Rattle.std.specs.Prelude.{◌≡◌, IfOk, string_bytes};
ghost use Rattle.file_calls.specs.Paths.{apply_path, join_path};

use fault::{Fault, Layer};
use std::alloc::{AllocError, Global};

/// The paths of the two streams of a join.
#[derive(Clone, Copy)]
pub struct JoinPaths<'a> {
    pub earlier: &'a str,
    pub later: &'a str,
}

impl<'a> JoinPaths<'a> {
    /// The path of the stream that has the fault, or both paths where the two do not fit.
    pub fn refused(self, heap: Global, fault: Fault) -> Result<String, AllocError>
        ensures { IfOk result
            (λ path. string_bytes path ≡ join_path fault self.entry.earlier.now self.entry.later.now) }
    {
        let JoinPaths { earlier, later } = self;
        match (fault.layer, fault.entry) {
            (Layer::Stream, 0) => String::from_str(heap, earlier),
            (Layer::Stream, _) => String::from_str(heap, later),
            _ => format!(in heap; "{earlier}, {later}"),
        }
    }
}

/// The paths of a stream and of the image that it is applied to.
#[derive(Clone, Copy)]
pub struct ApplyPaths<'a> {
    pub stream: &'a str,
    pub image: &'a str,
}

impl<'a> ApplyPaths<'a> {
    /// The path of the image where its store refuses, else that of the stream.
    pub fn refused(self, fault: Fault) -> &'a str
        ensures { result.now ≡ apply_path fault self.entry.stream.now self.entry.image.now }
    {
        match fault.layer {
            Layer::Store => self.image,
            _ => self.stream,
        }
    }
}
