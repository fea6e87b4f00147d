// A writer whose stream is whole.
ghost use Rattle.std.specs.Prelude.{◌≡◌};

/// A stream that is whole.
#[derive(Drop)]
pub struct Ended {
    pub(crate) length: usize,
}

impl Ended {
    /// The length of the whole stream, in bytes from the beginning of its buffer.
    pub fn length(&self) -> usize
        ensures { result ≡ self.now.length }
    {
        self.length
    }
}
