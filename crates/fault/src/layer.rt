ghost use Rattle.std.specs.Prelude.{◌≡◌};

/// The part of the software that gives a cause.
#[derive(Clone, Copy, PartialEq, Eq, Debug)]
pub enum Layer {
    Stream = 1,
    Join = 2,
    Store = 3,
    Shelf = 4,
}

impl Layer {
    ghost use Rattle.fault.specs.Fault.{layer_number};

    /// The layer's number, 1 to 4, as the calls for C return it and as it is printed.
    pub fn number(self) -> u64
        ensures { result ≡ layer_number self }
    {
        self as u64
    }
}
