ghost use Rattle.std.specs.Prelude.{◌≡◌, ℕ, Bool};
ghost use Rattle.overlay.specs.MarkLaws.{LawfulMarks};

/// What a byte of an image becomes. A run holds the mark of its first byte; moved on by k, that
/// mark is the mark of the byte k further. Each kind of mark proves the laws.
pub trait Mark: Eq {
    // the mark of the byte k further
    ghost moves: { Self → ℕ → Self };

    // whether two marks mean the same, as `==` finds it
    ghost alike: { Self → Self → Bool };

    /// The mark of a byte that only regrowth made: below the later size, at or past the earlier
    /// one, and set by neither difference.
    const FILLER: Self;

    ghost FILLER: { Self };

    fn moved(self, k: u64) -> Self
        ensures { result ≡ moves self k };

    ghost laws: { LawfulMarks Self.eq alike moves FILLER };
}
