ghost use Rattle.std.specs.Prelude.{◌≡◌};

// Where a name lies in its stream. Length 0 stands for a name that the stream does not have: the
// empty name is that of the state before the first snapshot.
#[derive(Clone, Copy)]
pub struct Span {
    pub place: usize,
    pub length: usize,
}

impl Span {
    ghost use Rattle.stream.specs.Places.{span_bytes, NameSpan};

    // A name that a stream does not have.
    pub(crate) const NONE: Span = Span {
        place: 0,
        length: 0,
    };

    // The name's bytes, in its stream.
    pub(crate) fn of(self, stream: &[u8]) -> &[u8]
        requires { NameSpan stream.now self }
        ensures { result.now ≡ span_bytes stream.now self }
    {
        let end = self.place + self.length;
        &stream[self.place..end]
    }
}

// A record as it lies in the stream. A name or a payload is given by its place and length.
#[derive(Clone, Copy)]
pub enum Record {
    From(Span),
    To(Span),
    Size(u64),
    Write {
        offset: u64,
        length: u64,
        place: usize,
    },
    Zero {
        offset: u64,
        length: u64,
    },
    End,
}
