ghost use Rattle.std.specs.Prelude.{◌≡◌, Some};

use crate::cause::Cause;
use crate::layer::Layer;
use std::error::Error;
use std::fmt;

/// A refusal: why, by which layer, at what place, and in which record and entry. Place, record and
/// entry are 0 where there is none.
#[derive(Clone, Copy, PartialEq, Eq, Debug)]
pub struct Fault {
    pub cause: Cause,
    pub layer: Layer,
    pub place: u64,
    pub record: u64,
    pub entry: u64,
}

impl Fault {
    ghost use Rattle.fault.specs.Fault.{fault, at_layer, in_record, in_entry};

    /// The fault of a cause, where `at` is the number at hand: a place, a length, an offset, a size
    /// or an entry's number. Causes that have no place drop it.
    pub fn new(cause: Cause, at: u64) -> Fault
        ensures { result ≡ fault cause at }
    {
        Fault {
            cause,
            layer: cause.layer(),
            place: cause.place(at),
            record: 0,
            entry: 0,
        }
    }

    /// The same fault, given by another layer.
    pub fn at_layer(self, layer: Layer) -> Fault
        ensures { result ≡ at_layer layer self }
    {
        Fault { layer, ..self }
    }

    /// The same fault, in a canonical record of this number.
    pub fn in_record(self, record: u64) -> Fault
        ensures { result ≡ in_record «record» self }
    {
        Fault { record, ..self }
    }

    /// The same fault, in a shelf's entry of this number, or in stream 0 or 1 of a join.
    pub fn in_entry(self, entry: u64) -> Fault
        ensures { result ≡ in_entry entry self }
    {
        Fault { entry, ..self }
    }
}

// The words of the cause, and the five numbers. By hand: a derive would promise nothing of what it
// prints.
impl fmt::Display for Fault {
    ghost use Rattle.fault.specs.Words.{fault_text};

    ghost output = { λ f. Some (fault_text f) };

    fn fmt<W: fmt::Write>(&self, f: &mut fmt::Formatter<W>) -> fmt::Result {
        let cause = self.cause;
        let number = self.cause.number();
        let layer = self.layer.number();
        let place = self.place;
        let record = self.record;
        let entry = self.entry;
        write!(
            f,
            "{cause} (cause {number}, layer {layer}, place {place}, record {record}, entry {entry})"
        )
    }
}

// So that a program can return a fault by `?` as its own error.
impl Error for Fault {}
