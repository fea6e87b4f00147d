// Refusals: the error that every layer returns. A layer makes a fault, and the layers above return
// it by `?` and add only the record and the entry.
#![tactic(auto)]

ghost use Rattle.std.specs.Prelude.{◌≡◌, ℕ};
ghost use Rattle.fault.specs.Fault.{in_record, in_entry, fault_by};

mod cause;
mod fault;
mod layer;

pub use cause::Cause;
pub use fault::Fault;
pub use layer::Layer;

/// A result whose fault, if it has one, gains the record or the entry:
/// `check(stream).in_entry(1)?`.
pub trait Located {
    // the result with its fault in a record
    ghost with_record: { ℕ → Self → Self };

    // the result with its fault in an entry
    ghost with_entry: { ℕ → Self → Self };

    /// The same result, whose fault is in a record.
    fn in_record(self, record: u64) -> Self
        ensures { result ≡ with_record «record» self };

    /// The same result, whose fault is in an entry.
    fn in_entry(self, entry: u64) -> Self
        ensures { result ≡ with_entry entry self };
}

impl<T> Located for Result<T, Fault> {
    ghost with_record = { λ i r. fault_by (in_record i) r };

    ghost with_entry = { λ i r. fault_by (in_entry i) r };

    fn in_record(self, record: u64) -> Result<T, Fault> {
        self.map_err(|f| f.in_record(record))
    }

    fn in_entry(self, entry: u64) -> Result<T, Fault> {
        self.map_err(|f| f.in_entry(entry))
    }
}
