ghost use Rattle.std.specs.Prelude.{◌≡◌, ◌≤◌, [], length, take};
ghost use Rattle.stream.specs.Verdict.{same};
ghost use Rattle.stream.specs.declared.limits.TheConstants.{LONGEST_NAME};

use stream::LONGEST_NAME;

/// The name of a snapshot, of at most 64 bytes. The state before the first snapshot has the empty
/// name.
// It is Copy, so it keeps its length beside the array: an ArrayVec could only be cloned.
#[derive(Clone, Copy)]
pub struct Name {
    bytes: [u8; LONGEST_NAME],
    length: usize,
    ghost short: { length ≤ LONGEST_NAME },
}

impl Name {
    ghost use Rattle.table.specs.Names.{name_of};

    /// The name with these bytes.
    pub fn of(bytes: &[u8]) -> Name
        requires { length bytes.now ≤ LONGEST_NAME }
        ensures { name_of result ≡ bytes.now }
    {
        Name {
            bytes: padded(bytes),
            length: bytes.len(),
        }
    }

    /// The empty name, of the state before the first snapshot; `Default` gives the same.
    pub fn empty() -> Name
        ensures { name_of result ≡ [] }
    {
        Name::of(&[])
    }

    /// Its bytes.
    pub fn as_bytes(&self) -> &[u8]
        ensures { result.now ≡ name_of self.now }
    {
        &self.bytes[..self.length]
    }

    /// Whether this is the name with these bytes.
    #[tactic(auto, using(crate::proofs::Names::same_is))]
    pub fn is(&self, name: &[u8]) -> bool
        ensures { result ≡ same name.now (name_of self.now) }
    {
        name == self.as_bytes()
    }
}

impl Default for Name {
    ghost use Rattle.table.specs.Names.{name_of};

    ghost is_default = { λ name. name_of name ≡ [] };

    // The empty name.
    fn default() -> Name {
        Name::empty()
    }
}

// The bytes, and zeros after them.
fn padded(bytes: &[u8]) -> [u8; LONGEST_NAME]
    requires { length bytes.now ≤ LONGEST_NAME }
    ensures { take (length bytes.now) result ≡ bytes.now }
{
    let mut all = [0; LONGEST_NAME];
    all[..bytes.len()].copy_from_slice(bytes);
    all
}
