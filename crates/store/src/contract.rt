ghost use Rattle.std.specs.Prelude.{◌≡◌, ℕ, ◌+◌, List, length};
ghost use Rattle.store.specs.Stores.{Images, Laws, KeepsPast, reach};
ghost use Rattle.store.specs.Stores.{read_outcome, write_outcome, zero_outcome, resize_outcome};

use fault::Fault;

/// The most bytes that any image has.
pub const LIMIT: u64 = 1 << 40;

/// A store keeps the bytes of an image. A refused call leaves the image, and the memory past
/// it, as they were.
///
/// Each call says that the set of images that the store can hold stays as it was. No invariant can
/// say that, since it relates the store after the call to the store before it.
pub trait Store {
    // The bytes of the image now.
    ghost image: { Self → List ℕ };

    // The images that the store can hold.
    ghost holds: { Self → Images };

    // The store's memory from a position on, and which memory that is. An image that ends there
    // accounts for none of it. A store without such memory has `Unit`.
    ghost Rest: { Type 0 };

    ghost past: { Self → ℕ → Rest };

    ghost laws: { Laws image holds };

    fn size(&self) -> u64
        ensures { result ≡ length (image self.now) };

    /// Fills the whole buffer with the bytes of the image from `offset` on.
    fn read(&self, offset: u64, buf: &mut [u8]) -> Result<(), Fault>
        ensures { (result, buf.new) ≡ read_outcome (image self.now) offset buf.old };

    /// Puts bytes into the image, from `offset` on.
    fn write(&mut self, offset: u64, bytes: &[u8]) -> Result<(), Fault>
        ensures same { holds self.new ≡ holds self.old }
        ensures outcome { (result, image self.new)
            ≡ write_outcome (holds self.old) (image self.old) offset bytes.now }
        ensures past { KeepsPast past self.old self.new
            (reach result (offset + length bytes.now)) };

    /// Puts zeros into the image, from `offset` on.
    fn zero(&mut self, offset: u64, length: u64) -> Result<(), Fault>
        ensures same { holds self.new ≡ holds self.old }
        ensures outcome { (result, image self.new)
            ≡ zero_outcome (holds self.old) (image self.old) offset length }
        ensures past { KeepsPast past self.old self.new (reach result (offset + length)) };

    /// Cuts the end of the image off, or adds zeros.
    fn resize(&mut self, size: u64) -> Result<(), Fault>
        ensures same { holds self.new ≡ holds self.old }
        ensures outcome { (result, image self.new)
            ≡ resize_outcome (holds self.old) (image self.old) size }
        ensures past { KeepsPast past self.old self.new (reach result size) };
}
