ghost use Rattle.std.specs.Prelude.{◌≡◌, ◌+◌, ◌-◌, ◌<◌, ◌≤◌};
ghost use Rattle.std.specs.Prelude.{min, take, length, replicate, MatchResult};
ghost use Rattle.fault.specs.Fault.{fault};
ghost use Rattle.fault.specs.declared.cause.Cause.TheVariants.{Outside};
ghost use Rattle.store.specs.Images.{image_with};
ghost use Rattle.store.specs.Memory.{MemoryRest, flat_room, flat_set};

use crate::contract::{LIMIT, Store};
use crate::range::check_range;
use fault::{Cause, Fault};
use std::mem;
use std::ops::Range;

/// An image in one piece of lent memory: its first `size` bytes.
pub struct FlatImage<'a> {
    bytes: &'a mut [u8],
    size: u64,
    ghost fits: { size ≤ flat_room bytes.now },
}

// An image that is let go leaves the lent memory as it is.
impl Drop for FlatImage<'_> {
    fn drop(self)
        ensures { self.exit.0.now ≡ self.entry.bytes.now }
    {
        let FlatImage { bytes: _, size: _ } = self;
    }
}

// The largest size of an image in memory of a length.
fn room(length: usize) -> u64
    ensures { result ≡ min length LIMIT }
{
    (length as u64).min(LIMIT)
}

// Puts zeros at a range of places.
fn clear(memory: &mut [u8], places: Range<usize>)
    requires { (places.start ≤ places.end) × (places.end ≤ length memory.old) }
    ensures { memory.new
        ≡ image_with memory.old places.start (replicate (places.end - places.start) 0) }
{
    memory[places].fill(0);
}

impl<'a> FlatImage<'a> {
    ghost use Rattle.store.specs.Flat.{flat_memory, flat_image, flat_holds};

    /// The image that the memory's first bytes are. A size that the memory does not hold becomes
    /// the largest that it does.
    pub fn open(bytes: &'a mut [u8], size: u64) -> FlatImage<'a>
        ensures lender { result.bytes.ghost_name ≡ bytes.entry.ghost_name }
        ensures memory { flat_memory result ≡ bytes.old }
        ensures image { flat_image result ≡ take (min size (flat_room bytes.old)) bytes.old }
        ensures holds { flat_holds result ≡ flat_set bytes.old }
    {
        let size = size.min(room(bytes.len()));
        FlatImage { bytes, size }
    }

    /// Gives the memory back.
    pub fn close(mut self) -> &'a mut [u8]
        ensures lender { result.ghost_name ≡ self.entry.bytes.ghost_name }
        ensures memory { result.now ≡ flat_memory self.entry }
    {
        // A value with an `impl Drop` cannot be taken apart.
        self.size = 0;
        let whole = &mut self;
        mem::take(&mut whole.bytes)
    }

    // The places of a range in the memory. Refuses a range that does not end inside the image.
    fn places(&self, offset: u64, length: u64) -> Result<Range<usize>, Fault>
        ensures { MatchResult result
            (λ r. (r.start ≡ offset) × (r.end ≡ offset + length) × (r.end ≤ self.now.size))
            (λ f. (self.now.size < offset + length) × (f ≡ fault Outside offset)) }
    {
        check_range(offset, length, self.size)?;
        Ok(offset as usize..(offset + length) as usize)
    }
}

impl<'a> Store for FlatImage<'a> {
    ghost use Rattle.store.specs.Flat.{flat_image, flat_holds, flat_past, flat_laws};

    ghost image = { flat_image };

    ghost holds = { flat_holds };

    ghost Rest = { MemoryRest };

    ghost past = { flat_past };

    ghost laws = { flat_laws };

    fn size(&self) -> u64 {
        self.size
    }

    #[tactic(auto, using(crate::proofs::MemoryChanges::changes))]
    fn read(&self, offset: u64, buf: &mut [u8]) -> Result<(), Fault> {
        let places = self.places(offset, buf.len() as u64)?;
        buf.copy_from_slice(&self.bytes[places]);
        Ok(())
    }

    #[tactic(auto, using(crate::proofs::MemoryChanges::changes))]
    fn write(&mut self, offset: u64, bytes: &[u8]) -> Result<(), Fault> {
        let places = self.places(offset, bytes.len() as u64)?;
        self.bytes[places].copy_from_slice(bytes);
        Ok(())
    }

    #[tactic(auto, using(crate::proofs::MemoryChanges::changes))]
    fn zero(&mut self, offset: u64, length: u64) -> Result<(), Fault> {
        let places = self.places(offset, length)?;
        clear(self.bytes, places);
        Ok(())
    }

    #[tactic(auto, using(crate::proofs::MemoryChanges::changes))]
    fn resize(&mut self, size: u64) -> Result<(), Fault> {
        if size > room(self.bytes.len()) {
            return Err(Fault::new(Cause::NoRoom, size));
        }
        // Growth writes zeros from the old size on; a cut clears nothing.
        let from = size.min(self.size);
        clear(self.bytes, from as usize..size as usize);
        self.size = size;
        Ok(())
    }
}
