ghost use Rattle.std.specs.Prelude.{◌≡◌, IfOk, replicate};
ghost use Rattle.store.specs.Flat.{flat_image, flat_holds};
ghost use Rattle.store.specs.Memory.{flat_set};

use crate::images::fill;
use std::alloc::{AllocError, Global};
use store::FlatImage;

/// The memory of a flat image. Every byte of it is AA before the image is opened.
#[derive(Drop)]
pub struct Memory {
    bytes: Vec<u8>,
}

impl Memory {
    /// Memory of a length.
    pub fn new(heap: Global, room: usize) -> Result<Memory, AllocError>
        ensures { IfOk result (λ memory. memory.bytes.items ≡ replicate room 170) }
    {
        let bytes = vec![in heap; 0xaau8; room]?;
        Ok(Memory { bytes })
    }

    /// A flat image over all of the memory, with these bytes.
    pub fn open(&mut self, first: &[u8]) -> anyhow::Result<FlatImage<'_>>
        ensures image { IfOk result (λ image. flat_image image ≡ first.now) }
        ensures holds { IfOk result (λ image. flat_holds image ≡ flat_set self.old.bytes.items) }
    {
        let mut flat = FlatImage::open(&mut self.bytes, 0);
        fill(&mut flat, first)?;
        Ok(flat)
    }
}
