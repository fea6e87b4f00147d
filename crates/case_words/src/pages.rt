ghost use Rattle.std.specs.Prelude.{◌≡◌, ◌*◌, IfOk, min, replicate};
ghost use Rattle.paged.specs.Pages.{paged_set};
ghost use Rattle.paged.specs.Paged.{paged_image, paged_holds};

use crate::images::fill;
use paged::{PLACES, POOL, PagedImage};
use std::alloc::{AllocError, Global};

/// The map and the pool of a paged image. Every byte of the pool is AA before the image is opened.
#[derive(Drop)]
pub struct Pages {
    map: Vec<u32>,
    pool: Vec<u8>,
}

impl Pages {
    /// A map with a number of places, 65536 at most, and a pool with a number of pages, 65535 at
    /// most.
    pub fn new(heap: Global, places: usize, pages: usize) -> Result<Pages, AllocError>
        ensures map { IfOk result (λ room. room.map.items ≡ replicate (min places PLACES) 0) }
        ensures pool { IfOk result
            (λ room. room.pool.items ≡ replicate (min pages POOL * 256) 170) }
    {
        let map = vec![in heap; 0u32; places.min(PLACES)]?;
        let pool = vec![in heap; 0xaau8; pages.min(POOL) * 256]?;
        Ok(Pages { map, pool })
    }

    /// A paged image over all of the map and the pool, with these bytes.
    pub fn open(&mut self, first: &[u8]) -> anyhow::Result<PagedImage<'_>>
        ensures image { IfOk result (λ image. paged_image image ≡ first.now) }
        ensures holds { IfOk result
            (λ image. paged_holds image ≡ paged_set self.old.map.items self.old.pool.items) }
    {
        let mut paged = PagedImage::open(&mut self.map, &mut self.pool);
        fill(&mut paged, first)?;
        Ok(paged)
    }
}
