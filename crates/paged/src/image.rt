ghost use Rattle.std.specs.Prelude.{◌≡◌, ◌+◌, ◌*◌, ◌≤◌};
ghost use Rattle.std.specs.Prelude.{[], length, replicate, Ok, IsTrue};
ghost use Rattle.store.specs.Images.{image_with, image_of_size};
ghost use Rattle.store.specs.Stores.{KeepsPast, reach, write_outcome, zero_outcome, resize_outcome};
ghost use Rattle.paged.specs.Pages.{places, paged_set, filled_pages, paged_rest, PagedRest};
ghost use Rattle.paged.specs.Pages.{Valid, ZeroFrom};
ghost use Rattle.paged.specs.State.{paging_rest, KeptBy, RoomAfter};

use crate::pages::{PAGE, Pages};
use fault::{Cause, Fault};
use std::mem;
use store::{Store, check_range};

/// An image in pages of 256 bytes, with a pool page for each page that has a non-zero byte.
#[derive(Drop)]
pub struct PagedImage<'a> {
    pages: Pages<'a>,
    size: u64,
    ghost valid: { Valid pages.paging.map.now pages.paging.pool.now pages.paging.used size },
}

impl<'a> PagedImage<'a> {
    ghost use Rattle.paged.specs.Paged.{paged_image, paged_holds, PastZero};

    /// An image of size 0 over a map and a pool.
    pub fn open(map: &'a mut [u32], pool: &'a mut [u8]) -> PagedImage<'a>
        ensures image { paged_image result ≡ [] }
        ensures holds { paged_holds result ≡ paged_set map.old pool.old }
        ensures map_lender { result.pages.paging.map.ghost_name ≡ map.entry.ghost_name }
        ensures pool_lender { result.pages.paging.pool.ghost_name ≡ pool.entry.ghost_name }
        ensures pool { result.pages.paging.pool.now ≡ pool.old }
        ensures past { paging_rest result.pages.paging
            ≡ paged_rest map.entry.ghost_name pool.entry.ghost_name map.old pool.old }
        ensures zero { PastZero result }
    {
        PagedImage {
            pages: Pages::empty(map, pool),
            size: 0,
        }
    }

    /// Gives the map and the pool back, with what they hold.
    pub fn close(self) -> (&'a mut [u32], &'a mut [u8])
        ensures map_lender { result.0.ghost_name ≡ self.entry.pages.paging.map.ghost_name }
        ensures pool_lender { result.1.ghost_name ≡ self.entry.pages.paging.pool.ghost_name }
        ensures map { result.0.now ≡ self.entry.pages.paging.map.now }
        ensures pool { result.1.now ≡ self.entry.pages.paging.pool.now }
    {
        let PagedImage { pages, size: _ } = self;
        let Pages { mut paging } = pages;
        // A value with an `impl Drop` cannot be taken apart.
        let whole = &mut paging;
        let map = mem::take(&mut whole.map);
        let pool = mem::take(&mut whole.pool);
        (map, pool)
    }

    /// The pool pages in use: one for each page of the image with a non-zero byte.
    pub fn used_pages(&self) -> u64
        ensures { result ≡ filled_pages (paged_image self.now) }
    {
        self.pages.paging.used as u64
    }

    // Whether the pool has a page for each page that has a non-zero byte once these bytes are put.
    #[tactic(auto, using(crate::proofs::ImagePages::held_put))]
    fn has_room(&self, offset: u64, bytes: &[u8]) -> bool
        requires { offset + length bytes.now ≤ self.now.size }
        ensures held { result
            ≡ paged_holds self.now (image_with (paged_image self.now) offset bytes.now) }
        ensures room { IsTrue result → RoomAfter self.now.pages.paging offset bytes.now }
    {
        self.pages.has_room(offset as usize, bytes)
    }

    // Puts bytes that there is room for.
    fn put(&mut self, offset: u64, bytes: &[u8])
        requires inside { offset + length bytes.now ≤ self.old.size }
        requires room { RoomAfter self.old.pages.paging offset bytes.now }
        ensures same { paged_holds self.new ≡ paged_holds self.old }
        ensures image { paged_image self.new ≡ image_with (paged_image self.old) offset bytes.now }
        ensures kept { KeptBy self.old.pages.paging self.new.pages.paging }
    {
        self.pages.write_range(offset as usize, bytes);
    }

    // Puts zeros. There is always room for them.
    fn clear(&mut self, offset: u64, count: u64)
        requires { offset + count ≤ self.old.size }
        ensures same { paged_holds self.new ≡ paged_holds self.old }
        ensures outcome { (Ok tt, paged_image self.new)
            ≡ zero_outcome (paged_holds self.old) (paged_image self.old) offset count }
        ensures image { paged_image self.new
            ≡ image_with (paged_image self.old) offset (replicate count 0) }
        ensures kept { KeptBy self.old.pages.paging self.new.pages.paging }
    {
        self.pages.zero_range(offset as usize, count as usize);
    }

    // Another size for an image that has zeros from there on.
    fn set_size(&mut self, size: u64)
        requires room { size ≤ PAGE * places self.old.pages.paging.map.now }
        requires clear { ZeroFrom size (paged_image self.old) }
        ensures same { paged_holds self.new ≡ paged_holds self.old }
        ensures image { paged_image self.new ≡ image_of_size (paged_image self.old) size }
        ensures kept { KeptBy self.old.pages.paging self.new.pages.paging }
    {
        self.size = size;
    }
}

impl<'a> Store for PagedImage<'a> {
    ghost use Rattle.paged.specs.Paged.{paged_image, paged_holds, paged_past, paged_laws};
    ghost use Rattle.paged.specs.Paged.{PastZero, RefusedSame};

    ghost image = { paged_image };

    ghost holds = { paged_holds };

    ghost Rest = { PagedRest };

    ghost past = { paged_past };

    ghost laws = { paged_laws };

    #[tactic(auto, using(store::proofs::ImageLaws::part_take))]
    fn read(&self, offset: u64, buf: &mut [u8]) -> Result<(), Fault> {
        check_range(offset, buf.len() as u64, self.size)?;
        self.pages.read_range(offset as usize, buf);
        Ok(())
    }

    fn write(&mut self, offset: u64, bytes: &[u8]) -> Result<(), Fault>
        ensures same { paged_holds self.new ≡ paged_holds self.old }
        ensures outcome { (result, paged_image self.new)
            ≡ write_outcome (paged_holds self.old) (paged_image self.old) offset bytes.now }
        ensures past { KeepsPast paged_past self.old self.new
            (reach result (offset + length bytes.now)) }
        ensures zero { PastZero self.new }
        ensures refused { RefusedSame result self.old self.new }
    {
        check_range(offset, bytes.len() as u64, self.size)?;
        // The result decides: a page that the write blanks makes room for one that it fills.
        if !self.has_room(offset, bytes) {
            return Err(Fault::new(Cause::NoRoom, offset));
        }
        self.put(offset, bytes);
        Ok(())
    }

    fn zero(&mut self, offset: u64, length: u64) -> Result<(), Fault>
        ensures same { paged_holds self.new ≡ paged_holds self.old }
        ensures outcome { (result, paged_image self.new)
            ≡ zero_outcome (paged_holds self.old) (paged_image self.old) offset length }
        ensures past { KeepsPast paged_past self.old self.new (reach result (offset + length)) }
        ensures zero { PastZero self.new }
        ensures refused { RefusedSame result self.old self.new }
    {
        check_range(offset, length, self.size)?;
        self.clear(offset, length);
        Ok(())
    }

    #[tactic(auto, using(crate::proofs::ImagePages::resizes))]
    fn resize(&mut self, size: u64) -> Result<(), Fault>
        ensures same { paged_holds self.new ≡ paged_holds self.old }
        ensures outcome { (result, paged_image self.new)
            ≡ resize_outcome (paged_holds self.old) (paged_image self.old) size }
        ensures past { KeepsPast paged_past self.old self.new (reach result size) }
        ensures zero { PastZero self.new }
        ensures refused { RefusedSame result self.old self.new }
    {
        // An image needs a map place for each of its pages.
        if size > (PAGE * self.pages.paging.map_places()) as u64 {
            return Err(Fault::new(Cause::NoRoom, size));
        }
        // A cut zeroes what it cuts off, so that growth finds zeros there.
        let start = self.size.min(size);
        self.clear(start, self.size - start);
        self.set_size(size);
        Ok(())
    }

    fn size(&self) -> u64 {
        self.size
    }
}
