ghost use Rattle.std.specs.Prelude.{◌≡◌, ◌+◌, ◌*◌, ◌<◌, if◌then◌else◌};
ghost use Rattle.std.specs.Prelude.{length, replicate, nat_le};
ghost use Rattle.store.specs.Images.{part, image_with};
ghost use Rattle.paged.specs.Pages.{pages_met, paged_set, paged_rest, Valid};
ghost use Rattle.paged.specs.State.{places_of, pool_of, all_of, blank_after, filled_after};
ghost use Rattle.paged.specs.State.{paging_rest, SoundIn, KeptBy, Becomes, PutAt, InPages, InPage};
ghost use Rattle.paged.specs.State.{SameOncePut, ReadyFor, RoomAfter, RoomAlong};

use crate::pages::paging::{Paging, all_spare, clear_map};
use crate::pages::part::Part;
use crate::pages::zeros::all_zero;

mod paging;
mod part;
mod zeros;

/// The bytes of a page.
pub const PAGE: usize = 256;

/// The most map places that an image uses.
pub const PLACES: usize = 65536;

/// The most pool pages that an image uses. The map holds their numbers plus one.
pub const POOL: usize = 65535;

// Pages of zeros and other pages, where a place has a pool page exactly while its page has a
// non-zero byte.
#[derive(Drop)]
pub struct Pages<'a> {
    pub paging: Paging<'a>,
    ghost sound: { SoundIn paging },
}

impl<'a> Pages<'a> {
    // Pages of zeros at every place.
    pub(crate) fn empty(map: &'a mut [u32], pool: &'a mut [u8]) -> Pages<'a>
        ensures valid { Valid result.paging.map.now result.paging.pool.now result.paging.used 0 }
        ensures same { paged_set result.paging.map.now result.paging.pool.now
            ≡ paged_set map.old pool.old }
        ensures map_lender { result.paging.map.ghost_name ≡ map.entry.ghost_name }
        ensures pool_lender { result.paging.pool.ghost_name ≡ pool.entry.ghost_name }
        ensures pool { result.paging.pool.now ≡ pool.old }
        ensures past { paging_rest result.paging
            ≡ paged_rest map.entry.ghost_name pool.entry.ghost_name map.old pool.old }
    {
        clear_map(map);
        let paging = Paging {
            map,
            pool,
            spare: all_spare(),
            used: 0,
        };
        Pages { paging }
    }

    // Fills the buffer from the page of place i.
    fn get(&self, i: usize, from: usize, buf: &mut [u8])
        requires here { InPage self.now.paging i from (length buf.old) }
        ensures { buf.new ≡ part (all_of self.now.paging) (PAGE * i + from) (length buf.old) }
    {
        let Some(k) = self.paging.page(i) else {
            buf.fill(0);
            return;
        };
        let at = PAGE * k + from;
        let end = at + buf.len();
        buf.copy_from_slice(&self.paging.pool[at..end]);
    }

    // Leaves only zeros in the page of place i, in constant time: its bytes are not read.
    fn clear(&mut self, i: usize)
        requires here { i < places_of self.old.paging }
        ensures { PutAt self.old.paging self.new.paging (PAGE * i) (replicate PAGE 0) }
    {
        let Some(k) = self.paging.page(i) else {
            return;
        };
        self.paging.release(i, k);
    }

    // Whether the page of place i would have only zeros with these bytes in it.
    fn blank_with(&self, i: usize, from: usize, bytes: &[u8]) -> bool
        requires here { InPage self.now.paging i from (length bytes.now) }
        ensures { result ≡ blank_after self.now.paging i from bytes.now }
    {
        if !all_zero(bytes) {
            return false;
        }
        let Some(k) = self.paging.page(i) else {
            return true;
        };
        let page = &self.paging.pool[PAGE * k..PAGE * k + PAGE];
        if !all_zero(&page[..from]) {
            return false;
        }
        all_zero(&page[from + bytes.len()..])
    }

    // Puts bytes into the page of place i, which has a pool page exactly while it has a non-zero
    // byte.
    fn put(&mut self, i: usize, from: usize, bytes: &[u8])
        requires here { InPage self.old.paging i from (length bytes.now) }
        requires room { RoomAfter self.old.paging (PAGE * i + from) bytes.now }
        ensures { PutAt self.old.paging self.new.paging (PAGE * i + from) bytes.now }
    {
        if self.blank_with(i, from, bytes) {
            self.clear(i);
            return;
        }
        self.paging.store(i, from, bytes);
    }

    // Leaves only zeros in the page of place i if it would have only zeros with these bytes in it.
    // Else the page stays as it is.
    fn clear_blank(&mut self, i: usize, from: usize, bytes: &[u8])
        requires here { InPage self.old.paging i from (length bytes.now) }
        ensures { Becomes self.old.paging self.new.paging
            (if blank_after self.old.paging i from bytes.now
            then image_with (all_of self.old.paging) (PAGE * i + from) bytes.now
            else all_of self.old.paging) }
    {
        if self.paging.page(i).is_none() {
            return;
        }
        if !self.blank_with(i, from, bytes) {
            return;
        }
        self.clear(i);
    }

    // Puts zeros into the page of place i. Only a page that is not zeroed whole is looked at.
    fn put_zeros(&mut self, i: usize, from: usize, count: usize)
        requires here { InPage self.old.paging i from count }
        ensures { PutAt self.old.paging self.new.paging (PAGE * i + from) (replicate count 0) }
    {
        if count == PAGE {
            self.clear(i);
            return;
        }
        let zeros = [0; PAGE];
        self.put(i, from, &zeros[..count]);
    }

    // Fills the buffer with the bytes from an offset on.
    pub(crate) fn read_range(&self, offset: usize, buf: &mut [u8])
        requires inside { InPages self.now.paging offset (length buf.old) }
        ensures { buf.new ≡ part (all_of self.now.paging) offset (length buf.old) }
    {
        for i in offset / PAGE..(offset + buf.len()).div_ceil(PAGE) {
            let part = Part::of(offset, buf.len(), i);
            self.get(i, part.from, &mut buf[part.start..part.end]);
        }
    }

    // Puts zeros into a range.
    pub(crate) fn zero_range(&mut self, offset: usize, count: usize)
        requires inside { InPages self.old.paging offset count }
        ensures { PutAt self.old.paging self.new.paging offset (replicate count 0) }
    {
        for i in offset / PAGE..(offset + count).div_ceil(PAGE) {
            let part = Part::of(offset, count, i);
            self.put_zeros(i, part.from, part.end - part.start);
        }
    }

    // Gives back the pool pages of those pages that would have only zeros with these bytes in the
    // range. It stays a call: inlined in a write, it takes registers from the loop that puts bytes,
    // and a small write takes longer.
    #[inline(never)]
    fn clear_blanks(&mut self, offset: usize, bytes: &[u8])
        requires inside { InPages self.old.paging offset (length bytes.now) }
        ensures kept { KeptBy self.old.paging self.new.paging }
        ensures same { SameOncePut self.old.paging self.new.paging offset bytes.now }
        ensures ready { ReadyFor self.new.paging offset bytes.now }
    {
        for i in offset / PAGE..(offset + bytes.len()).div_ceil(PAGE) {
            let part = Part::of(offset, bytes.len(), i);
            self.clear_blank(i, part.from, &bytes[part.start..part.end]);
        }
    }

    // Puts bytes into a range, page by page, where the pool has room after each page.
    fn put_range(&mut self, offset: usize, bytes: &[u8])
        requires inside { InPages self.old.paging offset (length bytes.now) }
        requires room { RoomAlong self.old.paging offset bytes.now }
        ensures { PutAt self.old.paging self.new.paging offset bytes.now }
    {
        for i in offset / PAGE..(offset + bytes.len()).div_ceil(PAGE) {
            let part = Part::of(offset, bytes.len(), i);
            self.put(i, part.from, &bytes[part.start..part.end]);
        }
    }

    // Whether the pool has a spare page for each page that a range meets. Then there is room,
    // whatever the bytes are, and no page needs to be looked at.
    fn has_spare(&self, offset: usize, count: usize) -> bool
        requires inside { InPages self.now.paging offset count }
        ensures { result
            ≡ nat_le (self.now.paging.used + pages_met offset count) (pool_of self.now.paging) }
    {
        let met = (offset + count).div_ceil(PAGE) - offset / PAGE;
        self.paging.used + met <= self.paging.pool_pages()
    }

    // Makes room for bytes whose result has no more filled pages than the pool has. Where the pool
    // may run short on the way, pages that become blank are given back first.
    fn make_room(&mut self, offset: usize, bytes: &[u8])
        requires inside { InPages self.old.paging offset (length bytes.now) }
        requires room { RoomAfter self.old.paging offset bytes.now }
        ensures kept { KeptBy self.old.paging self.new.paging }
        ensures same { SameOncePut self.old.paging self.new.paging offset bytes.now }
        ensures room { RoomAlong self.new.paging offset bytes.now }
    {
        if self.has_spare(offset, bytes.len()) {
            return;
        }
        self.clear_blanks(offset, bytes);
    }

    // Puts bytes into a range whose result has no more filled pages than the pool has.
    pub(crate) fn write_range(&mut self, offset: usize, bytes: &[u8])
        requires inside { InPages self.old.paging offset (length bytes.now) }
        requires room { RoomAfter self.old.paging offset bytes.now }
        ensures { PutAt self.old.paging self.new.paging offset bytes.now }
    {
        self.make_room(offset, bytes);
        self.put_range(offset, bytes);
    }

    // How many filled pages there would be with these bytes in the range. It stays a call, as
    // `clear_blanks` does.
    #[inline(never)]
    fn filled_with(&self, offset: usize, bytes: &[u8]) -> usize
        requires inside { InPages self.now.paging offset (length bytes.now) }
        ensures { result ≡ filled_after self.now.paging offset bytes.now }
    {
        let mut count = self.paging.used;
        for i in offset / PAGE..(offset + bytes.len()).div_ceil(PAGE) {
            let part = Part::of(offset, bytes.len(), i);
            let blank = self.blank_with(i, part.from, &bytes[part.start..part.end]);
            count = count + usize::from(!blank) - usize::from(self.paging.page(i).is_some());
        }
        count
    }

    // Whether the pool has a page for each page that would be filled with these bytes in the range.
    pub(crate) fn has_room(&self, offset: usize, bytes: &[u8]) -> bool
        requires inside { InPages self.now.paging offset (length bytes.now) }
        ensures { result
            ≡ nat_le (filled_after self.now.paging offset bytes.now) (pool_of self.now.paging) }
    {
        if self.has_spare(offset, bytes.len()) {
            return true;
        }
        self.filled_with(offset, bytes) <= self.paging.pool_pages()
    }
}
