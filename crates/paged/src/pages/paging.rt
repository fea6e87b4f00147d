ghost use Rattle.std.specs.Prelude.{◌≡◌, ℕ, ◌+◌, ◌*◌, ◌<◌};
ghost use Rattle.std.specs.Prelude.{false, length, drop, replicate, slice_index, MatchOption};
ghost use Rattle.paged.specs.Pages.{places};

use crate::pages::{PAGE, PLACES, POOL};
use std::array;

// Zeros at every map place that an image uses.
pub(super) fn clear_map(map: &mut [u32])
    ensures len { length map.new ≡ length map.old }
    ensures clear { (i : ℕ) → i < places map.new → slice_index map.new i ≡ 0 }
    ensures rest { drop PLACES map.new ≡ drop PLACES map.old }
{
    let places = map.len().min(PLACES);
    map[..places].fill(0);
}

// The numbers of all pool pages: none is in use.
pub(super) fn all_spare() -> [u16; POOL]
    ensures { (k : ℕ) → k < POOL → slice_index result k ≡ k }
{
    array::from_fn(|k| k as u16)
}

// The map and the pool. The numbers of the pool pages that no place has stand in `spare`, from
// `used` up to the number of pool pages; `used` pages are in use.
//
// That all this is sound is a fact of the type `Pages` around it. A step breaks it for a moment: a
// page that changes hands is a place's and spare at once.
pub struct Paging<'a> {
    pub map: &'a mut [u32],
    pub pool: &'a mut [u8],
    pub spare: [u16; POOL],
    pub used: usize,
}

// What is let go leaves the lent memory as it is.
impl Drop for Paging<'_> {
    fn drop(self)
        ensures map { self.exit.0.now ≡ self.entry.map.now }
        ensures pool { self.exit.1.0.now ≡ self.entry.pool.now }
    {
        let Paging {
            map: _,
            pool: _,
            spare: _,
            used: _,
        } = self;
    }
}

impl<'a> Paging<'a> {
    ghost use Rattle.paged.specs.State.{places_of, pool_of, value_of, blank_after};
    ghost use Rattle.paged.specs.State.{SoundIn, PutAt, InPage, RoomAfter};

    // The map places that may be used.
    pub(crate) fn map_places(&self) -> usize
        ensures { result ≡ places_of self.now }
    {
        self.map.len().min(PLACES)
    }

    // The pool pages that may be used.
    pub(crate) fn pool_pages(&self) -> usize
        ensures { result ≡ pool_of self.now }
    {
        (self.pool.len() / PAGE).min(POOL)
    }

    // The pool page of place i, if it has one: the map holds 0 for none, and k + 1 for page k.
    pub(super) fn page(&self, i: usize) -> Option<usize>
        requires { i < places_of self.now }
        ensures { MatchOption result (value_of self.now i ≡ 0) (λ k. value_of self.now i ≡ k + 1) }
    {
        (self.map[i] as usize).checked_sub(1)
    }

    // Gives place i, which has none, a pool page with these bytes, not all zeros, and zeros around
    // them.
    fn claim(&mut self, i: usize, from: usize, bytes: &[u8])
        requires here { InPage self.old i from (length bytes.now) }
        requires none { value_of self.old i ≡ 0 }
        requires filled { blank_after self.old i from bytes.now ≡ false }
        requires room { self.old.used < pool_of self.old }
        requires sound { SoundIn self.old }
        ensures sound { SoundIn self.new }
        ensures pages { PutAt self.old self.new (PAGE * i + from) bytes.now }
    {
        let k = self.spare[self.used] as usize;
        self.pool[PAGE * k..PAGE * k + PAGE].fill(0);
        let at = PAGE * k + from;
        let end = at + bytes.len();
        self.pool[at..end].copy_from_slice(bytes);
        self.map[i] = (k + 1) as u32;
        self.used += 1;
    }

    // Puts bytes into the page of place i, which is to have a non-zero byte.
    pub(super) fn store(&mut self, i: usize, from: usize, bytes: &[u8])
        requires here { InPage self.old i from (length bytes.now) }
        requires filled { blank_after self.old i from bytes.now ≡ false }
        requires room { RoomAfter self.old (PAGE * i + from) bytes.now }
        requires sound { SoundIn self.old }
        ensures sound { SoundIn self.new }
        ensures pages { PutAt self.old self.new (PAGE * i + from) bytes.now }
    {
        let Some(k) = self.page(i) else {
            self.claim(i, from, bytes);
            return;
        };
        let at = PAGE * k + from;
        let end = at + bytes.len();
        self.pool[at..end].copy_from_slice(bytes);
    }

    // Takes pool page k of place i back: zeros are left there.
    pub(super) fn release(&mut self, i: usize, k: usize)
        requires here { (i < places_of self.old) × (value_of self.old i ≡ k + 1) }
        requires sound { SoundIn self.old }
        ensures sound { SoundIn self.new }
        ensures pages { PutAt self.old self.new (PAGE * i) (replicate PAGE 0) }
    {
        self.used -= 1;
        self.spare[self.used] = k as u16;
        self.map[i] = 0;
    }
}
