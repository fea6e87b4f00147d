ghost use Rattle.std.specs.Prelude.{◌+◌, ◌≤◌, length};

use paged::PagedImage;
use store::{FlatImage, Store};

/// What a store is asked to do: to write the same bytes at each offset, and then to zero the whole
/// image and to cut it to nothing and let it grow again, where the flags are not 0. It is `struct
/// job` in bench/store.c, where a slice is a pointer and then a length.
#[repr(C)]
#[derive(Clone, Copy)]
pub struct Job<'a> {
    pub size: u64,
    pub bytes: &'a [u8],
    pub offsets: &'a [u64],
    pub zero: u64,
    pub grow: u64,
}

// A loop that counts: with `filter(..).count()` the measurement itself took a tenth of a small
// write more.
fn write_all<S: Store>(image: &mut S, bytes: &[u8], offsets: &[u64]) -> u64
    ensures { result ≤ length offsets.now }
{
    let mut accepted = 0;
    for offset in offsets {
        if image.write(*offset, bytes).is_ok() {
            accepted += 1;
        }
    }
    accepted
}

// Zeroes the whole image.
fn zero_all<S: Store>(image: &mut S) -> u64
    ensures { result ≤ 1 }
{
    let size = image.size();
    u64::from(image.zero(0, size).is_ok())
}

// Cuts the image to nothing and lets it grow again.
fn regrow<S: Store>(image: &mut S, size: u64) -> u64
    ensures { result ≤ 2 }
{
    u64::from(image.resize(0).is_ok()) + u64::from(image.resize(size).is_ok())
}

fn work<S: Store>(image: &mut S, job: Job) -> u64
    ensures { result ≤ length job.entry.offsets.now + 3 }
{
    let mut accepted = write_all(image, job.bytes, job.offsets);
    if job.zero != 0 {
        accepted += zero_all(image);
    }
    if job.grow != 0 {
        accepted += regrow(image, job.size);
    }
    accepted
}

/// Works on an image in one piece of memory, which has its size from the start.
#[unsafe(no_mangle)]
pub extern "C" fn bench_flat(memory: &mut [u8], job: &Job) -> u64
    ensures { result ≤ length job.now.offsets.now + 3 }
{
    let mut image = FlatImage::open(memory, job.size);
    work(&mut image, *job)
}

/// Works on an image in pages, which grows to its size first; 0 where it cannot.
#[unsafe(no_mangle)]
pub extern "C" fn bench_paged(map: &mut [u32], pool: &mut [u8], job: &Job) -> u64
    ensures { result ≤ length job.now.offsets.now + 3 }
{
    let mut image = PagedImage::open(map, pool);
    if image.resize(job.size).is_err() {
        return 0;
    }
    work(&mut image, *job)
}
