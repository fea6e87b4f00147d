ghost use Rattle.std.specs.Prelude.{◌+◌, ◌≤◌, length};

use shelf::Shelf;
use store::FlatImage;

// The part of the bytes from one place up to another; none where there is no such part.
fn part(bytes: &[u8], start: u64, end: u64) -> &[u8] {
    bytes.get(start as usize..end as usize).unwrap_or(&[])
}

// Puts streams that lie end to end; `ends` has the place where each ends.
fn put_all(shelf: &mut Shelf, bytes: &mut [u8], streams: &[u8], ends: &[u64]) -> u64
    ensures { result ≤ length ends.now }
{
    let mut accepted = 0;
    let mut start = 0;
    for end in ends {
        if shelf.put(bytes, part(streams, start, *end)).is_ok() {
            accepted += 1;
        }
        start = *end;
    }
    accepted
}

// Makes a call as often as `times` says, and counts how often it is accepted. (By a loop: for
// `filter` over a call that alters something, the check does not find that it counts at most
// `times`.)
fn accepted<F: FnMut() -> bool>(times: u64, mut call: F) -> u64
    requires { F.IsAlwaysCallable call }
    ensures { result ≤ times }
{
    let mut accepted = 0;
    for i in 0..times {
        if call() {
            accepted += 1;
        }
    }
    accepted
}

/// Puts streams on an empty shelf beside an empty flat image, and then lists, joins and settles
/// entry 0 as often as the numbers say. The streams lie end to end, and `ends` has the place where
/// each ends.
#[unsafe(no_mangle)]
pub extern "C" fn bench_shelf(
    streams: &[u8],
    ends: &[u64],
    bytes: &mut [u8],
    work: &mut [u8],
    memory: &mut [u8],
    lists: u64,
    joins: u64,
    settles: u64,
) -> u64
    ensures { result ≤ length ends.now + lists + joins + settles }
{
    let Ok(mut shelf) = Shelf::new(b"") else {
        return 0;
    };
    let mut base = FlatImage::open(memory, 0);
    let puts = put_all(&mut shelf, bytes, streams, ends);
    let listed = accepted(lists, || shelf.list(bytes, 0, work).is_ok());
    let joined = accepted(joins, || shelf.join(bytes, 0, work).is_ok());
    let settled = accepted(settles, || shelf.settle(bytes, &mut base).is_ok());
    puts.saturating_add(listed)
        .saturating_add(joined)
        .saturating_add(settled)
}
