// Series of calls on a shelf, made one after another.
ghost use Rattle.std.specs.Prelude.{◌≡◌, ℕ, List, length, Ok};
ghost use Rattle.replay.specs.Replays.{scene, request_outcome, setting, Replays, Replayed, largest_replay_size};
ghost use Rattle.shelf.specs.Outcomes.{outcome, done_count, make_answer};
ghost use Rattle.shelf.specs.Promise.{AlwaysComesBack};
ghost use Rattle.store.specs.Stores.{KeepsPast};

use crate::requests::Request;
use fault::Fault;
use shelf::{Shelf, laws_of_the_shelf};
use store::Store;

// The answer of a call that returns nothing, as one that returns a number.
fn done_count(r: Result<(), Fault>) -> Result<usize, Fault>
    ensures { result ≡ done_count r }
{
    r.map(|()| 0)
}

// Makes one call of a series. It gets the first bytes of the shelf's memory; a join and a list get
// their window of the buffer besides.
#[tactic(auto, using(std::proofs::lemmas::Grind::common_steps, crate::proofs::Windows::handed_is, crate::proofs::Windows::beyond_is, crate::proofs::Windows::window_is, crate::proofs::Windows::with_is))]
fn make_call<S: Store>(
    shelf: &mut Shelf,
    base: &mut S,
    bytes: &mut [u8],
    buffer: &mut [u8],
    request: Request,
) -> Result<usize, Fault>
    ensures same { S.holds base.new ≡ S.holds base.old }
    ensures outcome { record (outcome result shelf.new bytes.new) {
      image = S.image base.new;
      buffer = buffer.new;
    }
        ≡ request_outcome (S.holds base.old)
        (scene shelf.old bytes.old (S.image base.old) buffer.old) request.entry }
    ensures past { KeepsPast S.past base.old base.new (length (S.image base.new)) }
{
    let length = bytes.len();
    let room = buffer.len();
    match request {
        Request::Put { handed, stream } => {
            done_count(shelf.put(&mut bytes[0..handed.min(length)], stream))
        }
        Request::Join {
            handed,
            entry,
            work,
        } => {
            let places = work.within(room);
            shelf.join(
                &mut bytes[0..handed.min(length)],
                entry,
                &mut buffer[places],
            )
        }
        Request::Settle { handed } => {
            done_count(shelf.settle(&mut bytes[0..handed.min(length)], base))
        }
        Request::List {
            handed,
            entry,
            text,
        } => {
            let places = text.within(room);
            shelf.list(&bytes[0..handed.min(length)], entry, &mut buffer[places])
        }
    }
}

// Makes a series of calls on a shelf that was made for it, as many as there are places for answers.
fn play<S: Store>(
    shelf: &mut Shelf,
    base: &mut S,
    bytes: &mut [u8],
    buffer: &mut [u8],
    requests: &[Request],
    answers: &mut [Result<usize, Fault>],
)
    ensures same { S.holds base.new ≡ S.holds base.old }
    ensures past { (name : List ℕ) → Ok shelf.old ≡ make_answer name
        → KeepsPast S.past base.old base.new (largest_replay_size (S.holds base.old) name requests.now
        (setting bytes.old (S.image base.old) buffer.old answers.old)) }
    ensures replays { (name : List ℕ) → Ok shelf.old ≡ make_answer name
        → Replays (S.holds base.old) name requests.now shelf.new
        (setting bytes.old (S.image base.old) buffer.old answers.old)
        (setting bytes.new (S.image base.new) buffer.new answers.new) }
{
    let count = requests.len().min(answers.len());
    for (i, request) in requests[..count].iter().enumerate() {
        // by its index, since a proof knows nothing of what a chain over `iter_mut` wrote
        answers[i] = make_call(shelf, base, bytes, buffer, *request);
    }
}

/// Makes an empty shelf beside a base image at the snapshot `name`, and then a series of calls on
/// it: one for each request, as many as there are places for answers. Each answer is written to its
/// place, 0 for a put or a settle that was done; the shelf is returned. Refused: a bad name, and
/// then nothing is done.
///
/// `Replayed` says what each call did, and of this run all that the shelf promises: the base image
/// comes back, each entry is the canonical join of its stretch, lists show its overlay. `always`
/// says it of every store, first image and series.
pub fn replay<S: Store>(
    name: &[u8],
    base: &mut S,
    bytes: &mut [u8],
    buffer: &mut [u8],
    requests: &[Request],
    answers: &mut [Result<usize, Fault>],
) -> Result<Shelf, Fault>
    ensures same { S.holds base.new ≡ S.holds base.old }
    ensures replayed { Replayed (S.holds base.old) name.now requests.now result
        (setting bytes.old (S.image base.old) buffer.old answers.old)
        (setting bytes.new (S.image base.new) buffer.new answers.new) }
    // Past the largest image that there is after any of the calls, the store's memory is as it was.
    ensures past { KeepsPast S.past base.old base.new
        (largest_replay_size (S.holds base.old) name.now requests.now
        (setting bytes.old (S.image base.old) buffer.old answers.old)) }
    ensures always { AlwaysComesBack }
{
    laws_of_the_shelf();
    let mut shelf = Shelf::new(name)?;
    play(&mut shelf, base, bytes, buffer, requests, answers);
    Ok(shelf)
}
