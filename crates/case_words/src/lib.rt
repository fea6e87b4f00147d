// What a line of a case is made of: bytes as hexadecimal words, the answer of a call, and the image
// that the call works on.
#![tactic(auto)]

ghost use Rattle.std.specs.Prelude.{◌≡◌, ◌<◌, IfOk, IfSome, string_bytes};
ghost use Rattle.case_words.specs.Digits.{digit_of};
ghost use Rattle.case_words.specs.Numbers.{numbers_of, answer_text};
ghost use Rattle.case_words.specs.Spelling.{digits_of, pairs_in, word_of};

use anyhow::anyhow;
use fault::Fault;
use std::alloc::Global;
use std::fmt::Display;

mod images;
mod memory;
mod pages;
#[cfg(test)]
mod tests;

pub use images::{Room, contents};
pub use memory::Memory;
pub use pages::Pages;

/// The first six words of a line. A word that is missing is empty, and those after the sixth are
/// left out. A test says so and no clause, since nothing is known about the results of a closure
/// that takes the next item of an iterator.
// Six words also where a step has four: with the number as a const parameter, the check of
// references covers no array of them.
pub fn words_of(line: &str) -> [&str; 6] {
    let mut words = line.split(' ');
    [(); 6].map(|()| words.next().unwrap_or(""))
}

// The value of a hexadecimal digit. Words are not read by `hex::decode`, which also takes upper
// case and refuses an odd length.
fn digit(b: u8) -> anyhow::Result<u8>
    ensures below { IfOk result (λ n. n < 16) }
    ensures value { IfOk result (λ n. digit_of n ≡ b) }
{
    match b {
        b'0'..=b'9' => Ok(b - b'0'),
        b'a'..=b'f' => Ok(b - b'a' + 10),
        _ => Err(anyhow!("no hexadecimal digit")),
    }
}

/// The bytes of a word. A last character without a second is left out, as the `-` that stands for
/// no bytes.
#[tactic(auto, using(crate::proofs::HexDigits::pairs))]
pub fn decoded(heap: Global, word: &str) -> anyhow::Result<Vec<u8>>
    ensures { IfOk result (λ bytes. digits_of bytes.items ≡ pairs_in word.now) }
{
    let (pairs, _) = word.as_bytes().as_chunks::<2>();
    let mut bytes = Vec::new(heap);
    for [high, low] in pairs {
        bytes.push(16 * digit(*high)? + digit(*low)?)?;
    }
    Ok(bytes)
}

/// Bytes as a word.
#[tactic(auto, using(crate::proofs::HexDigits::spelled, crate::proofs::HexDigits::word_some))]
pub fn encoded(heap: Global, bytes: &[u8]) -> anyhow::Result<String>
    ensures { IfOk result (λ word. string_bytes word ≡ word_of bytes.now) }
{
    if bytes.is_empty() {
        return Ok(String::from_str(heap, "-")?);
    }
    Ok(hex::encode(heap, bytes)?)
}

/// The five numbers of a fault, in decimal, single spaces between. The `Display` of a fault prints
/// words too.
pub fn numbers(heap: Global, fault: Fault) -> anyhow::Result<String>
    ensures { IfOk result (λ text. string_bytes text ≡ numbers_of fault) }
{
    let cause = fault.cause.number();
    let layer = fault.layer.number();
    let place = fault.place;
    let record = fault.record;
    let entry = fault.entry;
    Ok(format!(in heap; "{cause} {layer} {place} {record} {entry}")?)
}

/// The answer of a call as text: its value, or the five numbers of its fault.
pub fn answer_text<T: Display + Drop>(
    heap: Global,
    answer: Result<T, Fault>,
) -> anyhow::Result<String>
    ensures { IfOk result
        (λ text. IfSome (answer_text T.output answer) (λ bytes. string_bytes text ≡ bytes)) }
{
    match answer {
        Ok(x) => Ok(x.to_string(heap)?),
        Err(fault) => numbers(heap, fault),
    }
}
