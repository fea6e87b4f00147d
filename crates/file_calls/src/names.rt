ghost use Rattle.std.specs.Prelude.{◌≡◌, true, codes};
ghost use Rattle.std.specs.Str.{IsUtf8};
ghost use Rattle.stream.specs.Steps.{every_printable};
ghost use Rattle.file_calls.specs.Names.{name_text, name_of_word};

/// A snapshot's name as text, and `-` for the empty one, which is the name before the first
/// snapshot. Bytes that are no text give `?`; the names of a stream are printable, and so are text.
#[tactic(auto, using(crate::proofs::Printable::printable_text))]
pub fn name_text(name: &[u8]) -> &str
    ensures printable { every_printable name.now ≡ true → result.now ≡ name_text name.now }
    ensures text { IsUtf8 name.now → result.now ≡ name_text name.now }
    ensures other { (IsUtf8 name.now → ⊥) → result.now ≡ codes "?" }
{
    match std::str::from_utf8(name) {
        Ok("") => "-",
        Ok(text) => text,
        Err(_) => "?",
    }
}

/// The name that a word of the command line stands for: `-` and the empty word are the empty name.
pub fn name_of(word: &str) -> &[u8]
    ensures { result.now ≡ name_of_word word.now }
{
    if word == "-" { b"" } else { word.as_bytes() }
}
