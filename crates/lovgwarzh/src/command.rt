use file_calls::{ApplyPaths, JoinPaths};

/// What the words of the command line ask for.
#[derive(Drop)]
pub enum Command<'a> {
    Check(&'a str),
    List(&'a str),
    Join {
        paths: JoinPaths<'a>,
        out: &'a str,
    },
    Apply {
        paths: ApplyPaths<'a>,
        name: &'a str,
    },
    Tour,
    Help,
}

/// How to call the program.
pub const USAGE: &str = "usage: lovgwarzh COMMAND

  check FILE                 tells whether FILE is a difference stream, with its names and size
  list FILE                  prints the ranges that a stream changes
  join EARLIER LATER OUT     joins two streams that follow each other, and writes the join to OUT
  apply STREAM NAME IMAGE    applies a stream to the file IMAGE, which stands at snapshot NAME
                             (- before the first snapshot)
  tour                       shows the calls at work on examples, streams and a shelf
  help                       prints this

A command that is refused, or cannot read or write a file, says why on standard error, ends with
status 1, and leaves OUT and IMAGE as they were. Files are held in memory, up to 4 GiB each.
";

/// The command that the words after the program's name ask for. None where there are no words, or
/// they name no command, or are too few or too many for it.
pub fn parse(words: &[String]) -> Option<Command<'_>> {
    let [name, rest @ ..] = words else {
        return None;
    };
    match (name.as_str(), rest) {
        ("check", [file]) => Some(Command::Check(file.as_str())),
        ("list", [file]) => Some(Command::List(file.as_str())),
        ("join", [earlier, later, out]) => Some(Command::Join {
            paths: JoinPaths {
                earlier: earlier.as_str(),
                later: later.as_str(),
            },
            out: out.as_str(),
        }),
        ("apply", [stream, name, image]) => Some(Command::Apply {
            paths: ApplyPaths {
                stream: stream.as_str(),
                image: image.as_str(),
            },
            name: name.as_str(),
        }),
        ("tour", []) => Some(Command::Tour),
        ("help" | "--help" | "-h", []) => Some(Command::Help),
        _ => None,
    }
}
