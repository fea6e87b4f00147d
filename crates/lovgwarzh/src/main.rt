// The command line: difference streams in files are checked, listed, joined, and applied to an
// image.
#![tactic(auto)]

use command::{Command, USAGE, parse};
use commands::{apply_to_file, check_file, join_files, list_file};
use failure::Failure;
use std::process::ExitCode;
use std::{env, io};
use tour::show_tour;

mod command;
mod commands;
mod failure;
mod files;
mod samples;
mod series;
mod tour;

// Carries a command out.
fn carry_out(rt: &HostRuntime, command: Command) -> Result<(), Failure> {
    match command {
        Command::Check(file) => check_file(rt, file),
        Command::List(file) => list_file(rt, file),
        Command::Join { paths, out } => join_files(rt, paths, out),
        Command::Apply { paths, name } => apply_to_file(rt, paths, name),
        Command::Tour => Ok(show_tour(rt)?),
        Command::Help => Ok(rt.print(USAGE)?),
    }
}

// Reads the words of the command line, and does what they say.
fn run(rt: &HostRuntime) -> Result<(), Failure> {
    let words: Vec<String> = env::args(rt)?.skip(1).collect(rt.alloc())?;
    match parse(&words) {
        Some(command) => carry_out(rt, command),
        None => Err(Failure::Usage),
    }
}

// Prints a failure on standard error; of words that are no command, how to call the program.
fn print_failure(rt: &HostRuntime, failure: &Failure) -> io::Result<()> {
    match failure {
        Failure::Usage => rt.eprint(USAGE),
        _ => eprintln!(rt; "lovgwarzh: {failure}"),
    }
}

fn main(rt: HostRuntime) -> ExitCode {
    match run(&rt) {
        Ok(()) => ExitCode::SUCCESS,
        Err(failure) => {
            // Where standard error is closed nothing can be said.
            let _ = print_failure(&rt, &failure);
            ExitCode::FAILURE
        }
    }
}
