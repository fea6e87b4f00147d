use fault::Fault;
use file_calls::CallError;
use std::alloc::{AllocError, Global};
use std::io;
use thiserror::Error;

/// What is wrong with a file.
#[derive(Debug, Drop, Error)]
pub enum Trouble {
    // a call was refused, because of what the file holds
    #[error("refused: {0}")]
    Refused(#[from] Fault),
    // the file cannot be read or written
    #[error("{0}")]
    File(#[from] io::Error),
}

/// Why a command ends without its result.
#[derive(Debug, Drop, Error)]
pub enum Failure {
    // the words are no command
    #[error("no such command")]
    Usage,
    // there is trouble with the file at the path
    #[error("{path}: {trouble}")]
    About { path: String, trouble: Trouble },
    // the program's own words cannot be read, or standard output cannot be written
    #[error("{0}")]
    Io(#[from] io::Error),
    // there is not enough memory
    #[error("not enough memory")]
    Memory(#[from(alloc)] AllocError),
    // the tour did not come to its end
    #[error("{0}")]
    Tour(#[from] anyhow::Error),
}

impl Failure {
    /// The trouble with the file at a path; the path's text may have failed to get memory.
    pub fn about(path: Result<String, AllocError>, trouble: impl Into<Trouble> + Drop) -> Failure {
        match path {
            Ok(path) => Failure::About {
                path,
                trouble: trouble.into(),
            },
            Err(error) => Failure::Memory(error),
        }
    }

    /// The failure of a call, where `path` gives the path that a refusal is about.
    pub fn of_call<F: FnOnce(Fault) -> Result<String, AllocError>>(
        error: CallError,
        path: F,
    ) -> Failure
        requires { F.IsAlwaysCallable path }
    {
        match error {
            CallError::Refused(fault) => Failure::about(path(fault), fault),
            CallError::Memory(error) => Failure::Memory(error),
        }
    }
}

/// A result whose trouble, if it has one, gets the path of a file: `check(&stream).about(heap,
/// path)?`.
pub trait About<T> {
    fn about(self, heap: Global, path: &str) -> Result<T, Failure>;
}

impl<T, E: Into<Trouble> + Drop> About<T> for Result<T, E> {
    fn about(self, heap: Global, path: &str) -> Result<T, Failure> {
        self.map_err(|error| Failure::about(String::from_str(heap, path), error))
    }
}
