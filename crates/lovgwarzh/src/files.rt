ghost use Rattle.std.specs.Prelude.{◌≤◌, IfOk, length};

use crate::failure::{About, Failure};
use file_calls::MOST_BYTES;
use std::fs::File;
use std::io::{ErrorKind, Read, Write};
use std::{fs, io};

/// The bytes of a file. One byte more than the most is asked for, so that a longer file, or a
/// device without an end, is an error and is not cut.
pub fn read_file(rt: &HostRuntime, path: &str) -> Result<Vec<u8>, Failure>
    ensures { IfOk result (λ bytes. length bytes.items ≤ «MOST_BYTES») }
{
    let heap = rt.alloc();
    let file = File::open(rt, path).about(heap, path)?;
    let mut bytes = Vec::new(heap);
    let read = file.take(MOST_BYTES + 1).read_to_end(&mut bytes);
    read.about(heap, path)?;
    if bytes.len() as u64 > MOST_BYTES {
        let error = io::Error::other("longer than 4 GiB");
        return Err(Failure::about(String::from_str(heap, path), error));
    }
    Ok(bytes)
}

// Whether a file stands at a path. Anything else there, as a folder, a device or a link, is an
// error, since another file is going to take the path's name.
fn stands(rt: &HostRuntime, path: &str) -> io::Result<bool> {
    match fs::symlink_metadata(rt, path) {
        Ok(found) if found.is_file() => Ok(true),
        Ok(_) => Err(io::Error::other("not a plain file")),
        Err(error) if error.kind() == ErrorKind::NotFound => Ok(false),
        Err(error) => Err(error),
    }
}

// Fills a new file and gives it the name of the old one. The bytes reach the disk before the name
// does.
fn fill_and_rename(rt: &HostRuntime, new: &str, path: &str, bytes: &[u8]) -> io::Result<()> {
    if stands(rt, path)? {
        // A copy brings the old file's permissions along.
        fs::copy(rt, path, new)?;
    }
    let mut file = File::create(rt, new)?;
    file.write_all(bytes)?;
    file.sync_all()?;
    fs::rename(rt, new, path)
}

/// Writes a file, in place of one that may stand there. The bytes go to a new file beside it, which
/// then takes its name, so that the path leads to all of the old bytes or to all of the new ones,
/// whenever the program is stopped. A file that has the new one's name already is an error and is
/// left as it is: another program may be writing it, or was stopped while it did. The folder is not
/// synced, and the file's owner becomes whoever runs the program.
pub fn write_file(rt: &HostRuntime, path: &str, bytes: &[u8]) -> Result<(), Failure> {
    let heap = rt.alloc();
    let new = format!(in heap; "{path}.tmp")?;
    File::create_new(rt, new.as_str()).about(heap, new.as_str())?;
    let filled = fill_and_rename(rt, new.as_str(), path, bytes);
    if filled.is_err() {
        let _ = fs::remove_file(rt, new.as_str());
    }
    filled.about(heap, path)
}
