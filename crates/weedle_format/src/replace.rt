//! A file replaced by another text, at once.

use std::fs::{self, File, OpenFile};
use std::io::{self, ErrorKind, Write};
use std::rt::Runtime;
use weedle_program::Fault;

/// How many names of a new file are tried.
const MOST_NAMES: usize = 100;

/// Replaces a file by a text: writes a new file beside it, and gives that its name.
///
/// A link is followed, and the mode stays. It fails where memory is refused, and where the system
/// refuses one of the steps: then the file is as it was, and the new one is gone.
pub fn replace<R: Runtime + AllocGlobal>(rt: &R, name: &str, text: &[u8]) -> Result<(), Fault> {
    let path = fs::canonicalize(rt, name).map_err(Fault::of_file)?;
    let path = path.as_path().as_str();
    let beside = write_beside(rt, path, text)?;
    match fs::rename(rt, beside.as_str(), path) {
        Ok(()) => Ok(()),
        Err(error) => {
            let _ = fs::remove_file(rt, beside.as_str());
            Err(Fault::of_file(error))
        }
    }
}

/// Writes a text to a new file beside one, with its mode, and says what it is called.
fn write_beside<R: Runtime + AllocGlobal>(
    rt: &R,
    path: &str,
    text: &[u8],
) -> Result<String, Fault> {
    for number in 0..MOST_NAMES {
        let beside = format!(in rt.alloc(); "{path}.{number}.new")?;
        match File::create_new(rt, beside.as_str()) {
            Ok(file) => {
                if let Err(error) = fill(rt, file, path, text) {
                    let _ = fs::remove_file(rt, beside.as_str());
                    return Err(Fault::of_file(error));
                }
                return Ok(beside);
            }
            Err(error) if error.kind() == ErrorKind::AlreadyExists => {}
            Err(error) => return Err(Fault::of_file(error)),
        }
    }
    Err(Fault::of_file(io::Error::from(ErrorKind::AlreadyExists)))
}

/// Gives a new file the mode of another one and a text, down to the disk.
fn fill<R: Runtime + AllocGlobal, F: Write + OpenFile + Drop>(
    rt: &R,
    mut file: F,
    path: &str,
    text: &[u8],
) -> io::Result<()> {
    let mode = fs::metadata(rt, path)?.permissions();
    file.set_permissions(mode)?;
    file.write_all(text)?;
    file.sync_all()
}
