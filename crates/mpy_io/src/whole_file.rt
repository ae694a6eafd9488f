//! Files of a disk that are replaced whole.

use std::fs::{File, Metadata, OpenFile, Permissions};
use std::io::{ErrorKind, Write};
use std::os::unix::fs::{MetadataExt, PermissionsExt, chown};
use std::rt::Files;
use std::{fs, io};

/// How many names are tried for the new file, where others stand in the folder already.
const MOST_NAMES: u32 = 1_000;

/// Makes these bytes what a path leads to.
///
/// A file is replaced in one step by a new one, which is written beside it and has its rights; so it is what it was until it holds all
/// of the bytes, whatever happens in between. What is no file, as a device or a pipe, is written to as it stands.
pub(crate) fn write_whole<R: Files + Alloc>(rt: &R, path: &str, bytes: &[u8]) -> io::Result<()> {
    match fs::symlink_metadata(rt, path) {
        Ok(found) if found.is_file() => replace_file(rt, path, Some(&found), bytes),
        Ok(found) if found.is_symlink() => write_through(rt, path, bytes),
        Ok(_) => fs::write(rt, path, bytes),
        Err(error) if error.kind() == ErrorKind::NotFound => replace_file(rt, path, None, bytes),
        Err(error) => Err(error),
    }
}

/// Makes these bytes what a link leads to. The link stays.
fn write_through<R: Files + Alloc>(rt: &R, path: &str, bytes: &[u8]) -> io::Result<()> {
    match fs::metadata(rt, path) {
        Ok(found) if found.is_file() && !is_open_file(path) => {
            let target = fs::canonicalize(rt, path)?;
            replace_file(rt, target.as_str(), Some(&found), bytes)
        }
        _ => fs::write(rt, path, bytes),
    }
}

/// Whether a link is the system's own for a file that is open, as `/dev/stdout`: who has opened it wants that very file written.
fn is_open_file(path: &str) -> bool {
    let below = path.trim_start_matches('/');
    below.len() < path.len() && (below.starts_with("dev/") || below.starts_with("proc/"))
}

/// Puts a new file of these bytes in the place of the file of a path, if one was found there.
fn replace_file<R: Files + Alloc>(
    rt: &R,
    path: &str,
    found: Option<&Metadata>,
    bytes: &[u8],
) -> io::Result<()> {
    let Some((folder, _name)) = path.rsplit_once('/') else {
        return Err(io::Error::from(ErrorKind::InvalidInput));
    };
    if found.is_some() {
        // a file that may not be written may not be replaced either
        File::options().write(true).open(rt, path)?;
    }
    let (beside, file) = match create_beside(rt, folder) {
        Err(error) if found.is_some() && error.kind() == ErrorKind::PermissionDenied => {
            // the folder takes no new file: this one is written as it stands
            return fs::write(rt, path, bytes);
        }
        made => made?,
    };
    let mut done = fill(rt, beside.as_str(), file, found, bytes);
    if done.is_ok() {
        done = fs::rename(rt, beside.as_str(), path);
    }
    if done.is_err() {
        let _ = fs::remove_file(rt, beside.as_str());
    }
    done
}

/// Makes a file in a folder under a name that nothing had there, and gives its path.
fn create_beside<R: Files + Alloc>(rt: &R, folder: &str) -> io::Result<(String<R::A>, R::File)> {
    for number in 0..MOST_NAMES {
        let path = format!(in rt.alloc(); "{folder}/.mpy-new-{number}")?;
        match File::options()
            .write(true)
            .create_new(true)
            .open(rt, path.as_str())
        {
            Ok(file) => return Ok((path, file)),
            Err(error) if error.kind() == ErrorKind::AlreadyExists => {}
            Err(error) => return Err(error),
        }
    }
    Err(io::Error::from(ErrorKind::AlreadyExists))
}

/// Writes these bytes to a new file, down to the disk, and gives it the owner and the rights of the one whose place it takes.
fn fill<R: Files>(
    rt: &R,
    path: &str,
    mut file: R::File,
    found: Option<&Metadata>,
    bytes: &[u8],
) -> io::Result<()> {
    if let Some(found) = found {
        let made = file.metadata()?;
        if made.uid() != found.uid() || made.gid() != found.gid() {
            // the system lets few give a file away: then it stays with who wrote it
            let _ = chown(rt, path, Some(found.uid()), Some(found.gid()));
        }
        file.set_permissions(Permissions::from_mode(found.mode() & 0o777))?;
    }
    file.write_all(bytes)?;
    file.sync_all()
}
