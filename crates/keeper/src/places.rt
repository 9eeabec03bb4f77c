// The files that the keeper opens, makes, flushes and shortens.
use std::fs::{File, OpenOptions};
use std::io;
use std::io::{Error, ErrorKind};

// The folder that a path names, its last slash with it; none where the path has no slash.
fn folder_of(path: &[u8]) -> Option<&[u8]> {
    let slash = path.iter().rposition(|b| *b == b'/')?;
    Some(&path[..slash + 1])
}

fn open_folder(rt: &HostRuntime, path: &[u8]) -> io::Result<File> {
    match folder_of(path) {
        Some(folder) => File::open(rt, disk::path_text(folder)?),
        None => File::open(rt, "."),
    }
}

// A file that was just made survives a cut once its folder is flushed.
pub fn flush_folder(rt: &HostRuntime, path: &[u8]) -> io::Result<()> {
    let folder = open_folder(rt, path)?;
    folder.sync_all()
}

// What the file holds is left as it is.
fn open_update(rt: &HostRuntime, path: &str) -> io::Result<File> {
    OpenOptions::new().read(true).write(true).open(rt, path)
}

fn create(rt: &HostRuntime, path: &str) -> io::Result<File> {
    OpenOptions::new()
        .write(true)
        .create_new(true)
        .open(rt, path)
}

// Opens the file for reading and writing, and makes it where it is missing.
pub fn open_or_create(rt: &HostRuntime, path: &[u8]) -> io::Result<File> {
    let path = disk::path_text(path)?;
    match open_update(rt, path) {
        Ok(file) => Ok(file),
        Err(e) if e.kind() == ErrorKind::NotFound => {
            let made = create(rt, path)?;
            drop(made);
            open_update(rt, path)
        }
        Err(e) => Err(e),
    }
}

// Takes away the torn bytes that reach past the last entry.
pub fn take_away(file: &File, length: usize) -> io::Result<()> {
    if base::BOOK < length {
        return Err(Error::from(ErrorKind::InvalidInput));
    }
    file.set_len(length as u64)?;
    file.sync_all()
}
