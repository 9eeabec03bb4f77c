#![tactic(auto)]

// Files as the programs use them: loaded whole into a lent buffer, stored at a place and flushed.
// No contract can say what a file holds; what is proved is that every count lies within its buffer.
ghost use Rattle.std.specs.Prelude.{◌≡◌, ◌<◌, ◌≤◌, ◌^◌, length, IfOk, IfErr};
ghost use Rattle.std.specs.Io.{WritesAtMost};

use std::fs::File;
use std::io;
use std::io::{Error, ErrorKind, Read};
use std::os::unix::fs::FileExt;

// A read that failed, and how many bytes were read before it.
#[derive(Clone, Copy)]
pub struct Cut {
    pub read: usize,
    pub error: Error,
}

impl From<Cut> for Error {
    ghost from_gives = { λ cut e. e ≡ cut.error };

    fn from(cut: Cut) -> Error {
        cut.error
    }
}

// Writes a line to standard error: what failed, as the caller names it, a colon and the error's words.
pub fn fail(rt: &HostRuntime, what: &[u8], error: Error) {
    let err = rt.stderr();
    let _ = err.write_all(what);
    let _ = err.write_all(b": ");
    match format!(in rt.alloc(); "{error}") {
        Ok(words) => {
            let _ = err.write_all(plain(words.as_str()).as_bytes());
        }
        Err(_) => {
            let _ = err.print(error.kind());
        }
    }
    let _ = err.write_all(b"\n");
}

// The system's words without its number, which std puts behind them.
fn plain(words: &str) -> &str {
    words
        .split_once(" (os error ")
        .map_or(words, |(text, _)| text)
}

// A path is text for std; bytes that are none name no file.
pub fn path_text(path: &[u8]) -> io::Result<&str>
    ensures { IfOk result (λ text. text.now ≡ path.now) }
{
    std::str::from_utf8(path).map_err(|_| Error::from(ErrorKind::InvalidFilename))
}

// Reads on from an open file until the buffer is full or the file ends.
pub fn load_from(file: &mut impl Read, buf: &mut [u8]) -> Result<usize, Cut>
    ensures loaded { IfOk result (λ n. n ≤ length buf.new) }
    ensures cut { IfErr result (λ c. c.read ≤ length buf.new) }
{
    // Stays: a read gives as many bytes as it likes, and no method of std fills a buffer up to the end of a file.
    let mut n: usize = 0;
    while n < buf.len() {
        match file.read(&mut buf[n..]) {
            Ok(0) => break,
            Ok(more) => n += more,
            Err(error) => return Err(Cut { read: n, error }),
        }
    }
    Ok(n)
}

fn load_named(rt: &HostRuntime, path: &[u8], buf: &mut [u8]) -> io::Result<usize>
    ensures { IfOk result (λ n. n ≤ length buf.new) }
{
    let mut file = File::open(rt, path_text(path)?)?;
    Ok(load_from(&mut file, buf)?)
}

// Loads the file that a path names; where that fails, says why on standard error.
pub fn load(rt: &HostRuntime, path: &[u8], buf: &mut [u8]) -> io::Result<usize>
    ensures { IfOk result (λ n. n ≤ length buf.new) }
{
    let loaded = load_named(rt, path, buf);
    if let Err(error) = loaded {
        fail(rt, path, error);
    }
    loaded
}

// Writes some bytes at a place that the system can count, and says how many.
fn put(file: &File, bytes: &[u8], at: usize) -> io::Result<usize>
    requires { at < 2 ^ 63 }
    ensures { WritesAtMost result bytes.now }
{
    file.write_at(bytes, at as u64)
}

// Writes all bytes at a place of an open file and flushes them to the disk.
pub fn store(file: &File, bytes: &[u8], at: usize) -> io::Result<()> {
    if base::BOOK < at {
        return Err(Error::from(ErrorKind::InvalidInput));
    }
    if base::BOOK < bytes.len() {
        return Err(Error::from(ErrorKind::InvalidInput));
    }
    // Stays: std's `write_all_at` tries again where a write is interrupted, and has other words where one takes nothing.
    let mut n: usize = 0;
    while n < bytes.len() {
        let more = put(file, &bytes[n..], at + n)?;
        if more == 0 {
            return Err(Error::from(ErrorKind::WriteZero));
        }
        n += more;
    }
    file.sync_all()
}
