#![tactic(auto)]

// What the programs say, a line for each call. What standard output does not take is not said, and the run goes on.
ghost use Rattle.std.specs.Prelude.{◌≡◌, ◌-◌, IsOk};

use refusal::Refusal;
use std::fmt;
use std::fmt::Write;

// Each word of a format goes out by a write of its own, and one that is not taken stops none behind it.
#[derive(Drop)]
pub struct Words<'a, P>(pub &'a P);

impl<P: Print> Write for Words<'_, P> {
    fn write_str(&mut self, word: &str) -> fmt::Result
        ensures goes_on { IsOk result }
    {
        let _ = self.0.write_all(word.as_bytes());
        Ok(())
    }
}

pub fn refusal(out: &impl Print, refusal: Refusal) {
    let _ = writeln!(Words(out), "{refusal}");
}

// How many primitives are left behind the first k.
fn to_go(total: usize, k: usize) -> usize
    ensures { result ≡ total - k }
{
    total.saturating_sub(k)
}

pub fn entry_done(out: &impl Print, done: &[u8], k: usize, total: usize, name: &[u8]) {
    let _ = out.write_all(done);
    let _ = write!(Words(out), "{k} of {total} ");
    let _ = out.write_all(name);
    let _ = write!(Words(out), ", {} to go\n", to_go(total, k));
}

// The entry that stands in the verdict's place is named as it stands.
pub fn difference(out: &impl Print, book: &[u8], at: usize, k: usize, name: &[u8]) {
    let _ = write!(Words(out), "stopped: entry {k} of the book, '");
    let _ = out.write_all(text::part(book, at, files::next(book, b'\n', at)));
    let _ = out.write_all(b"', is not the verdict of ");
    let _ = out.write_all(name);
    let _ = out.write_all(b"; nothing is changed\n");
}

pub fn surplus(out: &impl Print, entries: usize, total: usize) {
    let _ = write!(
        Words(out),
        "stopped: the book has {entries} entries, the library {total} primitives; nothing is changed\n"
    );
}

pub fn how_to_use(err: &impl Eprint) {
    let _ = err.eprintln("use: keeper LIBRARY BOOK");
}

pub fn all_stand(out: &impl Print, total: usize) {
    let _ = write!(Words(out), "all {total} entries stand\n");
}
