#![tactic(auto)]

// teller BOOK [NAME]: what a book holds, or the refusal of a damaged one.
use say::Words;
use std::fmt::Write;
use std::rt::Env;

// The longest path and name that are taken.
const WORD: usize = 4096;

// What a line has behind its verdict: a space and the trailer. The LF is left out.
const TRAILER: usize = 7;

// The line's name is the one that is asked for, or none is.
fn is_wanted(line: &[u8], name: &[u8]) -> bool {
    name.is_empty() || text::part(line, 0, files::next(line, b' ', 0)) == name
}

// What standard output does not take is not told.
fn print_line(to: &impl Print, line: &[u8], k: usize) {
    let _ = write!(Words(to), "{k} ");
    let _ = to.write_all(&line[..line.len().saturating_sub(TRAILER)]);
    let _ = to.write_all(b"\n");
}

fn print_entries(to: &impl Print, lines: &[u8], name: &[u8]) {
    for (k, line) in lines.split(|b| *b == b'\n').enumerate() {
        if !line.is_empty() && is_wanted(line, name) {
            print_line(to, line, k + 1);
        }
    }
}

fn tell_book(to: &impl Print, book: &[u8], name: &[u8]) {
    match book::open_book(book, book.len()) {
        Ok(found) => {
            let _ = write!(
                Words(to),
                "{} entries, good length {}, torn bytes {}\n",
                found.entries,
                found.good,
                found.torn
            );
            print_entries(to, text::part(book, 0, found.good), name);
        }
        Err(refusal) => say::refusal(to, refusal),
    }
}

// One byte more than a book may have is loaded, so that a longer file is refused and not cut short.
fn tell(rt: &HostRuntime, path: &[u8], name: &[u8]) {
    let mut file = [0u8; base::BOOK + 1];
    let Ok(n) = disk::load(rt, path, &mut file) else {
        return;
    };
    tell_book(rt, &file[..n], name);
}

fn main(rt: HostRuntime) {
    let mut path = [0u8; WORD];
    let Ok(length) = rt.arg(1, &mut path) else {
        let _ = rt.eprintln("use: teller BOOK [NAME]");
        return;
    };
    let mut name = [0u8; WORD];
    let m = rt.arg(2, &mut name).unwrap_or(0);
    tell(&rt, &path[..length], &name[..m]);
}
