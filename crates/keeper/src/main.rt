#![tactic(auto)]

// keeper LIBRARY BOOK: leaves in the book one entry for each primitive of the library, and goes on where an earlier run was cut.
mod places;

use disk::Cut;
use refusal::Refusal;
use run::{Run, Stopped};
use std::fs::File;
use std::io::{Error, Seek, SeekFrom};
use std::rt::Env;

// The longest path that is taken.
const WORD: usize = 4096;

// Why a run ends before all entries stand.
#[derive(Clone, Copy)]
enum Stop {
    Failed(Error),
    Refused(Refusal),
    // The book has more entries than the library has primitives.
    Surplus(usize, usize),
    Said,
}

impl From<Error> for Stop {
    fn from(error: Error) -> Stop {
        Stop::Failed(error)
    }
}

impl From<Cut> for Stop {
    fn from(cut: Cut) -> Stop {
        Stop::Failed(cut.error)
    }
}

impl From<Refusal> for Stop {
    fn from(refusal: Refusal) -> Stop {
        Stop::Refused(refusal)
    }
}

impl From<Stopped> for Stop {
    fn from(_stopped: Stopped) -> Stop {
        Stop::Said
    }
}

// What a library's text needs in its book is kept or stored; how many entries stand then. The caller closes its file.
fn keep_text(
    rt: &HostRuntime,
    text: &[u8],
    path: &[u8],
    book_file: &mut Option<File>,
) -> Result<usize, Stop> {
    let mut area = [0u8; table::AREA];
    // The book is opened, or made, only where the whole library can be read.
    let total = keeping::count(text, &mut area)?;
    let file = book_file.insert(places::open_or_create(rt, path)?);
    // What has no places, as a pipe, would be waited for.
    file.seek(SeekFrom::Start(0))?;
    // One byte more than a book may have is loaded, so that a longer file is refused and not cut short.
    let mut book = [0u8; base::BOOK + 1];
    let stated = disk::load_from(file, &mut book)?;
    let found = book::open_book(&book, stated)?;
    if total < found.entries {
        return Err(Stop::Surplus(found.entries, total));
    }
    if found.good == 0 {
        places::flush_folder(rt, path)?;
    }
    let run = Run {
        file,
        path,
        text,
        good: found.good,
        total,
    };
    let length = run::go_through(rt, run, &mut area, &mut book)?;
    if length < stated {
        places::take_away(file, length)?;
    }
    Ok(total)
}

// One byte more than a text may have is loaded, so that a longer one is refused as such.
fn keep(rt: &HostRuntime, library: &[u8], path: &[u8]) {
    let mut text = [0u8; base::TEXT + 1];
    let Ok(n) = disk::load(rt, library, &mut text) else {
        return;
    };
    // The book's file stays open until the last line is said.
    let mut book_file = None;
    match keep_text(rt, &text[..n], path, &mut book_file) {
        Ok(total) => say::all_stand(rt, total),
        Err(Stop::Failed(error)) => disk::fail(rt, path, error),
        Err(Stop::Refused(refusal)) => say::refusal(rt, refusal),
        Err(Stop::Surplus(entries, total)) => say::surplus(rt, entries, total),
        Err(Stop::Said) => {}
    }
}

fn main(rt: HostRuntime) {
    let mut library = [0u8; WORD];
    let Ok(n) = rt.arg(1, &mut library) else {
        say::how_to_use(&rt);
        return;
    };
    let mut path = [0u8; WORD];
    let Ok(m) = rt.arg(2, &mut path) else {
        say::how_to_use(&rt);
        return;
    };
    keep(&rt, &library[..n], &path[..m]);
}
