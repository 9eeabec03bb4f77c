#![tactic(auto)]

// The run over a library: each primitive's entry is kept or stored, and what was done is said.

ghost use Rattle.std.specs.Prelude.{◌≡◌, ◌+◌, ◌<◌, ◌≤◌, length, IfOk};
ghost use Rattle.keeping.specs.Keeping.{Holds};
ghost use Rattle.run.specs.Run.{Apart, Goes, Runs};

use keeping::Settled;
use std::fs::File;
use std::io;

// What stays the same over a run: the book's file and its path, the library's text, the length of the book that was found
// good, and how many primitives the library has.
#[derive(Clone, Copy)]
pub struct Run<'a> {
    pub file: &'a File,
    pub path: &'a [u8],
    pub text: &'a [u8],
    pub good: usize,
    pub total: usize,
}

// Where a turn begins in the library and in the book, and which entry it is for, counted from 1.
#[derive(Clone, Copy)]
pub struct Turn {
    pub start: usize,
    pub at: usize,
    pub entry: usize,
}

// The run ends before the library does; why was said.
#[derive(Clone, Copy)]
pub struct Stopped;

// ---- how an entry is stored

// Stores a part of the entry that ends at `end`, flushes it, and answers where the part ends.
fn store_part(file: &File, book: &[u8], from: usize, to: usize, end: usize) -> io::Result<usize>
    requires apart { Apart from to end }
    requires from_le_to { (from ≤ to) × (to ≤ length book.now) }
    ensures { IfOk result (λ n. n ≡ to) }
{
    disk::store(file, &book[from..to], from)?;
    Ok(to)
}

// All bytes but the last are stored before the last one is.
fn store_entry(file: &File, book: &[u8], at: usize, end: usize) -> io::Result<usize>
    requires { (at < end) × (end ≤ length book.now) }
    ensures { IfOk result (λ n. n ≡ end) }
{
    let last = store_part(file, book, at, end - 1, end)?;
    store_part(file, book, last, last + 1, end)
}

// ---- the run

// The next primitive's entry is kept or stored: where the next turn begins, or none at the library's end.
fn go_on(
    rt: &HostRuntime,
    run: Run,
    area: &mut [u8],
    book: &mut [u8],
    turn: Turn,
) -> Result<Option<Turn>, Stopped>
    requires held { Holds run.text.now turn.start book.old turn.at }
    requires counted { turn.entry ≤ turn.start + 1 }
    ensures { Goes run.entry.text.now turn book.old result book.new }
{
    match keeping::settle(run.text, turn.start, area, book, turn.at, run.good) {
        Ok(Settled::Kept(next, end)) => {
            say::entry_done(rt, b"kept ", turn.entry, run.total, table::name_in(area));
            Ok(Some(Turn {
                start: next,
                at: end,
                entry: turn.entry + 1,
            }))
        }
        Ok(Settled::Added(next, end)) => {
            // What settle says of an entry that it added.
            prove!(turn.at < end);
            prove!(end <= book.len());
            let stored = store_entry(run.file, book, turn.at, end);
            match stored {
                Ok(last) => {
                    say::entry_done(rt, b"wrote ", turn.entry, run.total, table::name_in(area));
                    Ok(Some(Turn {
                        start: next,
                        at: last,
                        entry: turn.entry + 1,
                    }))
                }
                Err(error) => {
                    disk::fail(rt, run.path, error);
                    Err(Stopped)
                }
            }
        }
        Ok(Settled::Differs) => {
            say::difference(rt, book, turn.at, turn.entry, table::name_in(area));
            Err(Stopped)
        }
        Ok(Settled::End) => Ok(None),
        Err(refusal) => {
            say::refusal(rt, refusal);
            Err(Stopped)
        }
    }
}

// Every entry that stands is compared before the first one is stored, since they come in the library's order. The length
// of the book that holds all entries.
pub fn go_through(
    rt: &HostRuntime,
    run: Run,
    area: &mut [u8],
    book: &mut [u8],
) -> Result<usize, Stopped>
    ensures { Runs run.entry.text.now result book.new }
{
    let mut turn = Turn {
        start: 0,
        at: 0,
        entry: 1,
    };
    while let Some(next) = go_on(rt, run, area, book, turn)? {
        turn = next;
    }
    Ok(turn.at)
}
