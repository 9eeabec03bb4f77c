#![tactic(auto)]

// The book: opening, append and fetch.
ghost use Rattle.std.specs.Prelude.{◌≡◌, min, [], ◌∷◌, ◌++◌, ◌+◌, ◌≤◌, length, get_or};
ghost use Rattle.base.specs.Limits.{book_limit};
ghost use Rattle.base.specs.Listed.{listed};
ghost use Rattle.files.specs.Parts.{between};
ghost use Rattle.files.specs.Files.{LF};
ghost use Rattle.entry.specs.Entry.{entry};
ghost use Rattle.handed.specs.Handed.{handed};
ghost use Rattle.entry.specs.Draft.{draft};
ghost use Rattle.line.specs.Told.{told_by};
ghost use Rattle.book.specs.Book.{limit_of, opened_file, opened, outcome, with_bytes, appended_at, appended, entry_at, entry_of, fetched};

use handed::Verdict;
use refusal::{Fault, Refusal};
use verdict::Finding;

#[derive(Clone, Copy)]
pub struct Good {
    pub entries: usize,
    pub good: usize,
    pub torn: usize,
}

// An entry as it lies in the lent book: its name starts at `name_at`.
// Stays: the C interface hands out an entry's name as a place and a length in the lent book.
#[derive(Clone, Copy)]
pub struct Entry {
    pub name_at: usize,
    pub name_length: usize,
    pub inputs: usize,
    pub rows: usize,
    pub finding: Finding,
}

// How much of a buffer can be a book.
fn limit(book: &[u8]) -> usize
    ensures { result ≡ limit_of book.now }
{
    book.len().min(base::BOOK)
}

// A file of lines: each must be an entry; what follows the last LF is torn.
fn open_lines(file: &[u8]) -> Result<Good, Refusal>
    ensures { result ≡ opened_file file.now }
{
    let mut start: usize = 0;
    let mut count: usize = 0;
    for end in 0..file.len() {
        let ends = file[end] == b'\n';
        if ends {
            if !line::is_entry(&file[start..end], start) {
                return Err(Fault::Book.at(start));
            }
            start = end + 1;
            count += 1;
        }
    }
    Ok(Good {
        entries: count,
        good: start,
        torn: file.len() - start,
    })
}

// What the first `stated` bytes of a buffer hold.
// Stays: a caller states how much of the lent buffer is the book, and one that states too much is refused (`opened`, `appended`, `fetched`).
#[tactic(auto, using(crate::proofs::Appending::limit_le), unfolding(crate::specs::Book::opened))]
pub fn open_book(book: &[u8], stated: usize) -> Result<Good, Refusal>
    ensures { result ≡ opened book.now stated }
{
    let most = limit(book);
    if most < stated {
        return Err(Fault::Book.at(most));
    }
    open_lines(&book[..stated])
}

// Writes the first `size` bytes of the line at `at`.
fn write_line(book: &mut [u8], at: usize, size: usize, verdict: Verdict)
    requires { at + size ≤ length book.old }
    ensures { book.new ≡ with_bytes book.old at size (listed (λ k. get_or (entry at (draft (handed verdict.entry)) ++ (LF ∷ [])) k 0) size) }
{
    for k in 0..size {
        book[at + k] = entry::line_byte(verdict, at, k);
    }
}

// An append at the good length.
#[tactic(auto, using(crate::proofs::Appending::at_unfit, crate::proofs::Appending::in_limit, crate::proofs::Appending::limit_le))]
fn append_at(
    book: &mut [u8],
    stated: usize,
    good: usize,
    verdict: Verdict,
) -> Result<usize, Refusal>
    ensures { outcome result book.new ≡ appended_at book.old stated good (handed verdict.entry) }
{
    let Some(size) = entry::line_length(verdict) else {
        return Err(Fault::Layout.at(0));
    };
    let most = limit(book);
    let full = most.saturating_sub(good) < size;
    if full {
        return Err(Fault::NoRoom.at(good));
    }
    write_line(book, good, size, verdict);
    Ok(stated.max(good + size))
}

// Writes a verdict's entry at the good length; the answer is the length to state from then on.
#[tactic(auto, unfolding(crate::specs::Book::appended))]
pub fn append(book: &mut [u8], stated: usize, verdict: Verdict) -> Result<usize, Refusal>
    ensures { outcome result book.new ≡ appended book.old stated (handed verdict.entry) }
{
    let found = open_book(book, stated)?;
    append_at(book, stated, found.good, verdict)
}

// The entry whose line stands from `a` to `e`.
pub fn entry_in(file: &[u8], a: usize, e: usize) -> Entry
    requires a_le_e { a ≤ e }
    requires e_in_bounds { e ≤ length file.now }
    ensures { result ≡ entry_at a (told_by (between a e file.now)) }
{
    let verdict = line::read_line(&file[a..e]);
    Entry {
        name_at: a,
        name_length: verdict.name.len(),
        inputs: verdict.inputs,
        rows: verdict.rows,
        finding: verdict.finding,
    }
}

// Entry k, counted from 0.
#[tactic(auto, using(files::proofs::Parts::part_order), unfolding(crate::specs::Book::entry_of, files::specs::Parts::part_at))]
fn entry_of(book: &[u8], k: usize) -> Entry
    ensures { result ≡ entry_of book.now k }
{
    let a = files::after(book, b'\n', k);
    entry_in(book, a, files::next(book, b'\n', a))
}

// Entry k, counted from 1.
#[tactic(auto, unfolding(crate::specs::Book::fetched))]
pub fn fetch(book: &[u8], stated: usize, k: usize) -> Result<Entry, Refusal>
    ensures { result ≡ fetched book.now stated k }
{
    let found = open_book(book, stated)?;
    if k == 0 || found.entries < k {
        return Err(Fault::NoEntry.at(0));
    }
    Ok(entry_of(book, k - 1))
}
