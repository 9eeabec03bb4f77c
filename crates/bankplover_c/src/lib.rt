#![tactic(auto)]

// The exports for programs in C and in Rust: each has the C name, the signature (outside/bankplover.h) and the clauses of
// the library's function of that name, and calls it.
ghost use Rattle.std.specs.Prelude.{◌≡◌, length, cond};
ghost use Rattle.table.specs.Area.{or_x};
ghost use Rattle.symbol.specs.Match.{match_level, match_change};
ghost use Rattle.stored.specs.Stored.{level_of, symbol_of};
ghost use Rattle.formed.specs.Tests.{well_formed};
ghost use Rattle.evaluation.specs.Call.{evaluated};
ghost use Rattle.value.specs.Value.{byte_of, read_byte};
ghost use Rattle.bankplover.specs.Told.{number_in, told_in};
ghost use Rattle.bankplover.specs.Books.{entries_in, name_place, opened_cells, handed, entry_cells};
ghost use Rattle.bankplover.specs.Judges.{told, read_told, JudgeTold, square_cells};
ghost use Rattle.reading.specs.Told.{read_into};
ghost use Rattle.book.specs.Book.{opened as opened_of, appended, fetched};

use bankplover::{ENTRY, OPENED, SQUARE, WITNESS};

// A level, by its letter, matches a value, by its byte.
#[unsafe(no_mangle)]
pub extern "C" fn bankplover_level_matches(level: u8, value: u8) -> bool
    ensures { result ≡ match_level (level_of level) (or_x (read_byte value)) }
{
    bankplover::bankplover_level_matches(level, value)
}

// A symbol, by its two stored bytes, matches a change.
#[unsafe(no_mangle)]
pub extern "C" fn bankplover_change_matches(first: u8, second: u8, from: u8, to: u8) -> bool
    ensures { result ≡ match_change (symbol_of first second) (or_x (read_byte from)) (or_x (read_byte to)) }
{
    bankplover::bankplover_change_matches(first, second, from, to)
}

// A lent table is well formed.
#[unsafe(no_mangle)]
pub extern "C" fn bankplover_well_formed(area: &[u8]) -> bool
    ensures { result ≡ well_formed area.now }
{
    bankplover::bankplover_well_formed(area)
}

// The output of an order, as a byte.
#[unsafe(no_mangle)]
pub extern "C" fn bankplover_evaluate(
    area: &[u8],
    prev: &[u8],
    cur: &[u8],
    old: u8,
    order: &[u8],
    answer: &mut usize,
) -> u8
    ensures value { result ≡ number_in (evaluated area.now prev.now cur.now old order.now) }
    ensures told { answer.new ≡ told_in byte_of (evaluated area.now prev.now cur.now old order.now) }
{
    bankplover::bankplover_evaluate(area, prev, cur, old, order, answer)
}

// Reads one primitive into an area.
#[unsafe(no_mangle)]
pub extern "C" fn bankplover_read(
    text: &[u8],
    start: usize,
    area: &mut [u8],
    answer: &mut usize,
) -> u8
    ensures { read_told (length text.now) (read_into text.now start area.old) ≡ told result answer.new area.new }
{
    bankplover::bankplover_read(text, start, area, answer)
}

// Judges a table.
#[unsafe(no_mangle)]
pub extern "C" fn bankplover_judge(
    area: &[u8],
    witness: &mut [usize; WITNESS],
    answer: &mut usize,
) -> u8
    ensures { JudgeTold area.now result answer.new witness.old witness.new }
{
    bankplover::bankplover_judge(area, witness, answer)
}

// The pairwise answers.
#[unsafe(no_mangle)]
pub extern "C" fn bankplover_square(
    area: &[u8],
    square: &mut [u8; SQUARE],
    answer: &mut usize,
) -> u8
    ensures value { result ≡ cond (well_formed area.now) 0 10 }
    ensures cells { square.new ≡ square_cells area.now square.old }
    ensures told { answer.new ≡ 0 }
{
    bankplover::bankplover_square(area, square, answer)
}

// Opens a book of which `stated` bytes count.
#[unsafe(no_mangle)]
pub extern "C" fn bankplover_open(
    book: &[u8],
    stated: usize,
    opened: &mut [usize; OPENED],
    answer: &mut usize,
) -> u8
    ensures value { result ≡ number_in (opened_of book.now stated) }
    ensures told { answer.new ≡ told_in entries_in (opened_of book.now stated) }
    ensures cells { opened.new ≡ opened_cells opened.old (opened_of book.now stated) }
{
    bankplover::bankplover_open(book, stated, opened, answer)
}

// Appends a verdict.
#[unsafe(no_mangle)]
pub extern "C" fn bankplover_append(
    book: &mut [u8],
    stated: usize,
    name: &[u8],
    inputs: usize,
    rows: usize,
    finding: u8,
    witness: &[usize; WITNESS],
    answer: &mut usize,
) -> u8
    ensures value { result ≡ number_in (appended book.old stated (handed name.now inputs rows finding witness.now)).answer }
    ensures bytes { book.new ≡ (appended book.old stated (handed name.now inputs rows finding witness.now)).bytes }
    ensures told { answer.new ≡ told_in (λ n. n) (appended book.old stated (handed name.now inputs rows finding witness.now)).answer }
{
    bankplover::bankplover_append(book, stated, name, inputs, rows, finding, witness, answer)
}

// Fetches entry k, counted from 1.
#[unsafe(no_mangle)]
pub extern "C" fn bankplover_fetch(
    book: &[u8],
    stated: usize,
    k: usize,
    entry: &mut [usize; ENTRY],
    answer: &mut usize,
) -> u8
    ensures value { result ≡ number_in (fetched book.now stated k) }
    ensures cells { entry.new ≡ entry_cells entry.old (fetched book.now stated k) }
    ensures told { answer.new ≡ told_in name_place (fetched book.now stated k) }
{
    bankplover::bankplover_fetch(book, stated, k, entry, answer)
}
