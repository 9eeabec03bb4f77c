#![tactic(auto)]

// Every public call for programs in C and in Rust. A call answers 0, or the number of a refusal, and tells through
// `answer` what it was asked for, or the refusal's place. The crate bankplover_c exports each under its name.
ghost use Rattle.std.specs.Prelude.{◌≡◌, ◌<◌, length, get_or, cond};
ghost use Rattle.base.specs.Listed.{listed};
ghost use Rattle.value.specs.Value.{byte_of, read_byte};
ghost use Rattle.table.specs.Area.{or_x};
ghost use Rattle.symbol.specs.Match.{match_level, match_change};
ghost use Rattle.stored.specs.Stored.{level_of, symbol_of};
ghost use Rattle.formed.specs.Tests.{well_formed};
ghost use Rattle.refusal.specs.Refusal.{number_of};
ghost use Rattle.evaluation.specs.Call.{evaluated};
ghost use Rattle.handed.specs.Handed.{handed as handed_over};
ghost use Rattle.bankplover.specs.Told.{number_in, told_in};
ghost use Rattle.bankplover.specs.Books.{entries_in, name_place, opened_cells, small_of, says_value, value_said, says_finding, witness_from, finding_from, handed, letter_of, witness_number, entry_number, entry_cells};
ghost use Rattle.bankplover.specs.Judges.{told, read_told, JudgeTold, bit_of, square_cells};
ghost use Rattle.reading.specs.Told.{read_into};
ghost use Rattle.book.specs.Book.{opened as opened_of, appended, fetched};

use handed::Verdict;
use refusal::{Fault, Refusal};
use value::Ternary;
use verdict::{Finding, Witness};

// How many numbers a witness, an opened book and an entry have; outside/bankplover.h has the same.
pub const WITNESS: usize = 8;

pub const OPENED: usize = 3;

pub const ENTRY: usize = 13;

pub const SQUARE: usize = 81;

// What reading answers where only blanks and comments remain: no refusal has this number.
const END: u8 = 255;

// A refusal's number; its place is told.
fn refuse(refusal: Refusal, answer: &mut usize) -> u8
    ensures number { result ≡ number_of refusal.fault }
    ensures told { answer.new ≡ refusal.place }
{
    *answer = refusal.place;
    refusal.fault.number()
}

// 0, and what was asked for is told; or a refusal.
fn tell(found: Result<usize, Refusal>, answer: &mut usize) -> u8
    ensures number { result ≡ number_in found }
    ensures told { answer.new ≡ told_in (λ n. n) found }
{
    match found {
        Ok(told) => {
            *answer = told;
            0
        }
        Err(refusal) => refuse(refusal, answer),
    }
}

// The value that a byte says, x where it says none.
#[tactic(auto, unfolding(table::specs::Area::or_x))]
fn value_in(b: u8) -> Ternary
    ensures { result ≡ or_x (read_byte b) }
{
    Ternary::from_byte(b).unwrap_or(Ternary::X)
}

// A level, by its letter, matches a value, by its byte.
pub fn bankplover_level_matches(level: u8, value: u8) -> bool
    ensures { result ≡ match_level (level_of level) (or_x (read_byte value)) }
{
    symbol::level_matches(stored::level_of(level), value_in(value))
}

// A symbol, by its two stored bytes, matches a change.
pub fn bankplover_change_matches(first: u8, second: u8, from: u8, to: u8) -> bool
    ensures { result ≡ match_change (symbol_of first second) (or_x (read_byte from)) (or_x (read_byte to)) }
{
    symbol::change_matches(
        stored::symbol_of(first, second),
        value_in(from),
        value_in(to),
    )
}

// A lent table is well formed.
pub fn bankplover_well_formed(area: &[u8]) -> bool
    ensures { result ≡ well_formed area.now }
{
    formed::well_formed(area)
}

// The output of an order, as a byte.
pub fn bankplover_evaluate(
    area: &[u8],
    prev: &[u8],
    cur: &[u8],
    old: u8,
    order: &[u8],
    answer: &mut usize,
) -> u8
    ensures value { result ≡ number_in (evaluated area.now prev.now cur.now old order.now) }
    ensures told { answer.new ≡ told_in byte_of (evaluated area.now prev.now cur.now old order.now) }
{
    let output = evaluation::evaluate(area, prev, cur, old, order);
    tell(output.map(|v| usize::from(v.to_byte())), answer)
}

// Reads one primitive into an area.
pub fn bankplover_read(text: &[u8], start: usize, area: &mut [u8], answer: &mut usize) -> u8
    ensures { read_told (length text.now) (read_into text.now start area.old) ≡ told result answer.new area.new }
{
    match reading::read(text, start, area) {
        Ok(Some(next)) => {
            *answer = next;
            0
        }
        Ok(None) => {
            *answer = text.len();
            END
        }
        Err(refusal) => refuse(refusal, answer),
    }
}

#[tactic(auto, unfolding(crate::specs::Books::witness_number))]
fn witness_numbers(finding: Finding) -> [usize; WITNESS]
    ensures { result ≡ listed (witness_number finding) 8 }
{
    match finding {
        Finding::Independent => [0; WITNESS],
        Finding::Dependent(w) => [
            usize::from(w.first),
            usize::from(w.second),
            w.previous,
            usize::from(w.first_now.to_byte()),
            usize::from(w.second_now.to_byte()),
            usize::from(w.old.to_byte()),
            usize::from(w.first_output.to_byte()),
            usize::from(w.second_output.to_byte()),
        ],
    }
}

// Judges a table.
pub fn bankplover_judge(area: &[u8], witness: &mut [usize; WITNESS], answer: &mut usize) -> u8
    ensures { JudgeTold area.now result answer.new witness.old witness.new }
{
    match judge::judge(area) {
        Ok(finding) => {
            *answer = usize::from(letter_of(finding));
            *witness = witness_numbers(finding);
            0
        }
        Err(refusal) => refuse(refusal, answer),
    }
}

#[tactic(auto, unfolding(crate::specs::Judges::bit_of, crate::specs::Judges::bit))]
fn bit_of(s: &[[bool; base::INPUTS]; base::INPUTS], k: usize) -> u8
    requires { k < 81 }
    ensures { result ≡ bit_of s.now k }
{
    u8::from(s[k / base::INPUTS][k % base::INPUTS])
}

// The pairwise answers.
pub fn bankplover_square(area: &[u8], square: &mut [u8; SQUARE], answer: &mut usize) -> u8
    ensures value { result ≡ cond (well_formed area.now) 0 10 }
    ensures cells { square.new ≡ square_cells area.now square.old }
    ensures told { answer.new ≡ 0 }
{
    *answer = 0;
    let s = judge::square(area);
    // A square whose diagonal is no belongs to no table.
    if !s[0][0] {
        return Fault::Area.number();
    }
    let mut cells = [0u8; SQUARE];
    for k in 0..SQUARE {
        cells[k] = bit_of(&s, k);
    }
    *square = cells;
    0
}

// Opens a book of which `stated` bytes count.
#[tactic(auto, unfolding(crate::specs::Books::opened_cells))]
pub fn bankplover_open(
    book: &[u8],
    stated: usize,
    opened: &mut [usize; OPENED],
    answer: &mut usize,
) -> u8
    ensures value { result ≡ number_in (opened_of book.now stated) }
    ensures told { answer.new ≡ told_in entries_in (opened_of book.now stated) }
    ensures cells { opened.new ≡ opened_cells opened.old (opened_of book.now stated) }
{
    match book::open_book(book, stated) {
        Ok(good) => {
            *answer = good.entries;
            *opened = [good.entries, good.good, good.torn];
            0
        }
        Err(refusal) => refuse(refusal, answer),
    }
}

#[tactic(auto, unfolding(crate::specs::Books::small_of))]
fn small(k: usize) -> u8
    ensures { result ≡ small_of k }
{
    u8::try_from(k).unwrap_or(0)
}

#[tactic(auto, unfolding(crate::specs::Books::says_value))]
fn says_value(l: &[usize; WITNESS], k: usize) -> bool
    requires { k < 8 }
    ensures { result ≡ says_value l.now k }
{
    Ternary::from_byte(small(l[k])).is_some()
}

fn value_said(l: &[usize; WITNESS], k: usize) -> Ternary
    requires { k < 8 }
    ensures { result ≡ value_said l.now k }
{
    value_in(small(l[k]))
}

#[tactic(auto, unfolding(crate::specs::Books::says_finding))]
fn says_finding(letter: u8, l: &[usize; WITNESS]) -> bool
    ensures { result ≡ says_finding letter l.now }
{
    letter == b'I'
        || letter == b'D'
            && says_value(l, 3)
            && says_value(l, 4)
            && says_value(l, 5)
            && says_value(l, 6)
            && says_value(l, 7)
}

#[tactic(auto, unfolding(crate::specs::Books::witness_from))]
fn witness_from(l: &[usize; WITNESS]) -> Witness
    ensures { result ≡ witness_from l.now }
{
    Witness {
        first: small(l[0]),
        second: small(l[1]),
        previous: l[2],
        first_now: value_said(l, 3),
        second_now: value_said(l, 4),
        old: value_said(l, 5),
        first_output: value_said(l, 6),
        second_output: value_said(l, 7),
    }
}

fn finding_from(letter: u8, l: &[usize; WITNESS]) -> Finding
    ensures { result ≡ finding_from letter l.now }
{
    if letter == b'I' {
        return Finding::Independent;
    }
    Finding::Dependent(witness_from(l))
}

// A finding that says nothing is handed on with no inputs, so that it does not fit.
#[tactic(auto, unfolding(crate::specs::Books::handed))]
fn verdict_from<'a>(
    name: &'a [u8],
    inputs: usize,
    rows: usize,
    letter: u8,
    witness: &[usize; WITNESS],
) -> Verdict<'a>
    ensures { handed_over result ≡ handed name.now inputs rows letter witness.now }
{
    Verdict {
        name,
        inputs: if says_finding(letter, witness) {
            inputs
        } else {
            0
        },
        rows,
        finding: finding_from(letter, witness),
    }
}

// Appends a verdict.
pub fn bankplover_append(
    book: &mut [u8],
    stated: usize,
    name: &[u8],
    inputs: usize,
    rows: usize,
    finding: u8,
    witness: &[usize; WITNESS],
    answer: &mut usize,
) -> u8
    ensures value { result ≡ number_in (appended book.old stated (handed name.now inputs rows finding witness.now)).answer }
    ensures bytes { book.new ≡ (appended book.old stated (handed name.now inputs rows finding witness.now)).bytes }
    ensures told { answer.new ≡ told_in (λ n. n) (appended book.old stated (handed name.now inputs rows finding witness.now)).answer }
{
    let verdict = verdict_from(name, inputs, rows, finding, witness);
    tell(book::append(book, stated, verdict), answer)
}

fn letter_of(finding: Finding) -> u8
    ensures { result ≡ letter_of finding }
{
    match finding {
        Finding::Independent => b'I',
        Finding::Dependent(_) => b'D',
    }
}

#[tactic(auto, unfolding(crate::specs::Books::entry_number))]
fn entry_numbers(e: book::Entry) -> [usize; ENTRY]
    ensures { result ≡ listed (entry_number e) 13 }
{
    let letter = usize::from(letter_of(e.finding));
    let [
        first,
        second,
        previous,
        first_now,
        second_now,
        old,
        first_output,
        second_output,
    ] = witness_numbers(e.finding);
    [
        e.name_at,
        e.name_length,
        e.inputs,
        e.rows,
        letter,
        first,
        second,
        previous,
        first_now,
        second_now,
        old,
        first_output,
        second_output,
    ]
}

// Fetches entry k, counted from 1.
#[tactic(auto, unfolding(crate::specs::Books::entry_cells))]
pub fn bankplover_fetch(
    book: &[u8],
    stated: usize,
    k: usize,
    entry: &mut [usize; ENTRY],
    answer: &mut usize,
) -> u8
    ensures value { result ≡ number_in (fetched book.now stated k) }
    ensures cells { entry.new ≡ entry_cells entry.old (fetched book.now stated k) }
    ensures told { answer.new ≡ told_in name_place (fetched book.now stated k) }
{
    match book::fetch(book, stated, k) {
        Ok(e) => {
            *answer = e.name_at;
            *entry = entry_numbers(e);
            0
        }
        Err(refusal) => refuse(refusal, answer),
    }
}
