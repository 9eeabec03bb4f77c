#![tactic(auto)]

// The way back through a book: the last trailer points to where its entry starts, and so on to the first.
ghost use Rattle.std.specs.Prelude.{◌≡◌, ◌-◌};
ghost use Rattle.backward.specs.Back.{number_said, pointed, start_before, fetched_before};

use book::Entry;
use refusal::{Fault, Refusal};

// What a byte counts for as a digit.
fn figure(b: u8) -> usize
    ensures { result ≡ b - 48 }
{
    usize::from(b.saturating_sub(b'0'))
}

// The number that five digits say.
fn number_of(a: u8, b: u8, c: u8, d: u8, e: u8) -> usize
    ensures { result ≡ number_said a b c d e }
{
    (((figure(a) * 10 + figure(b)) * 10 + figure(c)) * 10 + figure(d)) * 10 + figure(e)
}

// Where the trailer that ends before place `at` points.
// Stays: 0 for a trailer that cannot be there is what `pointed` says, and `start_before` answers for every place.
#[tactic(auto, unfolding(crate::specs::Back::pointed))]
fn pointed_to(book: &[u8], at: usize) -> usize
    ensures { result ≡ pointed book.now at }
{
    if at < 6 || book.len() < at {
        return 0;
    }
    number_of(
        book[at - 6],
        book[at - 5],
        book[at - 4],
        book[at - 3],
        book[at - 2],
    )
}

// Where the entry that ends at place `at` starts; never past `at`.
#[tactic(auto, unfolding(crate::specs::Back::start_before))]
pub fn start_before(book: &[u8], at: usize) -> usize
    ensures { result ≡ start_before book.now at }
{
    let s = pointed_to(book, at);
    if s < at { s } else { 0 }
}

// The entry that ends at place `at`.
#[tactic(auto, using(crate::proofs::Way::start_less), unfolding(crate::specs::Back::fetched_before))]
pub fn entry_before(book: &[u8], at: usize) -> Result<Entry, Refusal>
    ensures { result ≡ fetched_before book.now at }
{
    if at == 0 || book.len() < at {
        return Err(Fault::NoEntry.at(0));
    }
    let s = start_before(book, at);
    let no_lf = book[at - 1] != b'\n';
    if no_lf || !line::is_entry(&book[s..at - 1], s) {
        return Err(Fault::Book.at(s));
    }
    Ok(book::entry_in(book, s, at - 1))
}
