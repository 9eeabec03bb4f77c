#![tactic(auto)]

// What the programs share: the next verdict of a library's text, and whether it stands in a book.
ghost use Rattle.std.specs.Prelude.{◌≡◌, ◌+◌, get_or};
ghost use Rattle.handed.specs.Handed.{handed};
ghost use Rattle.listing.specs.Next.{NextIs, stands_in};

use handed::Verdict;
use refusal::Refusal;
use verdict::Finding;

// Reads the next primitive into the area and judges it: its finding and the place behind it, or none at the text's end.
// Stays: a text, a place and an area are three arguments, as in `reading::read`; a struct of them would be taken apart at once, which is no plainer.
pub fn next_verdict(
    text: &[u8],
    start: usize,
    area: &mut [u8],
) -> Result<Option<(Finding, usize)>, Refusal>
    ensures { NextIs text.now start area.old result area.new }
{
    match reading::read(text, start, area)? {
        Some(next) => {
            let finding = judge::judge(area)?;
            Ok(Some((finding, next)))
        }
        None => Ok(None),
    }
}

// The byte at a place behind another, zero past the end.
fn byte_behind(book: &[u8], at: usize, k: usize) -> u8
    ensures { result ≡ get_or book.now (at + k) 0 }
{
    let rest = &book[at.min(book.len())..];
    rest.get(k).copied().unwrap_or(0)
}

// So many bytes of a verdict's line stand in the book from `at` on.
pub fn stands(book: &[u8], at: usize, verdict: Verdict, size: usize) -> bool
    ensures { result ≡ stands_in book.now at (handed verdict.entry) size }
{
    (0..size).all(|k| byte_behind(book, at, k) == entry::line_byte(verdict, at, k))
}
