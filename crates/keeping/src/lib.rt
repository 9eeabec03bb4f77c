#![tactic(auto)]

// What the keeper does for each primitive, on slices: count them, and compare or append the next verdict.
ghost use Rattle.std.specs.Prelude.{◌≡◌};
ghost use Rattle.table.specs.Area.{decode};
ghost use Rattle.handed.specs.Handed.{handed as told};
ghost use Rattle.keeping.specs.Keeping.{handed, Ends, Places, Settles, CountIs};

use handed::Verdict;
use refusal::Refusal;
use verdict::Finding;

// What became of the next primitive's entry: the place after the primitive, and the entry's end.
#[derive(Clone, Copy)]
pub enum Settled {
    Kept(usize, usize),
    Added(usize, usize),
    Differs,
    End,
}

// How many primitives a text has, or its first refusal.
pub fn count(text: &[u8], area: &mut [u8]) -> Result<usize, Refusal>
    ensures { CountIs text.now area.old result }
{
    let mut at: usize = 0;
    let mut n: usize = 0;
    loop {
        match reading::read(text, at, area) {
            Ok(Some(next)) => {
                at = next;
                n += 1;
            }
            Ok(None) => return Ok(n),
            // Stays: an arm in place of `?`, so that a wrong edit can change what a refusal answers and nothing else.
            Err(refusal) => return Err(refusal),
        }
    }
}

// The verdict on the table in the area.
pub fn verdict_in<'a>(area: &'a [u8], finding: Finding) -> Verdict<'a>
    ensures { told result ≡ handed (decode area.now) finding }
{
    Verdict {
        name: table::name_in(area),
        inputs: table::inputs(area),
        rows: table::rows(area),
        finding,
    }
}

// Where the verdict's line ends, if it stands in the book at a place.
fn standing_end(verdict: Verdict, book: &[u8], at: usize) -> Option<usize>
    ensures { Ends book.now at (told verdict.entry) result }
{
    let size = entry::line_length(verdict)?;
    if listing::stands(book, at, verdict, size) {
        Some(at + size)
    } else {
        None
    }
}

// Before the good length the verdict is compared with what stands there, from it on it is appended.
fn place(
    verdict: Verdict,
    next: usize,
    book: &mut [u8],
    at: usize,
    good: usize,
) -> Result<Settled, Refusal>
    ensures { Places (told verdict.entry) next book.old at good result book.new }
{
    let behind = good <= at;
    if behind {
        let end = book::append(book, at, verdict)?;
        return Ok(Settled::Added(next, end));
    }
    match standing_end(verdict, book, at) {
        Some(end) => Ok(Settled::Kept(next, end)),
        None => Ok(Settled::Differs),
    }
}

// The next primitive is read and judged, and its entry is found in the book at a place or appended there.
pub fn settle(
    text: &[u8],
    start: usize,
    area: &mut [u8],
    book: &mut [u8],
    at: usize,
    good: usize,
) -> Result<Settled, Refusal>
    ensures { Settles text.now start area.old book.old at good result book.new }
{
    let Some((finding, next)) = listing::next_verdict(text, start, area)? else {
        return Ok(Settled::End);
    };
    place(verdict_in(area, finding), next, book, at, good)
}
