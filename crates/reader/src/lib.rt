#![tactic(auto)]

// A reader bound to the lent book: it walks from the last trailer back to the first entry.
ghost use Rattle.std.specs.Prelude.{◌≡◌};
ghost use Rattle.book.specs.Book.{fetched};
ghost use Rattle.backward.specs.Back.{start_before, fetched_before};

use book::Entry;
use refusal::Refusal;

// `at` is the end of the entry that is next on the way back.
#[derive(Clone, Copy)]
pub struct Reader<'a> {
    pub book: &'a [u8],
    pub at: usize,
}

impl<'a> Reader<'a> {
    // A reader at the end of the last entry: `good` is the good length that opening answers.
    pub fn new(book: &'a [u8], good: usize) -> Reader<'a>
        ensures { (result.book ≡ book.entry) × (result.at ≡ good) }
    {
        Reader { book, at: good }
    }

    // The entry that ends where the reader stands.
    pub fn last(self) -> Result<Entry, Refusal>
        ensures { result ≡ fetched_before self.entry.book.now self.entry.at }
    {
        backward::entry_before(self.book, self.at)
    }

    // Where that entry starts.
    pub fn start(self) -> usize
        ensures { result ≡ start_before self.entry.book.now self.entry.at }
    {
        backward::start_before(self.book, self.at)
    }

    // The same reader at another place.
    pub fn moved(self, at: usize) -> Reader<'a>
        ensures { (result.book ≡ self.entry.book) × (result.at ≡ at) }
    {
        Reader { at, ..self }
    }

    // The reader one entry back.
    pub fn back(self) -> Reader<'a>
        ensures { (result.book ≡ self.entry.book) × (result.at ≡ start_before self.entry.book.now self.entry.at) }
    {
        self.moved(self.start())
    }

    // Entry k, counted from 1, of the entries up to where the reader stands.
    pub fn fetch(self, k: usize) -> Result<Entry, Refusal>
        ensures { result ≡ fetched self.entry.book.now self.entry.at k }
    {
        book::fetch(self.book, self.at, k)
    }
}
