#![tactic(auto)]

// Byte classes, blanks and comments, words and names of the text.
ghost use Rattle.std.specs.Prelude.{◌≡◌, true, cond, drop};
ghost use Rattle.text.specs.Bytes.{class_of, num_of, is_blank, starts, in_name, is_symbol};
ghost use Rattle.text.specs.Words.{member, keywords, all_in_name, is_name, name_fits};
ghost use Rattle.text.specs.Blanks.{one, to_line, to_close, gap, endless};
ghost use Rattle.text.specs.Reader.{got, skip, run, mark, either_mark, keyword, name};
ghost use Rattle.text.specs.Places.{part as part_of, ended, stood, named};
ghost use Rattle.refusal.specs.declared.Fault.TheVariants.{OpenComment, Unexpected};

use refusal::{Fault, Refusal};

// What a reading step reads, and the place behind it.
pub type Step<T> = Result<(T, usize), Refusal>;

// A word of the text, by where it stands.
#[derive(Clone, Copy)]
pub struct Span {
    pub start: usize,
    pub end: usize,
}

// The class of each byte, as the number that specs/Bytes.antt has for it.
// Stays: `num_of` of specs/Bytes and `classes_ruled`, which tests the whole table, hold these numbers, of which each question asks a range.
static CLASSES: [u8; 256] = [
    6, 6, 6, 6, 6, 6, 6, 6, 6, 5, 5, 6, 5, 5, 6, 6, 6, 6, 6, 6, 6, 6, 6, 6, 6, 6, 6, 6, 6, 6, 6, 6,
    5, 6, 6, 6, 0, 6, 6, 6, 4, 6, 4, 6, 6, 4, 6, 6, 3, 3, 0, 0, 0, 0, 0, 0, 0, 0, 6, 6, 6, 6, 6, 4,
    6, 1, 2, 1, 1, 1, 2, 1, 1, 1, 1, 1, 1, 1, 2, 1, 2, 1, 2, 1, 1, 1, 1, 1, 2, 1, 1, 6, 6, 6, 6, 1,
    6, 1, 2, 1, 1, 1, 2, 1, 1, 1, 1, 1, 1, 1, 2, 1, 2, 1, 2, 1, 1, 1, 1, 1, 2, 1, 1, 6, 6, 6, 6, 6,
    6, 6, 6, 6, 6, 6, 6, 6, 6, 6, 6, 6, 6, 6, 6, 6, 6, 6, 6, 6, 6, 6, 6, 6, 6, 6, 6, 6, 6, 6, 6, 6,
    6, 6, 6, 6, 6, 6, 6, 6, 6, 6, 6, 6, 6, 6, 6, 6, 6, 6, 6, 6, 6, 6, 6, 6, 6, 6, 6, 6, 6, 6, 6, 6,
    6, 6, 6, 6, 6, 6, 6, 6, 6, 6, 6, 6, 6, 6, 6, 6, 6, 6, 6, 6, 6, 6, 6, 6, 6, 6, 6, 6, 6, 6, 6, 6,
    6, 6, 6, 6, 6, 6, 6, 6, 6, 6, 6, 6, 6, 6, 6, 6, 6, 6, 6, 6, 6, 6, 6, 6, 6, 6, 6, 6, 6, 6, 6, 6,
];

fn class_of(b: u8) -> u8
    ensures { result ≡ num_of (class_of b) }
{
    CLASSES[usize::from(b)]
}

fn is_blank(b: u8) -> bool
    ensures { result ≡ is_blank b }
{
    class_of(b) == 5
}

// What a name starts with.
fn starts_name(b: u8) -> bool
    ensures { result ≡ starts b }
{
    let class = class_of(b);
    (1 <= class) & (class < 3)
}

// What a name goes on with.
fn in_name(b: u8) -> bool
    ensures { result ≡ in_name b }
{
    class_of(b) < 4
}

// What a table symbol begins with.
pub fn is_symbol(b: u8) -> bool
    ensures { result ≡ is_symbol b }
{
    let class = class_of(b);
    (2 <= class) & (class < 5)
}

// The words that are no names.
static KEYWORDS: [&[u8]; 8] = [
    b"primitive",
    b"output",
    b"input",
    b"reg",
    b"initial",
    b"table",
    b"endtable",
    b"endprimitive",
];

pub fn is_keyword(w: &[u8]) -> bool
    ensures { result ≡ member w.now keywords }
{
    KEYWORDS.contains(&w)
}

// A name goes on with each of the bytes.
fn all_in_name(s: &[u8]) -> bool
    ensures { result ≡ all_in_name s.now }
{
    s.iter().all(|b| in_name(*b))
}

#[tactic(auto, using(crate::proofs::Wordlaws::name_nil, crate::proofs::Wordlaws::name_rest))]
pub fn is_name(s: &[u8]) -> bool
    ensures { result ≡ is_name s.now }
{
    match s {
        [first, others @ ..] if starts_name(*first) => all_in_name(others) && !is_keyword(s),
        _ => false,
    }
}

// A run of name bytes is a name by its first byte, unless it is one of the words.
#[tactic(auto, using(crate::proofs::Wordlaws::name_nil, crate::proofs::Wordlaws::name_run))]
fn run_is_name(w: &[u8]) -> bool
    requires { all_in_name w.now ≡ true }
    ensures { result ≡ is_name w.now }
{
    match w {
        [first, ..] if starts_name(*first) => !is_keyword(w),
        _ => false,
    }
}

// A name that is not too long.
#[tactic(auto, unfolding(crate::specs::Words::name_fits))]
pub fn name_fits(s: &[u8]) -> bool
    ensures { result ≡ name_fits s.now }
{
    s.len() <= base::NAME && is_name(s)
}

// The text from a place on.
fn rest(text: &[u8], at: usize) -> &[u8]
    ensures { result.now ≡ drop at text.now }
{
    &text[at.min(text.len())..]
}

// The text begins at a place with the byte c.
pub fn one_at(text: &[u8], at: usize, c: u8) -> bool
    ensures { result ≡ one c (drop at text.now) }
{
    text.get(at) == Some(&c)
}

// The bytes before the LF.
fn to_line(s: &[u8]) -> usize
    ensures { result ≡ to_line s.now }
{
    s.iter().take_while(|b| **b != b'\n').count()
}

// The bytes up to and with the end of a comment.
fn to_close(s: &[u8]) -> Option<usize>
    ensures { result ≡ to_close s.now }
{
    for i in 0..s.len() {
        if rest(s, i).starts_with(b"*/") {
            return Some(i + 2);
        }
    }
    None
}

// The length of the blank or the comment that a text begins with.
fn gap(s: &[u8]) -> usize
    ensures { result ≡ gap s.now }
{
    match s {
        [b, ..] if is_blank(*b) => 1,
        [b'/', b'/', line @ ..] => 2 + to_line(line),
        [b'/', b'*', comment @ ..] => match to_close(comment) {
            Some(m) => 2 + m,
            None => 0,
        },
        _ => 0,
    }
}

// Past blanks and comments, one after the other.
fn skip_gaps(text: &[u8], at: usize) -> usize
    ensures { skip at (drop at text.now) ≡ got tt result (drop result text.now) }
{
    let mut i = at;
    // Stays: the next place is as far as the gap is long, which no `for` and no iterator says.
    loop {
        if text.len() <= i {
            return i;
        }
        match gap(&text[i..]) {
            0 => return i,
            g => i += g,
        }
    }
}

// Past one space or LF: most gaps are no more than that.
fn past_one(text: &[u8], at: usize) -> usize
    ensures { skip at (drop at text.now) ≡ skip result (drop result text.now) }
{
    if one_at(text, at, b' ') | one_at(text, at, b'\n') {
        return at + 1;
    }
    at
}

// Past blanks and comments; behind the space only `/` can begin either.
pub fn skip_from(text: &[u8], at: usize) -> usize
    ensures { skip at (drop at text.now) ≡ got tt result (drop result text.now) }
{
    let i = past_one(text, at);
    match text.get(i) {
        Some(b) if (*b <= b' ') | (*b == b'/') => skip_gaps(text, i),
        _ => i,
    }
}

// What stands at a place is not expected.
pub fn fault_at(text: &[u8], at: usize) -> Refusal
    ensures { result ≡ record { fault = cond (endless (drop at text.now)) OpenComment Unexpected; place = at } }
{
    match rest(text, at) {
        [b'/', b'*', comment @ ..] if to_close(comment).is_none() => Fault::OpenComment.at(at),
        _ => Fault::Unexpected.at(at),
    }
}

// The byte c, behind blanks.
pub fn read_mark(text: &[u8], at: usize, c: u8) -> Result<usize, Refusal>
    ensures { mark c at (drop at text.now) ≡ ended text.now c result }
{
    let i = skip_from(text, at);
    if one_at(text, i, c) {
        return Ok(i + 1);
    }
    Err(fault_at(text, i))
}

// The byte c or the byte d, behind blanks: is it c?
pub fn read_either(text: &[u8], at: usize, c: u8, d: u8) -> Step<bool>
    ensures { either_mark c d at (drop at text.now) ≡ stood text.now (λ b. b) result }
{
    let i = skip_from(text, at);
    if one_at(text, i, c) {
        return Ok((true, i + 1));
    }
    if one_at(text, i, d) {
        return Ok((false, i + 1));
    }
    Err(fault_at(text, i))
}

// The bytes from a to e, as far as the text has them.
pub fn part(text: &[u8], a: usize, e: usize) -> &[u8]
    ensures { result.now ≡ part_of text.now a e }
{
    text.get(a..e.min(text.len())).unwrap_or(&[])
}

impl Span {
    // The word itself.
    pub fn of(self, text: &[u8]) -> &[u8]
        ensures { result.now ≡ part_of text.now self.start self.end }
    {
        part(text, self.start, self.end)
    }
}

// Past the longest run of name bytes.
pub fn word_end(text: &[u8], at: usize) -> usize
    ensures { run at (drop at text.now) ≡ got (part_of text.now at result) result (drop result text.now) }
{
    at + rest(text, at).iter().take_while(|b| in_name(**b)).count()
}

// The word w, behind blanks.
pub fn read_keyword(text: &[u8], at: usize, w: &[u8]) -> Result<usize, Refusal>
    ensures { keyword w.now at (drop at text.now) ≡ ended text.now w.now result }
{
    let i = skip_from(text, at);
    let e = word_end(text, i);
    if part(text, i, e) == w {
        return Ok(e);
    }
    Err(fault_at(text, i))
}

// A name, behind blanks.
pub fn read_name(text: &[u8], at: usize) -> Result<Span, Refusal>
    ensures { name at (drop at text.now) ≡ named text.now result }
{
    let start = skip_from(text, at);
    let end = word_end(text, start);
    let word = part(text, start, end);
    if !run_is_name(word) {
        return Err(fault_at(text, start));
    }
    if base::NAME < word.len() {
        return Err(Fault::LongName.at(start));
    }
    Ok(Span { start, end })
}
