#![tactic(auto)]

// What one declaration says: its word, the output's name, the starting value.
ghost use Rattle.std.specs.Prelude.{◌≡◌, not, ◌||◌, false, List, ℕ, drop, is_ok, MatchOption};
ghost use Rattle.text.specs.Words.{member};
ghost use Rattle.text.specs.Reader.{word};
ghost use Rattle.text.specs.Places.{ended, stood};
ghost use Rattle.grammar.specs.Header.{declaring, constant, none_left, initial};
ghost use Rattle.declaration.specs.Declaration.{declare as declareAs, digit, declaring_word, starting_at};

use refusal::{Fault, Refusal};
use text::Step;
use value::Ternary;

// The words among the declarations.
#[derive(Clone, Copy, PartialEq, Eq)]
pub enum Declaring {
    Output,
    Reg,
    Input,
    Initial,
    Table,
}

// The name q, where its flag is down, and a semicolon; the flag goes up.
#[tactic(auto, unfolding(crate::specs::Declaration::declare))]
pub fn declare(text: &[u8], at: usize, q: &[u8], flag: &mut bool) -> Result<usize, Refusal>
    ensures said { declareAs q.now (not flag.old) at (drop at text.now) ≡ ended text.now 59 result }
    ensures raised { flag.new ≡ (is_ok result || flag.old) }
{
    let name = text::read_name(text, at)?;
    let is_fresh = (name.of(text) == q) & !*flag;
    if !is_fresh {
        return Err(Fault::Port.at(name.start));
    }
    let end = text::read_mark(text, name.end, b';')?;
    *flag = true;
    Ok(end)
}

// A byte of V: 0, 1, x.
#[tactic(auto, unfolding(crate::specs::Declaration::digit))]
fn read_digit(text: &[u8], at: usize) -> Step<Ternary>
    ensures { digit at (drop at text.now) ≡ stood text.now (λ v. v) result }
{
    if text.len() <= at {
        return Err(text::fault_at(text, at));
    }
    match text[at] {
        b'0' => Ok((Ternary::ZERO, at + 1)),
        b'1' => Ok((Ternary::ONE, at + 1)),
        b'x' | b'X' => Ok((Ternary::X, at + 1)),
        _ => Err(text::fault_at(text, at)),
    }
}

// V: 0, 1, 1'b0, 1'b1, 1'bx.
#[tactic(auto, unfolding(grammar::specs::Header::constant))]
fn read_constant(text: &[u8], at: usize) -> Step<Ternary>
    ensures { constant at (drop at text.now) ≡ stood text.now (λ v. v) result }
{
    if text::one_at(text, at, b'0') {
        return Ok((Ternary::ZERO, at + 1));
    }
    if !text::one_at(text, at, b'1') {
        return Err(text::fault_at(text, at));
    }
    if !text::one_at(text, at + 1, b'\'') {
        return Ok((Ternary::ONE, at + 1));
    }
    if text::one_at(text, at + 2, b'b') | text::one_at(text, at + 2, b'B') {
        return read_digit(text, at + 3);
    }
    Err(text::fault_at(text, at + 2))
}

impl Declaring {
    // The declaration that a word begins.
    #[tactic(auto, using(text::proofs::Wordlaws::same_as))]
    fn of(word: &[u8]) -> Option<Declaring>
        ensures { MatchOption result (member word.now declaring ≡ false) (λ d. word.now ≡ declaring_word d) }
    {
        if word == b"output".as_slice() {
            Some(Declaring::Output)
        } else if word == b"reg".as_slice() {
            Some(Declaring::Reg)
        } else if word == b"input".as_slice() {
            Some(Declaring::Input)
        } else if word == b"initial".as_slice() {
            Some(Declaring::Initial)
        } else if word == b"table".as_slice() {
            Some(Declaring::Table)
        } else {
            None
        }
    }
}

// One of the words among the declarations.
#[tactic(auto, unfolding(text::specs::Reader::word))]
pub fn read_declaring(text: &[u8], at: usize) -> Step<Declaring>
    ensures { word (λ w. member w declaring) at (drop at text.now) ≡ stood text.now declaring_word result }
{
    let end = text::word_end(text, at);
    match Declaring::of(text::part(text, at, end)) {
        Some(declaring) => Ok((declaring, end)),
        None => Err(text::fault_at(text, at)),
    }
}

// `initial` is read and stood at p; `none` tells that no port is left undeclared.
#[tactic(auto, unfolding(grammar::specs::Header::initial))]
pub fn read_initial(
    text: &[u8],
    at: usize,
    q: &[u8],
    none: bool,
    reg: bool,
    p: usize,
) -> Step<Ternary>
    ensures { (left : List (List ℕ)) → none_left left ≡ none → initial q.now left reg p at (drop at text.now)
        ≡ stood text.now starting_at result }
{
    if !reg {
        return Err(Fault::Unexpected.at(p));
    }
    if !none {
        return Err(Fault::Port.at(p));
    }
    let name = text::read_name(text, at)?;
    let is_output = name.of(text) == q;
    if !is_output {
        return Err(Fault::Port.at(name.start));
    }
    let i = text::read_mark(text, name.end, b'=')?;
    let (start, j) = read_constant(text, text::skip_from(text, i))?;
    let k = text::read_mark(text, j, b';')?;
    let end = text::read_keyword(text, k, b"table")?;
    Ok((start, end))
}
