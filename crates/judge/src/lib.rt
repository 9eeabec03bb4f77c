#![tactic(auto)]

ghost use Rattle.std.specs.Prelude.{◌≡◌, [], ℕ, ◌<◌, get_or};
ghost use Rattle.base.specs.Limits.{input_limit};
ghost use Rattle.base.specs.Listed.{listed};
ghost use Rattle.table.specs.Table.{Table};
ghost use Rattle.orders.specs.Verdict.{candidates};
ghost use Rattle.memo.specs.Memo.{MemoOf};
ghost use Rattle.exchange.specs.Pairs.{Tells};
ghost use Rattle.pair.specs.Search.{found};
ghost use Rattle.judge.specs.Search.{pair_first, witness_in, finding_in, yes_in, square_in};
ghost use Rattle.judge.specs.Judge.{square_for};
ghost use Rattle.judge.specs.Answer.{Right};

use memo::Memo;
use pair::Case;
use refusal::{Fault, Refusal};
use value::Ternary;
use verdict::{Finding, Witness};

// The answers of a square: row i and column j tell of inputs i + 1 and j + 1.
pub type Answers = [[bool; base::INPUTS]; base::INPUTS];

// Whether the two orders of columns i and j agree for every vector.
fn agrees(memo: &Memo, i: usize, j: usize) -> bool
    requires { (i < j) × (j < memo.now.inputs) }
    ensures { (t : Table) → MemoOf t memo.now → Tells t i j result }
{
    // Up to three inputs have no more vectors than a word has bits.
    if memo.inputs < 4 {
        return cube::pair_agrees(memo, i, j);
    }
    lanes::pair_agrees(memo, i, j)
}

// The first candidate of a pair that differs.
fn pair_first(memo: &Memo, i: usize, j: usize) -> Option<usize>
    requires { (i < j) × (j < memo.now.inputs) }
    ensures { (t : Table) → MemoOf t memo.now → result ≡ found (candidates t.inputs) (pair_first t i j) }
{
    if agrees(memo, i, j) {
        return None;
    }
    pair::first_difference(memo, i, j)
}

fn witness_at(memo: &Memo, i: usize, j: usize, r: usize) -> Witness
    requires { (i < memo.now.inputs) × (j < memo.now.inputs) }
    ensures { (t : Table) → MemoOf t memo.now → result ≡ witness_in t i j r }
{
    let previous = r / 27;
    let case = Case::of(r);
    let first_output = pair::output_at(memo, i, j, previous, case);
    let second_output = pair::output_at(memo, j, i, previous, case.turned());
    Witness {
        first: (i + 1) as u8,
        second: (j + 1) as u8,
        previous,
        first_now: Ternary::from_rank(case.first_now),
        second_now: Ternary::from_rank(case.second_now),
        old: Ternary::from_rank(case.old),
        first_output: Ternary::from_rank(first_output),
        second_output: Ternary::from_rank(second_output),
    }
}

fn finding(memo: &Memo) -> Finding
    ensures { (t : Table) → MemoOf t memo.now → result ≡ finding_in t }
{
    for i in 0..memo.inputs {
        for j in i + 1..memo.inputs {
            if let Some(r) = pair_first(memo, i, j) {
                return Finding::Dependent(witness_at(memo, i, j, r));
            }
        }
    }
    Finding::Independent
}

// The answer in row i and column j of the square; `done` has the rows before.
fn yes_at(memo: &Memo, done: &Answers, i: usize, j: usize) -> bool
    requires { (i < input_limit) × (j < input_limit) }
    ensures { (t : Table) → MemoOf t memo.now → ((k : ℕ) → k < i → get_or done.now k [] ≡ listed (yes_in t k) input_limit) →
        result ≡ yes_in t i j }
{
    if j < i {
        return done[j][i];
    }
    if j <= i {
        return true;
    }
    if memo.inputs <= j {
        return true;
    }
    agrees(memo, i, j)
}

fn square_row(memo: &Memo, done: &Answers, i: usize) -> [bool; base::INPUTS]
    requires { i < input_limit }
    ensures { (t : Table) → MemoOf t memo.now → ((k : ℕ) → k < i → get_or done.now k [] ≡ listed (yes_in t k) input_limit) →
        result ≡ listed (yes_in t i) input_limit }
{
    let mut row = [true; base::INPUTS];
    for j in 0..base::INPUTS {
        row[j] = yes_at(memo, done, i, j);
    }
    row
}

fn square_of(memo: &Memo) -> Answers
    ensures { (t : Table) → MemoOf t memo.now → result ≡ square_in t }
{
    let mut answers = [[true; base::INPUTS]; base::INPUTS];
    for i in 0..base::INPUTS {
        answers[i] = square_row(memo, &answers, i);
    }
    answers
}

// Judges a lent table: independent of the order, or the first disagreement.
pub fn judge(area: &[u8]) -> Result<Finding, Refusal>
    ensures { Right area.now result }
{
    if !formed::well_formed(area) {
        return Err(Fault::Area.at(0));
    }
    Ok(finding(&Memo::of(area)))
}

// The pairwise answers of a lent table; all false where it is not well formed.
// Stays: a call that could not fail still cannot; all false, which no table has, tells that the area is none (`square_for`).
pub fn square(area: &[u8]) -> Answers
    ensures { result ≡ square_for area.now }
{
    if !formed::well_formed(area) {
        return [[false; base::INPUTS]; base::INPUTS];
    }
    square_of(&Memo::of(area))
}
