#![tactic(auto)]

// A verdict as calls hand it over: the vector that a witness numbers, and whether the verdict fits the layout.
ghost use Rattle.std.specs.Prelude.{◌≡◌, get_or};
ghost use Rattle.value.specs.declared.Ternary.TheVariants.{V0};
ghost use Rattle.orders.specs.Vectors.{at, vector_of};
ghost use Rattle.handed.specs.Handed.{handed, thirds, witness_fits, finding_fits, fits_layout};

use value::Ternary;
use verdict::{Finding, Witness};

// A verdict that lends its name.
#[derive(Clone, Copy)]
pub struct Verdict<'a> {
    pub name: &'a [u8],
    pub inputs: usize,
    pub rows: usize,
    pub finding: Finding,
}

impl Verdict<'_> {
    // Whether the book's layout has room for it.
    #[tactic(auto, unfolding(crate::specs::Handed::fits_layout))]
    pub fn fits(self) -> bool
        ensures { result ≡ fits_layout (handed self.entry) }
    {
        text::name_fits(self.name)
            && (1..=base::INPUTS).contains(&self.inputs)
            && (1..=base::ROWS).contains(&self.rows)
            && finding_fits(self.inputs, self.finding)
    }
}

fn divide(c: usize, m: usize) -> usize
    ensures { result ≡ thirds c m }
{
    let mut x = c;
    for k in 0..m {
        x /= 3;
    }
    x
}

// Place k of the vector that c numbers.
#[tactic(auto, using(crate::proofs::Thirds::vector_at, crate::proofs::Thirds::vector_past))]
pub fn value_at(n: usize, c: usize, k: usize) -> Ternary
    ensures { result ≡ get_or (vector_of n c) k V0 }
{
    if n <= k {
        return Ternary::ZERO;
    }
    Ternary::from_rank(divide(c, n - 1 - k) % 3)
}

// Input j of that vector, counted from 1.
#[tactic(auto, using(crate::proofs::Thirds::input_is))]
fn input_at(n: usize, c: usize, j: usize) -> Ternary
    ensures { result ≡ at (vector_of n c) j }
{
    if j == 0 {
        return Ternary::ZERO;
    }
    value_at(n, c, j - 1)
}

fn witness_fits(n: usize, w: Witness) -> bool
    ensures { result ≡ witness_fits n w }
{
    let i = usize::from(w.first);
    let j = usize::from(w.second);
    let changed_first = input_at(n, w.previous, i) != w.first_now;
    let changed_second = input_at(n, w.previous, j) != w.second_now;
    let differ = w.first_output != w.second_output;
    let apart = (1 <= i) & (i < j) & (j <= n);
    apart & (divide(w.previous, n) == 0) & changed_first & changed_second & differ
}

#[tactic(auto, unfolding(crate::specs::Handed::finding_fits))]
fn finding_fits(n: usize, finding: Finding) -> bool
    ensures { result ≡ finding_fits n finding }
{
    match finding {
        Finding::Independent => true,
        Finding::Dependent(w) => witness_fits(n, w),
    }
}
