#![tactic(auto)]

ghost use Rattle.std.specs.Prelude.{◌≡◌, ◌<◌, ◌≤◌, get_or};
ghost use Rattle.value.specs.declared.Ternary.TheVariants.{V0};
ghost use Rattle.symbol.specs.Match.{match_field};
ghost use Rattle.table.specs.Table.{row_at, symbol_at};
ghost use Rattle.table.specs.Match.{field_of, row_matches};
ghost use Rattle.table.specs.Area.{decode};
ghost use Rattle.orders.specs.Vectors.{at, put};
ghost use Rattle.orders.specs.Order.{eval_order};
ghost use Rattle.step.specs.Step.{row_with, answer_of, step_of};

use symbol::Field;
use value::Ternary;

// The value in a column, 0 past the last.
fn value_in(v: [Ternary; base::INPUTS], k: usize) -> Ternary
    ensures { result ≡ get_or v k V0 }
{
    v.get(k).copied().unwrap_or(Ternary::ZERO)
}

// The value of input j, counted from 1.
fn value_of(v: [Ternary; base::INPUTS], j: usize) -> Ternary
    ensures { result ≡ at v j }
{
    if j == 0 {
        return Ternary::ZERO;
    }
    value_in(v, j - 1)
}

// The vector with input j at the value y.
fn with_value(mut v: [Ternary; base::INPUTS], j: usize, y: Ternary) -> [Ternary; base::INPUTS]
    ensures { result ≡ put v j y }
{
    if (1..=base::INPUTS).contains(&j) {
        v[j - 1] = y;
    }
    v
}

// What rows are matched against: the inputs' values, the column offered as a change and what it changes from, the old output.
#[derive(Clone, Copy)]
struct Offer {
    values: [Ternary; base::INPUTS],
    column: usize,
    from: Ternary,
    old: Ternary,
}

impl Offer {
    #[tactic(auto, unfolding(table::specs::Match::field_of))]
    fn matches_column(&self, a: &[u8], i: usize, k: usize) -> bool
        ensures { let o = self.now in result ≡ match_field (field_of (symbol_at (row_at (decode a.now) i) k) o.values o.column o.from k) }
    {
        symbol::matches(Field {
            symbol: table::symbol_in(a, i, k),
            before: self.from,
            current: value_in(self.values, k),
            considered: k == self.column,
        })
    }

    fn matches_row(&self, a: &[u8], i: usize) -> bool
        ensures { let t = decode a.now in let o = self.now in result ≡ row_matches t.inputs (row_at t i) o.values o.column o.from o.old }
    {
        (0..table::inputs(a)).all(|k| self.matches_column(a, i, k))
            & symbol::level_matches(table::state_in(a, i), self.old)
    }

    fn first_row(&self, a: &[u8]) -> Option<usize>
        ensures { let o = self.now in result ≡ row_with (decode a.now) o.values o.column o.from o.old }
    {
        (0..table::rows(a)).find(|i| self.matches_row(a, *i))
    }
}

// Input j has changed from `from`; v has it at its current value and all others at their previous one.
fn answer(a: &[u8], v: [Ternary; base::INPUTS], j: usize, from: Ternary, old: Ternary) -> Ternary
    requires { 1 ≤ j }
    ensures { result ≡ answer_of (decode a.now) v j from old }
{
    let no_column = table::inputs(a);
    let changed = j - 1;
    let level = Offer {
        values: v,
        column: no_column,
        from,
        old,
    };
    let edge = Offer {
        column: changed,
        ..level
    };
    match level.first_row(a).or_else(|| edge.first_row(a)) {
        Some(i) => symbol::result_of(table::output_in(a, i), old),
        None => Ternary::X,
    }
}

// One step: input j is considered.
#[tactic(auto, using(crate::proofs::Bridge::step_none), unfolding(crate::specs::Step::step_of, value::specs::Value::same_value, value::specs::Value::rank_of))]
fn step(
    a: &[u8],
    prev: [Ternary; base::INPUTS],
    cur: [Ternary; base::INPUTS],
    j: usize,
    old: Ternary,
) -> Ternary
    ensures { result ≡ step_of (decode a.now) prev cur j old }
{
    let from = value_of(prev, j);
    let to = value_of(cur, j);
    if from == to || j == 0 {
        return old;
    }
    answer(a, with_value(prev, j, to), j, from, old)
}

// An order: its first number is considered, then the rest of the list follows.
pub fn follow(
    a: &[u8],
    prev: [Ternary; base::INPUTS],
    cur: [Ternary; base::INPUTS],
    old: Ternary,
    order: &[u8],
) -> Ternary
    ensures { result ≡ eval_order (step_of (decode a.now)) prev cur old order.now }
{
    let [first, rest @ ..] = order else {
        return old;
    };
    let j = usize::from(*first);
    let output = step(a, prev, cur, j, old);
    let next = with_value(prev, j, value_of(cur, j));
    follow(a, next, cur, output, rest)
}
