#![tactic(auto)]

ghost use Rattle.std.specs.Prelude.{◌≡◌, ◌≢◌, true, ℕ, suc, ◌+◌, ◌-◌, ◌*◌, ◌/◌, ◌%◌, ◌^◌, ◌<◌, ◌≤◌};
ghost use Rattle.std.specs.Prelude.{eqb, get_or, IfSome};
ghost use Rattle.base.specs.Limits.{input_limit};
ghost use Rattle.base.specs.Search.{first};
ghost use Rattle.value.specs.Value.{rank_of, value_of};
ghost use Rattle.table.specs.Table.{Table};
ghost use Rattle.orders.specs.Verdict.{candidates};
ghost use Rattle.memo.specs.Memo.{MemoOf};
ghost use Rattle.memo.specs.Rows.{lowest, out_by, entry_of};
ghost use Rattle.memo.specs.Pair.{others_of, first_then, second_then};
ghost use Rattle.pair.specs.Search.{found, differs, differs_by, first_at, output_at};

use memo::Memo;

// A case of two columns: the values that they go to, and the old output, as value numbers.
// Stays: numbers, since the contract of `output_at` takes and gives them, and they say which mask of the memo is meant.
#[derive(Clone, Copy)]
pub struct Case {
    pub first_now: usize,
    pub second_now: usize,
    pub old: usize,
    pub ghost first_is_value: { first_now < 3 },
    pub ghost second_is_value: { second_now < 3 },
    pub ghost old_is_value: { old < 3 },
}

impl Case {
    // Case number c of the 27; candidate c has the same case.
    pub fn of(c: usize) -> Case
        ensures { (result.first_now ≡ c / 9 % 3) × (result.second_now ≡ c / 3 % 3) × (result.old ≡ c % 3) }
    {
        Case {
            first_now: c / 9 % 3,
            second_now: c / 3 % 3,
            old: c % 3,
        }
    }

    // The case of these value numbers.
    fn to(first_now: usize, second_now: usize, old: usize) -> Case
        requires { (first_now < 3) × (second_now < 3) × (old < 3) }
        ensures { (result.first_now ≡ first_now) × (result.second_now ≡ second_now) × (result.old ≡ old) }
    {
        Case {
            first_now,
            second_now,
            old,
        }
    }

    // The same case of the two columns exchanged.
    pub fn turned(self) -> Case
        ensures { (result.first_now ≡ self.second_now) × (result.second_now ≡ self.first_now) × (result.old ≡ self.old) }
    {
        Case {
            first_now: self.second_now,
            second_now: self.first_now,
            old: self.old,
        }
    }
}

// A vector as two columns see it: their values in it, and the rows that match in the other columns.
#[derive(Clone, Copy)]
struct Start {
    first: usize,
    second: usize,
    first_was: usize,
    second_was: usize,
    rest: u64,
    ghost first_in: { first < input_limit },
    ghost second_in: { second < input_limit },
    ghost first_is_value: { first_was < 3 },
    ghost second_is_value: { second_was < 3 },
}

impl Start {
    // The same of the two columns exchanged.
    fn turned(self) -> Start
        ensures { (result.first ≡ self.second) × (result.second ≡ self.first)
            × (result.first_was ≡ self.second_was) × (result.second_was ≡ self.first_was) × (result.rest ≡ self.rest) }
    {
        Start {
            first: self.second,
            second: self.first,
            first_was: self.second_was,
            second_was: self.first_was,
            rest: self.rest,
        }
    }
}

// Two columns of a memo, and what each weighs in a vector's number.
#[derive(Clone, Copy)]
struct Columns {
    first: usize,
    second: usize,
    first_weight: usize,
    second_weight: usize,
    ghost first_in: { first < input_limit },
    ghost second_in: { second < input_limit },
    ghost first_weighs: { 0 < first_weight },
    ghost second_weighs: { 0 < second_weight },
}

impl Columns {
    fn of(memo: &Memo, i: usize, j: usize) -> Columns
        requires { (i < memo.now.inputs) × (j < memo.now.inputs) }
        ensures { (result.first ≡ i) × (result.second ≡ j)
            × (result.first_weight ≡ 3 ^ (memo.now.inputs - (i + 1))) × (result.second_weight ≡ 3 ^ (memo.now.inputs - (j + 1))) }
    {
        Columns {
            first: i,
            second: j,
            first_weight: power(memo.inputs - (i + 1)),
            second_weight: power(memo.inputs - (j + 1)),
        }
    }

    // Vector number v as the two columns see it.
    fn at(self, memo: &Memo, v: usize) -> Start
        ensures { (result.first ≡ self.first) × (result.second ≡ self.second)
            × (result.first_was ≡ v / self.first_weight % 3) × (result.second_was ≡ v / self.second_weight % 3)
            × (result.rest ≡ others_of memo.now.cells memo.now.all self.first self.second memo.now.inputs v) }
    {
        Start {
            first: self.first,
            second: self.second,
            first_was: v / self.first_weight % 3,
            second_was: v / self.second_weight % 3,
            rest: others_of(memo, self.first, self.second, memo.inputs, v),
        }
    }
}

// The rows that match vector number v in each of the first k columns but i and j.
#[tactic(auto, unfolding(memo::specs::Rows::cell_at))]
fn others_of(memo: &Memo, i: usize, j: usize, k: usize, v: usize) -> u64
    requires { k ≤ suc input_limit }
    ensures { result ≡ others_of memo.now.cells memo.now.all i j k v }
{
    if k == 0 {
        return memo.all;
    }
    let q = k - 1;
    let before = others_of(memo, i, j, q, v / 3);
    if (q == i) | (q == j) {
        return before;
    }
    before & memo.cells[q][v % 3]
}

// The lowest row of a set.
fn lowest_row(memo: &Memo, set: u64) -> Option<usize>
    ensures { result ≡ found memo.now.rows (lowest memo.now.rows set) }
{
    let row = set.trailing_zeros() as usize;
    (row < memo.rows).then_some(row)
}

// What a row answers for an old output.
fn output_of(memo: &Memo, row: usize, old: usize) -> usize
    requires { (row < memo.now.rows) × (old < 3) }
    ensures { ((t : Table) → MemoOf t memo.now → result ≡ get_or memo.now.outputs (row * 3 + old) 0) × (result < 3) }
{
    usize::from(memo.outputs[row * 3 + old]).min(2)
}

// What the rows answer: the lowest level row, else the lowest edge row, else x.
fn out_by(memo: &Memo, level: u64, edge: u64, old: usize) -> usize
    requires { old < 3 }
    ensures { ((t : Table) → MemoOf t memo.now → result ≡ rank_of (out_by t level edge (value_of old))) × (result < 3) }
{
    if let Some(row) = lowest_row(memo, level) {
        return output_of(memo, row, old);
    }
    match lowest_row(memo, edge) {
        Some(row) => output_of(memo, row, old),
        None => 2,
    }
}

// What column j gives where it comes from the value number x and goes to d; `rest` are the rows that match in the other columns.
#[tactic(auto, unfolding(memo::specs::Rows::cell_at))]
fn entry(memo: &Memo, j: usize, rest: u64, d: usize, x: usize, old: usize) -> usize
    requires { (j < input_limit) × (d < 3) × (x < 3) × (old < 3) }
    ensures { ((t : Table) → MemoOf t memo.now → result ≡ entry_of t memo.now.cells j rest d x old) × (result < 3) }
{
    if x == d {
        return old;
    }
    let here = rest & memo.cells[base::INPUTS][old];
    let level = here & memo.cells[j][d];
    let edge = here & memo.cells[j][3 + (x * 3 + d)];
    out_by(memo, level, edge, old)
}

// The first column steps and then the second.
#[tactic(auto, unfolding(memo::specs::Pair::first_then, memo::specs::Rows::cell_at))]
fn first_then(memo: &Memo, start: Start, case: Case) -> usize
    ensures { ((t : Table) → MemoOf t memo.now →
        result ≡ first_then t memo.now.cells start.first start.second start.rest start.first_was start.second_was
        case.first_now case.second_now case.old) × (result < 3) }
{
    let one = start.rest & memo.cells[start.second][start.second_was];
    let between = entry(
        memo,
        start.first,
        one,
        case.first_now,
        start.first_was,
        case.old,
    );
    let two = start.rest & memo.cells[start.first][case.first_now];
    entry(
        memo,
        start.second,
        two,
        case.second_now,
        start.second_was,
        between,
    )
}

// The two orders agree in a case.
fn agree(memo: &Memo, start: Start, case: Case) -> bool
    ensures { (t : Table) → MemoOf t memo.now → result ≡ eqb
        (first_then t memo.now.cells start.first start.second start.rest start.first_was start.second_was
        case.first_now case.second_now case.old)
        (second_then t memo.now.cells start.first start.second start.rest start.first_was start.second_was
        case.first_now case.second_now case.old) }
{
    first_then(memo, start, case) == first_then(memo, start.turned(), case.turned())
}

// They agree for every old output, where the columns go to these values.
fn agree_for_each_old(memo: &Memo, start: Start, first_now: usize, second_now: usize) -> bool
    requires { (first_now < 3) × (second_now < 3) }
    ensures { (t : Table) → MemoOf t memo.now → result ≡ true → (o : ℕ) → o < 3 →
        first_then t memo.now.cells start.first start.second start.rest start.first_was start.second_was
        first_now second_now o
        ≡ second_then t memo.now.cells start.first start.second start.rest start.first_was start.second_was
        first_now second_now o }
{
    agree(memo, start, Case::to(first_now, second_now, 0))
        & (agree(memo, start, Case::to(first_now, second_now, 1))
            & agree(memo, start, Case::to(first_now, second_now, 2)))
}

// And for both values that the second column can change to.
fn agree_for_each_second(memo: &Memo, start: Start, first_now: usize) -> bool
    requires { first_now < 3 }
    ensures { (t : Table) → MemoOf t memo.now →
        result ≡ true → (y o : ℕ) → y < 3 → o < 3 → y ≢ start.second_was →
        first_then t memo.now.cells start.first start.second start.rest start.first_was start.second_was first_now y o
        ≡ second_then t memo.now.cells start.first start.second start.rest start.first_was start.second_was
        first_now y o }
{
    agree_for_each_old(memo, start, first_now, (start.second_was + 1) % 3)
        & agree_for_each_old(memo, start, first_now, (start.second_was + 2) % 3)
}

// All 27 cases agree. The twelve in which both columns change are asked, and each of them, since a branch costs more.
fn all_agree(memo: &Memo, start: Start) -> bool
    ensures { (t : Table) → MemoOf t memo.now → result ≡ true → 27 ≡ first 27
        (differs_by t memo.now.cells start.first start.second start.rest start.first_was start.second_was) }
{
    agree_for_each_second(memo, start, (start.first_was + 1) % 3)
        & agree_for_each_second(memo, start, (start.first_was + 2) % 3)
}

// The two orders differ; where a column stays they never do.
fn differ(memo: &Memo, start: Start, case: Case) -> bool
    ensures { (t : Table) → MemoOf t memo.now →
        result ≡ differs t memo.now.cells start.first start.second start.rest start.first_was start.second_was
        case.first_now case.second_now case.old }
{
    let stays = (case.first_now == start.first_was) | (case.second_now == start.second_was);
    if stays {
        return false;
    }
    !agree(memo, start, case)
}

// The first of the 27 cases in which the two orders differ.
fn first_case(memo: &Memo, start: Start) -> Option<usize>
    ensures first { (t : Table) → MemoOf t memo.now →
        result ≡ found 27 (first 27 (differs_by t memo.now.cells start.first start.second start.rest start.first_was start.second_was)) }
    ensures low { IfSome result (λ c. c < 27) }
{
    if all_agree(memo, start) {
        return None;
    }
    for c in 0..27 {
        if differ(memo, start, Case::of(c)) {
            return Some(c);
        }
    }
    None
}

// 3 to the power n.
pub fn power(n: usize) -> usize
    requires { n ≤ input_limit }
    ensures { result ≡ 3 ^ n }
{
    3usize.pow(n as u32)
}

// The first candidate of the columns i and j that differs.
pub fn first_difference(memo: &Memo, i: usize, j: usize) -> Option<usize>
    requires { (i < memo.now.inputs) × (j < memo.now.inputs) }
    ensures { (t : Table) → MemoOf t memo.now → result ≡ found (candidates t.inputs) (first_at t i j) }
{
    let columns = Columns::of(memo, i, j);
    for v in 0..power(memo.inputs) {
        if let Some(c) = first_case(memo, columns.at(memo, v)) {
            return Some(v * 27 + c);
        }
    }
    None
}

// What the order i, j gives from vector number v, in a case.
pub fn output_at(memo: &Memo, i: usize, j: usize, v: usize, case: Case) -> usize
    requires { (i < memo.now.inputs) × (j < memo.now.inputs) }
    ensures { ((t : Table) → MemoOf t memo.now → result ≡ output_at t i j v case.first_now case.second_now case.old) × (result < 3) }
{
    first_then(memo, Columns::of(memo, i, j).at(memo, v), case)
}
