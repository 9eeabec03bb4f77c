#![tactic(auto)]

ghost use Rattle.std.specs.Prelude.{◌≡◌, suc, ◌-◌, ◌<◌, ◌≤◌};
ghost use Rattle.base.specs.Limits.{input_limit, row_limit};
ghost use Rattle.table.specs.Table.{Table};
ghost use Rattle.memo.specs.Memo.{MemoOf};
ghost use Rattle.plain.specs.Plain.{Plain};
ghost use Rattle.exchange.specs.Pairs.{Tells};
ghost use Rattle.cube.specs.Lanes.{weight_of};
ghost use Rattle.lanes.specs.Columns.{past, top_of, DigitLanes, LaneRow, Lanes};
ghost use Rattle.lanes.specs.Pairs.{OuterTell};

use cube::Digit;
use memo::Memo;
use plain::PlainRows;

// The last of the first k columns that is neither i nor j.
fn last_other(i: usize, j: usize, k: usize) -> Option<usize>
    ensures { (past result ≡ top_of i j k) × (past result ≤ k) }
{
    for c in (0..k).rev() {
        let other = !((c == i) | (c == j));
        if other {
            return Some(c);
        }
    }
    None
}

// The columns whose values are the digits of a lane's number.
#[derive(Clone, Copy)]
struct Digits {
    one: Option<usize>,
    three: Option<usize>,
    nine: Option<usize>,
    ghost one_in: { past one ≤ suc input_limit },
    ghost three_in: { past three ≤ suc input_limit },
    ghost nine_in: { past nine ≤ suc input_limit },
}

impl Digits {
    // The last three columns that are neither i nor j.
    fn of(memo: &Memo, i: usize, j: usize) -> Digits
        ensures { (past result.one ≡ top_of i j memo.now.inputs)
            × (past result.three ≡ top_of i j (past result.one - 1)) × (past result.nine ≡ top_of i j (past result.three - 1)) }
    {
        let one = last_other(i, j, memo.inputs);
        let three = last_other(i, j, one.unwrap_or(0));
        let nine = last_other(i, j, three.unwrap_or(0));
        Digits { one, three, nine }
    }
}

// The lanes in which row r matches in the column, whose value is the digit; where there is no column it does in all.
fn lanes_in(memo: &Memo, column: Option<usize>, digit: Digit, r: usize) -> u32
    requires { (past column ≤ suc input_limit) × (r < row_limit) }
    ensures { DigitLanes memo.now.cells (past column) (weight_of digit) r result }
{
    match column {
        Some(k) => digit.lanes_in(memo, k, 0, r),
        None => planes::LANES,
    }
}

// The lanes of row r.
fn lane_row(memo: &Memo, digits: Digits, r: usize) -> u32
    requires { r < row_limit }
    ensures { LaneRow memo.now.cells (past digits.one) (past digits.three) (past digits.nine) r result }
{
    lanes_in(memo, digits.one, Digit::One, r)
        & (lanes_in(memo, digits.three, Digit::Three, r)
            & lanes_in(memo, digits.nine, Digit::Nine, r))
}

// The lanes of each row.
fn lanes(memo: &Memo, digits: Digits) -> [u32; base::ROWS]
    ensures { Lanes memo.now.cells (past digits.one) (past digits.three) (past digits.nine) memo.now.rows result }
{
    let mut by_row = [0u32; base::ROWS];
    for r in 0..memo.rows {
        by_row[r] = lane_row(memo, digits, r);
    }
    by_row
}

// Whether both orders agree in every lane, whatever values the first k columns but i and j have; the given rows match in those behind.
fn outer_agree(
    memo: &Memo,
    by_row: &[u32; base::ROWS],
    i: usize,
    j: usize,
    plain: PlainRows,
    k: usize,
    rows: u64,
) -> bool
    requires { (i ≤ input_limit) × (j ≤ input_limit) × (k ≤ suc input_limit) × Plain memo.now i j plain }
    ensures { OuterTell memo.now by_row.now i j k rows result }
{
    if plain.has_all(rows) {
        return true;
    }
    let Some(q) = last_other(i, j, k) else {
        return exchange::lanes_agree(memo, by_row, i, j, rows);
    };
    let a = rows & memo.cells[q][0];
    let b = rows & memo.cells[q][1];
    let c = rows & memo.cells[q][2];
    if !outer_agree(memo, by_row, i, j, plain, q, a) {
        return false;
    }
    // Equal rows need no second look.
    if b != a && !outer_agree(memo, by_row, i, j, plain, q, b) {
        return false;
    }
    let seen = (c == a) | (c == b);
    seen || outer_agree(memo, by_row, i, j, plain, q, c)
}

// Whether the two orders of columns i and j agree whatever values the others have.
// Stays: no twin of the test of this name in `cube`, where one word has every vector, here a part of them.
pub fn pair_agrees(memo: &Memo, i: usize, j: usize) -> bool
    requires { (i < memo.now.inputs) × (j < memo.now.inputs) }
    ensures { (t : Table) → MemoOf t memo.now → Tells t i j result }
{
    let plain = PlainRows::of(memo, i, j);
    if plain.has_all(memo.all) {
        return true;
    }
    let digits = Digits::of(memo, i, j);
    let by_row = lanes(memo, digits);
    let outer = digits.nine.unwrap_or(0);
    outer_agree(memo, &by_row, i, j, plain, outer, memo.all)
}
