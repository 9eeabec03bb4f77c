#![tactic(auto)]

ghost use Rattle.std.specs.Prelude.{◌≡◌, cond, suc, ◌+◌, ◌-◌, ◌^◌, ◌<◌, ◌≤◌, [], eqb, get_or};
ghost use Rattle.std.specs.Int.Bits.{bit_and, bit_or};
ghost use Rattle.base.specs.Limits.{input_limit, row_limit};
ghost use Rattle.table.specs.Table.{Table};
ghost use Rattle.memo.specs.Memo.{MemoOf};
ghost use Rattle.memo.specs.Rows.{cell_at};
ghost use Rattle.exchange.specs.Pairs.{Tells};
ghost use Rattle.cube.specs.Lanes.{weight_of, Zeros, Copied, Moved, ColumnLanes, RowLanes, Lanes};
ghost use Rattle.cube.specs.Steps.{Levels, Stays, Step, Steps, Differ, Same};

use memo::Memo;
use plain::PlainRows;

// A digit of a lane's number, by what it weighs.
#[derive(Clone, Copy)]
pub enum Digit {
    One = 1,
    Three = 3,
    Nine = 9,
}

impl Digit {
    // The digit that is the value of column k, where at most three columns have one.
    fn of(memo: &Memo, k: usize) -> Digit
        requires { (memo.now.inputs ≤ 3) × (k < memo.now.inputs) }
        ensures { weight_of result ≡ 3 ^ (memo.now.inputs - suc k) }
    {
        match memo.inputs - k {
            1 => Digit::One,
            2 => Digit::Three,
            _ => Digit::Nine,
        }
    }

    fn weight(self) -> usize
        ensures { result ≡ weight_of self }
    {
        self as usize
    }

    // The lanes in which the digit is zero.
    fn zeros(self) -> u32
        ensures { Zeros (weight_of self) result }
    {
        match self {
            Digit::One => 0x1249249,
            Digit::Three => 0x1c0e07,
            Digit::Nine => 0x1ff,
        }
    }

    // The lanes in which row r matches in column k: it is offered number c where the digit is 0, the next ones where it is 1 and 2.
    pub fn lanes_in(self, memo: &Memo, k: usize, c: usize, r: usize) -> u32
        requires { (k ≤ input_limit) × (c < 10) × (r < row_limit) }
        ensures { ColumnLanes memo.now.cells k (weight_of self) c r result }
    {
        let w = self.weight();
        let p = self.zeros();
        planes::lanes_of(memo.cells[k][c], r, p)
            | (planes::lanes_of(memo.cells[k][c + 1], r, p << w)
                | planes::lanes_of(memo.cells[k][c + 2], r, p << (w + w)))
    }

    // Every lane gets what p has where the digit is d.
    fn copied(self, p: u32, d: usize) -> u32
        requires { d < 3 }
        ensures { Copied p (weight_of self) d result }
    {
        let w = self.weight();
        let q = self.zeros() & (p >> (w * d));
        q | ((q << w) | (q << (w + w)))
    }

    // The same for the three words of a step.
    fn moved(self, step: [u32; 3], d: usize) -> [u32; 3]
        requires { d < 3 }
        ensures { Moved step (weight_of self) d result }
    {
        [
            self.copied(step[0], d),
            self.copied(step[1], d),
            self.copied(step[2], d),
        ]
    }
}

// What column k is offered where its value is 0, if a change is offered to column i from number c on.
fn offer(i: usize, c: usize, k: usize) -> usize
    ensures { (result ≡ cond (eqb k i) c 0) × (result ≤ c) }
{
    if k == i { c } else { 0 }
}

fn row_lanes(memo: &Memo, i: usize, c: usize, r: usize) -> u32
    requires { (1 < memo.now.inputs) × (memo.now.inputs ≤ 3) × (c < 10) × (r < row_limit) }
    ensures { RowLanes memo.now.cells memo.now.inputs i c r result }
{
    let a = memo.inputs - 1;
    let b = memo.inputs - 2;
    let p = Digit::One.lanes_in(memo, a, offer(i, c, a), r);
    let q = Digit::Three.lanes_in(memo, b, offer(i, c, b), r);
    if memo.inputs < 3 {
        return q & p;
    }
    let v = Digit::Nine.lanes_in(memo, 0, offer(i, c, 0), r);
    v & q & p
}

// The lanes of each row.
fn lanes(memo: &Memo, i: usize, c: usize) -> [u32; base::ROWS]
    requires { (1 < memo.now.inputs) × (memo.now.inputs ≤ 3) × (c < 10) }
    ensures { Lanes memo.now.cells memo.now.inputs memo.now.rows i c result }
{
    let mut by_row = [0u32; base::ROWS];
    for r in 0..memo.rows {
        by_row[r] = row_lanes(memo, i, c, r);
    }
    by_row
}

// What the level rows answer, for each old output.
fn levels(memo: &Memo) -> [[u32; 4]; 3]
    requires { (1 < memo.now.inputs) × (memo.now.inputs ≤ 3) }
    ensures { Levels memo.now result }
{
    let by_row = lanes(memo, 0, 0);
    let state = memo.cells[memo.inputs];
    let open = [0, 0, 0, planes::LANES];
    let a = planes::spread(&by_row, &memo.outputs, memo.all & state[0], 0, open);
    let b = planes::spread(&by_row, &memo.outputs, memo.all & state[1], 1, open);
    let c = planes::spread(&by_row, &memo.outputs, memo.all & state[2], 2, open);
    [a, b, c]
}

// Where the column stays it gives the old output.
fn stays(p: [u32; 4], o: usize, still: u32) -> [u32; 4]
    requires { o < 3 }
    ensures { Stays p o still result }
{
    let go = still ^ planes::LANES;
    let mut q = [p[0] & go, p[1] & go, p[2] & go, p[3] & go];
    q[o] |= still;
    q
}

fn step_at(
    memo: &Memo,
    lanes: &[u32; base::ROWS],
    levels: &[[u32; 4]; 3],
    edges: u64,
    still: u32,
    o: usize,
) -> [u32; 3]
    requires { o < 3 }
    ensures { let set = bit_and (bit_and memo.now.all (cell_at memo.now.cells memo.now.inputs o)) edges in
        Step memo.now.outputs lanes.now o set still (get_or levels.now o []) result }
{
    let set = memo.all & memo.cells[memo.inputs][o] & edges;
    planes::closed(lanes, &memo.outputs, set, o, stays(levels[o], o, still))
}

// The rows that match in column i one of the three changes from number c on.
fn edges_in(memo: &Memo, i: usize, c: usize) -> u64
    requires { (i ≤ input_limit) × (c < 10) }
    ensures { result ≡ bit_or (cell_at memo.now.cells i c) (bit_or (cell_at memo.now.cells i (c + 1)) (cell_at memo.now.cells i (c + 2))) }
{
    let cells = memo.cells[i];
    cells[c] | (cells[c + 1] | cells[c + 2])
}

// A column: the digit that is its value, and its steps for each value that it comes from and each old output.
#[derive(Drop)]
struct Column {
    digit: Digit,
    steps: [[u32; 3]; 9],
}

impl Column {
    fn of(memo: &Memo, levels: &[[u32; 4]; 3], i: usize) -> Column
        requires { (1 < memo.now.inputs) × (memo.now.inputs ≤ 3) × (i < memo.now.inputs) × Levels memo.now levels.now }
        ensures { (weight_of result.digit ≡ 3 ^ (memo.now.inputs - suc i)) × Steps memo.now i result.steps }
    {
        let digit = Digit::of(memo, i);
        Column {
            digit,
            steps: steps(memo, levels, i, digit),
        }
    }
}

// The steps of column i, whose value is the digit.
fn steps(memo: &Memo, levels: &[[u32; 4]; 3], i: usize, digit: Digit) -> [[u32; 3]; 9]
    requires { (1 < memo.now.inputs) × (memo.now.inputs ≤ 3) × (i < memo.now.inputs) × Levels memo.now levels.now
        × (weight_of digit ≡ 3 ^ (memo.now.inputs - suc i)) }
    ensures { Steps memo.now i result }
{
    let mut steps = [[0u32; 3]; 9];
    for a in 0..3 {
        let by_row = lanes(memo, i, 3 + a * 3);
        let edges = edges_in(memo, i, 3 + a * 3);
        let still = digit.zeros() << (digit.weight() * a);
        for o in 0..3 {
            steps[a * 3 + o] = step_at(memo, &by_row, levels, edges, still, o);
        }
    }
    steps
}

// The lanes in which the two orders differ, where the first column comes from a, the second from b, and the old output is o.
fn differ(first: &Column, second: &Column, a: usize, b: usize, o: usize) -> u32
    requires { (a < 3) × (b < 3) × (o < 3) }
    ensures { Differ first.now.steps second.now.steps (weight_of first.now.digit) (weight_of second.now.digit) a b o result }
{
    let f = &first.steps;
    let h = &second.steps;
    let p = second.digit.moved(f[a * 3 + o], b);
    let q = first.digit.moved(h[b * 3 + o], a);
    (exchange::path(p, h, b * 3, 1) ^ exchange::path(q, f, a * 3, 1))
        | (exchange::path(p, h, b * 3, 2) ^ exchange::path(q, f, a * 3, 2))
}

// Whether both orders agree in every lane.
fn all_agree(first: &Column, second: &Column) -> bool
    ensures { Same first.now.steps second.now.steps (weight_of first.now.digit) (weight_of second.now.digit) result }
{
    for k in 0..27 {
        if differ(first, second, k / 9, k / 3 % 3, k % 3) & planes::LANES != 0 {
            return false;
        }
    }
    true
}

// Whether the two orders of columns i and j agree whatever values the others have.
pub fn pair_agrees(memo: &Memo, i: usize, j: usize) -> bool
    requires { (memo.now.inputs ≤ 3) × (i < j) × (j < memo.now.inputs) }
    ensures { (t : Table) → MemoOf t memo.now → Tells t i j result }
{
    if PlainRows::of(memo, i, j).has_all(memo.all) {
        return true;
    }
    let answers = levels(memo);
    let first = Column::of(memo, &answers, i);
    let second = Column::of(memo, &answers, j);
    all_agree(&first, &second)
}
