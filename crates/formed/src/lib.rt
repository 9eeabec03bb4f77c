#![tactic(auto)]

ghost use Rattle.std.specs.Prelude.{◌≡◌, ◌&&◌, ◌||◌, not, ℕ, ◌<◌, ◌≤◌, ◌%◌, eqb, bit_and, length};
ghost use Rattle.base.specs.Limits.{input_limit, row_limit};
ghost use Rattle.base.specs.Search.{found};
ghost use Rattle.symbol.specs.declared.Symbol.TheVariants.{Held};
ghost use Rattle.symbol.specs.Masks.{offers};
ghost use Rattle.symbol.specs.Match.{is_edge};
ghost use Rattle.table.specs.Table.{Table, row_at, symbol_at};
ghost use Rattle.table.specs.Match.{edge_at};
ghost use Rattle.table.specs.Area.{decode};
ghost use Rattle.formed.specs.Cells.{CellsOf, CellsOfRows};
ghost use Rattle.formed.specs.Tests.{levels_meet, columns_meet, contradict, columns_valid, combinational, row_valid};
ghost use Rattle.formed.specs.Tests.{rows_valid, row_agrees, rows_agree, within, head_valid, valid, well_formed};

use symbol::Output;
use value::Ternary;

// In a set bits 0 to 2 are the values, and the bits from this one on the changes.
const CHANGES: u16 = 8;

const EVERY_VALUE: u16 = 7;

fn holds_edge(set: u16) -> bool
    ensures { result ≡ eqb (set % CHANGES) 0 }
{
    set % CHANGES == 0
}

// A symbol of this set may stand in a column; an edge only here.
fn may_stand(set: u16, here: bool) -> bool
    ensures { result ≡ (not (eqb set 0) && (not (eqb (set % CHANGES) 0) || here)) }
{
    set != 0 && (!holds_edge(set) || here)
}

// Some value or change is in both sets.
fn sets_meet(set: u16, other: u16) -> bool
    ensures { result ≡ not (eqb (bit_and set other) 0) }
{
    set & other != 0
}

// A row, read once: the sets of what its columns and its state may be offered, and its output.
#[derive(Clone, Copy)]
struct Cells {
    columns: [u16; base::INPUTS],
    state: u16,
    output: Output,
}

// Each n is the number of the table's inputs.
impl Cells {
    // No row yet; all bytes are zero, so that an array of these is cleared at once.
    const NONE: Cells = Cells {
        columns: [0; base::INPUTS],
        state: 0,
        output: Output::Out0,
    };

    // Past the table's inputs a column counts as ?, as the definition of a row has it.
    fn read(a: &[u8], i: usize) -> Cells
        requires { (decode a.now).inputs ≤ input_limit }
        ensures { CellsOf (decode a.now) i result }
    {
        let mut columns = [EVERY_VALUE; base::INPUTS];
        for k in 0..table::inputs(a) {
            columns[k] = table::offers_in(a, i, k);
        }
        Cells {
            columns,
            state: table::state_offers(a, i),
            output: table::output_in(a, i),
        }
    }

    // The first column with an edge.
    fn edge(&self, n: usize) -> Option<usize>
        requires { n ≤ input_limit }
        ensures { (t : Table) (i : ℕ) → CellsOf t i self.now →
            result ≡ found n (λ k. is_edge (symbol_at (row_at t i) k)) }
    {
        (0..n).find(|k| holds_edge(self.columns[*k]))
    }

    fn columns_valid(&self, n: usize) -> bool
        requires { n ≤ input_limit }
        ensures { (t : Table) (i : ℕ) → CellsOf t i self.now → result ≡ columns_valid n (row_at t i) }
    {
        let edge = self.edge(n);
        (0..n).all(|k| may_stand(self.columns[k], Some(k) == edge))
    }

    fn is_all_levels(&self, n: usize) -> bool
        requires { n ≤ input_limit }
        ensures { (t : Table) (i : ℕ) → CellsOf t i self.now → result ≡ eqb (edge_at n (row_at t i)) n }
    {
        self.edge(n).is_none()
    }

    fn is_combinational(&self, n: usize) -> bool
        requires { n ≤ input_limit }
        ensures { (t : Table) (i : ℕ) → CellsOf t i self.now → result ≡ combinational n (row_at t i) }
    {
        self.is_all_levels(n) && self.state == EVERY_VALUE && self.output != Output::Old
    }

    fn is_valid(&self, n: usize, sequential: bool) -> bool
        requires { n ≤ input_limit }
        ensures { (t : Table) (i : ℕ) → CellsOf t i self.now → length (row_at t i).symbols ≡ n →
            result ≡ row_valid n sequential (row_at t i) }
    {
        self.columns_valid(n) && (sequential || self.is_combinational(n))
    }

    // All columns are asked, with no jump from one to the next; those past the table's inputs count as ? in both rows and meet.
    fn columns_meet(&self, other: &Cells) -> bool
        ensures { (t : Table) (i j : ℕ) → t.inputs ≤ input_limit → CellsOf t i other.now → CellsOf t j self.now →
            result ≡ columns_meet t.inputs (row_at t i) (row_at t j) }
    {
        let mut all = true;
        for k in 0..base::INPUTS {
            all &= sets_meet(other.columns[k], self.columns[k]);
        }
        all
    }

    // The states of the two rows meet, and so do their columns.
    fn meets(&self, other: &Cells) -> bool
        ensures { (t : Table) (i j : ℕ) → t.inputs ≤ input_limit → CellsOf t i other.now → CellsOf t j self.now →
            result ≡ (levels_meet (row_at t i).state (row_at t j).state && columns_meet t.inputs (row_at t i) (row_at t j)) }
    {
        sets_meet(other.state, self.state) && self.columns_meet(other)
    }

    fn contradicts(&self, other: &Cells) -> bool
        ensures { (t : Table) (i j : ℕ) → t.inputs ≤ input_limit → CellsOf t i other.now → CellsOf t j self.now →
            result ≡ contradict t.inputs (row_at t i) (row_at t j) }
    {
        other.output != self.output && self.meets(other)
    }

    // The row contradicts none of those before it, which have been read.
    fn agrees(&self, read: &[Cells]) -> bool
        ensures { (t : Table) → t.inputs ≤ input_limit → CellsOfRows t read.now → CellsOf t (length read.now) self.now →
            result ≡ row_agrees t (length read.now) }
    {
        for earlier in read {
            if self.contradicts(earlier) {
                return false;
            }
        }
        true
    }
}

// A row of the table in an area.
#[derive(Clone, Copy)]
struct Row<'a> {
    area: &'a [u8],
    index: usize,
}

impl Row<'_> {
    // What column k may be offered, as a set.
    fn column(&self, k: usize) -> u16
        ensures { result ≡ offers (symbol_at (row_at (decode self.now.area.now) self.now.index) k) }
    {
        table::offers_in(self.area, self.index, k)
    }

    fn state(&self) -> u16
        ensures { result ≡ offers (Held (row_at (decode self.now.area.now) self.now.index).state) }
    {
        table::state_offers(self.area, self.index)
    }

    fn output(&self) -> Output
        ensures { result ≡ (row_at (decode self.now.area.now) self.now.index).output }
    {
        table::output_in(self.area, self.index)
    }

    // The states of the two rows meet, and so do their columns; a caller reads this row's state once for many others.
    fn meets(&self, state: u16, other: &Row) -> bool
        requires same { other.now.area.now ≡ self.now.area.now }
        requires own { state ≡ offers (Held (row_at (decode self.now.area.now) self.now.index).state) }
        ensures { let t = decode self.now.area.now in let r = row_at t other.now.index in
            let q = row_at t self.now.index in result ≡ (levels_meet r.state q.state && columns_meet t.inputs r q) }
    {
        sets_meet(other.state(), state)
            && (0..table::inputs(self.area)).all(|k| sets_meet(other.column(k), self.column(k)))
    }

    fn contradicts(&self, other: &Row) -> bool
        requires { other.now.area.now ≡ self.now.area.now }
        ensures { let t = decode self.now.area.now in
            result ≡ contradict t.inputs (row_at t other.now.index) (row_at t self.now.index) }
    {
        other.output() != self.output() && self.meets(self.state(), other)
    }

    // The row contradicts none before it.
    fn agrees(&self) -> bool
        ensures { result ≡ row_agrees (decode self.now.area.now) self.now.index }
    {
        let output = self.output();
        let state = self.state();
        for i in 0..self.index {
            let earlier = Row {
                area: self.area,
                index: i,
            };
            if earlier.output() != output && self.meets(state, &earlier) {
                return false;
            }
        }
        true
    }
}

// Rows i and j of the table that `a` holds contradict each other.
pub fn contradicts(a: &[u8], i: usize, j: usize) -> bool
    ensures { let t = decode a.now in result ≡ contradict t.inputs (row_at t i) (row_at t j) }
{
    Row { area: a, index: j }.contradicts(&Row { area: a, index: i })
}

// Row j contradicts none before it.
pub fn row_agrees(a: &[u8], j: usize) -> bool
    ensures { result ≡ row_agrees (decode a.now) j }
{
    Row { area: a, index: j }.agrees()
}

// Each row is valid, and contradicts none before it.
fn rows_fit(a: &[u8]) -> bool
    requires inputs { (decode a.now).inputs ≤ input_limit }
    requires rows { length (decode a.now).rows ≤ row_limit }
    ensures { let t = decode a.now in result ≡ (rows_valid t && rows_agree t) }
{
    let m = table::rows(a);
    let n = table::inputs(a);
    let sequential = table::sequential(a);
    let mut read = [Cells::NONE; base::ROWS];
    for j in 0..m {
        read[j] = Cells::read(a, j);
        let row = read[j];
        if !row.is_valid(n, sequential) || !row.agrees(&read[..j]) {
            return false;
        }
    }
    true
}

#[tactic(auto, unfolding(crate::specs::Tests::within))]
fn is_within(m: usize, limit: usize) -> bool
    ensures { result ≡ within m limit }
{
    (1..=limit).contains(&m)
}

#[tactic(auto, unfolding(crate::specs::Tests::head_valid, value::specs::Value::same_value, value::specs::Value::rank_of))]
fn head_valid(a: &[u8]) -> bool
    ensures { result ≡ head_valid (decode a.now) }
{
    is_within(table::inputs(a), base::INPUTS)
        && is_within(table::rows(a), base::ROWS)
        && text::name_fits(table::name_in(a))
        && (table::sequential(a) || table::start(a) == Ternary::X)
}

#[tactic(auto, using(crate::proofs::Exact::head_inputs, crate::proofs::Exact::head_rows), unfolding(crate::specs::Tests::valid))]
fn is_valid(a: &[u8]) -> bool
    ensures { result ≡ valid (decode a.now) }
{
    head_valid(a) && rows_fit(a)
}

// Reading some text could have given this area.
#[tactic(auto, unfolding(crate::specs::Tests::well_formed))]
pub fn well_formed(a: &[u8]) -> bool
    ensures { result ≡ well_formed a.now }
{
    a.len() == table::AREA && canonical::is_canonical(a) && is_valid(a)
}
