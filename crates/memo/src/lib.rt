#![tactic(auto)]

ghost use Rattle.std.specs.Prelude.{◌≡◌, ℕ, ◌+◌, ◌*◌, ◌/◌, ◌%◌, ◌^◌, ◌<◌, ◌≤◌, length, get_or};
ghost use Rattle.base.specs.Limits.{input_limit, row_limit};
ghost use Rattle.base.proofs.Patched.{Patched};
ghost use Rattle.value.specs.Value.{rank_of, value_of};
ghost use Rattle.symbol.specs.Masks.{offers};
ghost use Rattle.symbol.specs.Match.{result_of};
ghost use Rattle.table.specs.Area.{decode};
ghost use Rattle.table.specs.Table.{row_at};
ghost use Rattle.memo.specs.Outputs.{Outputs};
ghost use Rattle.memo.specs.Rows.{column_of, all_rows, cell_row, cells, Small};

use value::Ternary;

// What a column may be offered: three values and nine changes.
pub const OFFERS: usize = 12;

// The columns of the masks: one for each input, and the state.
pub const COLUMNS: usize = base::INPUTS + 1;

// What each row answers for each of the three old outputs.
pub const OUTPUTS: usize = base::ROWS * 3;

// The rows that match in each column, by what it is offered; row r is bit r.
pub type Cells = [[u64; OFFERS]; COLUMNS];

// What is worked out of a table once: its masks, the set of all its rows, what each row answers for each old output, and the two counts.
#[derive(Drop)]
pub struct Memo {
    pub cells: Cells,
    pub all: u64,
    pub outputs: [u8; OUTPUTS],
    pub inputs: usize,
    pub rows: usize,
    pub ghost few_inputs: { inputs ≤ input_limit },
    pub ghost few_rows: { rows ≤ row_limit },
}

impl Memo {
    ghost use Rattle.memo.specs.Memo.{MemoOf};

    pub fn of(area: &[u8]) -> Memo
        requires { Small (decode area.now) }
        ensures { MemoOf (decode area.now) result }
    {
        Memo {
            cells: cells_of(area),
            all: all_rows(area),
            outputs: outputs_of(area),
            inputs: table::inputs(area),
            rows: table::rows(area),
        }
    }
}

// What a column may be offered, if row i matches, as bits; behind the last column stands the state.
fn offers_at(area: &[u8], i: usize, k: usize) -> u64
    ensures { result ≡ offers (column_of (decode area.now) i k) }
{
    if k < table::inputs(area) {
        return u64::from(table::offers_in(area, i, k));
    }
    u64::from(table::state_offers(area, i))
}

// One row more in front of each set: bit c of `bits` tells whether it is in set c.
fn add_row(sets: &mut [u64; OFFERS], bits: u64)
    requires { (length sets.old ≡ 12) × ((c : ℕ) → c < 12 → get_or sets.old c 0 < 2 ^ 63) }
    ensures { Patched (λ (c : ℕ). get_or sets.old c 0 * 2 + bits / 2 ^ c % 2) 0 sets.old sets.new 12 }
{
    for c in 0..OFFERS {
        sets[c] = sets[c] * 2 + (bits >> c) % 2;
    }
}

// The rows that match in column k, for each thing that is offered there.
// Inlined, since both calls know whether k is an input's column, which each row would ask.
#[inline(always)]
fn cell_row(area: &[u8], k: usize) -> [u64; OFFERS]
    requires { Small (decode area.now) }
    ensures { result ≡ cell_row (decode area.now) k }
{
    let mut sets = [0u64; OFFERS];
    for i in (0..table::rows(area)).rev() {
        add_row(&mut sets, offers_at(area, i, k));
    }
    sets
}

// Each column behind the last has the state's sets.
fn cells_of(area: &[u8]) -> Cells
    requires { Small (decode area.now) }
    ensures { result ≡ cells (decode area.now) }
{
    let state = cell_row(area, table::inputs(area));
    let mut cells = [state; COLUMNS];
    for k in 0..table::inputs(area) {
        cells[k] = cell_row(area, k);
    }
    cells
}

fn all_rows(area: &[u8]) -> u64
    requires { Small (decode area.now) }
    ensures { result ≡ all_rows (decode area.now) }
{
    let mut all: u64 = 0;
    for _row in 0..table::rows(area) {
        all = all * 2 + 1;
    }
    all
}

fn output_at(area: &[u8], c: usize) -> u8
    ensures { result ≡ rank_of (result_of (row_at (decode area.now) (c / 3)).output (value_of (c % 3))) }
{
    symbol::result_of(table::output_in(area, c / 3), Ternary::from_rank(c % 3)).to_rank() as u8
}

// What each row answers for each old output.
fn outputs_of(area: &[u8]) -> [u8; OUTPUTS]
    requires { Small (decode area.now) }
    ensures { Outputs (decode area.now) result }
{
    let m = table::rows(area) * 3;
    let mut outputs = [0u8; OUTPUTS];
    for c in 0..m {
        outputs[c] = output_at(area, c);
    }
    outputs
}
