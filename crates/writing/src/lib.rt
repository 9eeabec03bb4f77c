#![tactic(auto, unfolding(crate::specs::Written::head_fits, crate::specs::Written::has_room, crate::specs::Written::head_written, crate::specs::Written::row_written))]

ghost use Rattle.std.specs.Prelude.{◌≡◌, ◌≤◌, length, get_or};
ghost use Rattle.base.specs.Limits.{input_limit};
ghost use Rattle.base.specs.Listed.{listed};
ghost use Rattle.table.specs.Places.{inputs_at, row_size};
ghost use Rattle.table.specs.Area.{row_byte};
ghost use Rattle.writing.specs.Written.{head_of, head_fits, head_written, row_from, has_room, row_written};

use symbol::{Level, Output, Symbol};
use value::Ternary;

fn head_fits(a: &[u8], name: &[u8], inputs: usize) -> bool
    ensures { result ≡ head_fits a.now name.now inputs }
{
    a.len() == table::AREA && name.len() <= base::NAME && inputs <= base::INPUTS
}

// The whole area becomes a table without rows.
pub fn write_head(a: &mut [u8], name: &[u8], sequential: bool, inputs: usize, start: Ternary)
    ensures { a.new ≡ head_written a.old (head_of name.now sequential inputs start) }
{
    if !head_fits(a, name, inputs) {
        return;
    }
    a.fill(0);
    a[0] = name.len() as u8;
    a[table::NAME_AT..table::NAME_AT + name.len()].copy_from_slice(name);
    a[table::KIND_AT] = table::kind_byte(sequential);
    a[table::INPUTS_AT] = inputs as u8;
    a[table::START_AT] = start.to_byte();
}

#[tactic(auto, using(table::proofs::Encoding::decode_inputs, table::proofs::Encoding::decode_count), unfolding(crate::specs::Written::has_room))]
fn has_room(a: &[u8]) -> bool
    ensures { result ≡ has_room a.now }
{
    a.len() == table::AREA && table::inputs(a) <= base::INPUTS && table::rows(a) < base::ROWS
}

// The places of a row become those of these symbols, this state and this output.
fn fill_row(row: &mut [u8], symbols: &[Symbol], state: Level, output: Output)
    requires size { length row.old ≡ row_size }
    requires few { length symbols.now ≤ input_limit }
    ensures { row.new ≡ listed (row_byte (record { symbols = symbols.now; state = state; output = output })) row_size }
{
    row.fill(0);
    for (k, s) in symbols.iter().enumerate() {
        let first = stored::symbol_byte(*s);
        let second = stored::second_byte(*s);
        row[2 * k] = first;
        row[2 * k + 1] = second;
    }
    row[table::STATE_AT] = stored::level_byte(state);
    row[table::OUTPUT_AT] = stored::output_byte(output);
}

// The table gets one row more, of as many of the symbols as it has inputs.
pub fn write_row(a: &mut [u8], symbols: [Symbol; base::INPUTS], state: Level, output: Output)
    ensures { a.new ≡ row_written a.old (row_from (get_or a.old inputs_at 0) symbols state output) }
{
    if !has_room(a) {
        return;
    }
    let n = table::inputs(a);
    let at = table::ROWS_AT + table::rows(a) * table::ROW_SIZE;
    let row = &mut a[at..at + table::ROW_SIZE];
    fill_row(row, &symbols[..n], state, output);
    a[table::COUNT_AT] += 1;
}
