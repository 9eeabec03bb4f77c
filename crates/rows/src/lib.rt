#![tactic(auto)]

// Reading the rows of a table from a text into its area.
ghost use Rattle.std.specs.Prelude.{◌≡◌, [], ◌≤◌, get_or, take, drop};
ghost use Rattle.base.specs.Limits.{input_limit, row_limit};
ghost use Rattle.table.specs.Places.{inputs_at};
ghost use Rattle.table.specs.Area.{encode, decode};
ghost use Rattle.text.specs.Reader.{bind};
ghost use Rattle.text.specs.Places.{ended};
ghost use Rattle.writing.specs.Written.{row_written};
ghost use Rattle.grammar.specs.Rows.{columns, row, rows as rows_of};
ghost use Rattle.grammar.proofs.Behind.{behind};
ghost use Rattle.rows.specs.Drawn.{drawn, row_tail, with_rows, Begun};

use refusal::{Fault, Refusal};
use symbol::{Level, Symbol};

// The colon, the state, the output and the semicolon behind a row's columns; then the row is added.
fn finish_row(
    text: &[u8],
    at: usize,
    sequential: bool,
    edge: bool,
    symbols: [Symbol; base::INPUTS],
    a: &mut [u8],
) -> Result<usize, Refusal>
    ensures { drawn (row_written a.old) (bind (behind (take (get_or a.old inputs_at 0) symbols) (columns 0 edge at (drop at text.now))) (row_tail sequential))
        ≡ ended text.now a.new result }
{
    let i = fields::read_colon(text, at, edge)?;
    let (state, j) = fields::read_state(text, i, sequential)?;
    let (output, k) = fields::read_output(text, j, sequential)?;
    let end = text::read_mark(text, k, b';')?;
    writing::write_row(a, symbols, state, output);
    Ok(end)
}

// A row is read and added.
fn read_row(
    text: &[u8],
    at: usize,
    sequential: bool,
    n: usize,
    a: &mut [u8],
) -> Result<usize, Refusal>
    requires { (n ≤ input_limit) × (get_or a.old inputs_at 0 ≡ n) }
    ensures { drawn (row_written a.old) (row sequential n at (drop at text.now)) ≡ ended text.now a.new result }
{
    // Stays: fixed memory has room for nine symbols, and the area says how many of them count.
    let mut symbols = [Symbol::Held(Level::Zero); base::INPUTS];
    let mut i = at;
    let mut edge = sequential;
    for column in 0..n {
        let (s, j) = fields::read_column(text, i, edge)?;
        symbols[column] = s;
        edge &= !symbol::is_edge(s);
        i = j;
    }
    finish_row(text, i, sequential, edge, symbols, a)
}

// Rows up to and with `endtable`, added one after the other.
pub fn read_rows(
    text: &[u8],
    at: usize,
    sequential: bool,
    n: usize,
    a: &mut [u8],
) -> Result<usize, Refusal>
    requires { Begun a.old n }
    ensures { drawn (λ l. encode (with_rows (decode a.old) l)) (rows_of row_limit sequential n [] at (drop at text.now)) ≡ ended text.now a.new result }
{
    let mut i = at;
    for k in 0..base::ROWS {
        let p = text::skip_from(text, i);
        if !fields::row_at(text, p) {
            let end = text::read_keyword(text, p, b"endtable")?;
            if k == 0 {
                return Err(Fault::Unexpected.at(p));
            }
            return Ok(end);
        }
        i = read_row(text, p, sequential, n, a)?;
        if !formed::row_agrees(a, k) {
            return Err(Fault::Contradiction.at(p));
        }
    }
    let p = text::skip_from(text, i);
    if fields::row_at(text, p) {
        return Err(Fault::TooMany.at(p));
    }
    text::read_keyword(text, p, b"endtable")
}
