#![tactic(auto)]

// The fields of a row: symbols, columns, states, outputs. What is written in a field is a symbol, or `-`, for which stands None.
ghost use Rattle.std.specs.Prelude.{◌≡◌, [], drop, option_map};
ghost use Rattle.text.specs.Bytes.{is_symbol};
ghost use Rattle.text.specs.Blanks.{begins};
ghost use Rattle.text.specs.Reader.{said};
ghost use Rattle.text.specs.Places.{ended, stood};
ghost use Rattle.grammar.specs.Rows.{written_of, column_of, state_of, output_said, saying, written, field, columns, state, begins_row};
ghost use Rattle.fields.specs.Pieces.{written_as, column};

use refusal::{Fault, Refusal};
use symbol::{Level, Output, Symbol};
use text::Step;

// What one byte writes, if it writes something.
fn written_by(b: u8) -> Option<Option<Symbol>>
    ensures { option_map written_as result ≡ written_of b }
{
    match b {
        b'0' => Some(Some(Symbol::Held(Level::Zero))),
        b'1' => Some(Some(Symbol::Held(Level::One))),
        b'x' | b'X' => Some(Some(Symbol::Held(Level::Unknown))),
        b'b' | b'B' => Some(Some(Symbol::Held(Level::Binary))),
        b'?' => Some(Some(Symbol::Held(Level::Any))),
        b'r' | b'R' => Some(Some(Symbol::Rise)),
        b'f' | b'F' => Some(Some(Symbol::Fall)),
        b'p' | b'P' => Some(Some(Symbol::Positive)),
        b'n' | b'N' => Some(Some(Symbol::Negative)),
        b'*' => Some(Some(Symbol::Every)),
        b'-' => Some(None),
        _ => None,
    }
}

// What is written by one byte.
fn read_byte(text: &[u8], at: usize) -> Step<Option<Symbol>>
    ensures { said written_of at (drop at text.now) ≡ stood text.now written_as result }
{
    let Some(b) = text.get(at) else {
        return Err(text::fault_at(text, at));
    };
    match written_by(*b) {
        Some(written) => Ok((written, at + 1)),
        None => Err(text::fault_at(text, at)),
    }
}

// What may stand in a column, where `edge` tells whether an edge may.
fn column_of(written: Option<Symbol>, edge: bool) -> Option<Symbol>
    ensures { result ≡ column_of edge (written_as written) }
{
    let s = written?;
    if offers::is_possible(s) & (edge | !symbol::is_edge(s)) {
        return Some(s);
    }
    None
}

// What may stand as a state.
fn state_of(written: Option<Symbol>) -> Option<Level>
    ensures { result ≡ state_of (written_as written) }
{
    let Symbol::Held(level) = written? else {
        return None;
    };
    Some(level)
}

// What may stand as an output.
fn output_of(written: Option<Symbol>, sequential: bool) -> Option<Output>
    ensures { result ≡ output_said sequential (written_as written) }
{
    match written {
        Some(Symbol::Held(Level::Zero)) => Some(Output::Out0),
        Some(Symbol::Held(Level::One)) => Some(Output::Out1),
        Some(Symbol::Held(Level::Unknown)) => Some(Output::Outx),
        None if sequential => Some(Output::Old),
        _ => None,
    }
}

// A level inside a pair, behind blanks.
fn read_inner(text: &[u8], at: usize) -> Step<Level>
    ensures { saying state_of (said written_of) at (drop at text.now) ≡ stood text.now (λ l. l) result }
{
    let p = text::skip_from(text, at);
    let (written, end) = read_byte(text, p)?;
    let level = state_of(written).ok_or(Fault::Symbol.at(p))?;
    Ok((level, end))
}

// What is written, a pair whole.
fn read_written(text: &[u8], at: usize) -> Step<Option<Symbol>>
    ensures { written at (drop at text.now) ≡ stood text.now written_as result }
{
    if text::one_at(text, at, b'(') {
        let (from, i) = read_inner(text, at + 1)?;
        let (to, j) = read_inner(text, i)?;
        let end = text::read_mark(text, j, b')')?;
        return Ok((Some(Symbol::Edge(from, to)), end));
    }
    read_byte(text, at)
}

// One column; a colon there is 7.
pub fn read_column(text: &[u8], at: usize, edge: bool) -> Step<Symbol>
    ensures { column edge at (drop at text.now) ≡ stood text.now (λ s. s) result }
{
    let i = text::skip_from(text, at);
    if text::one_at(text, i, b':') {
        return Err(Fault::Columns.at(i));
    }
    let (written, end) = read_written(text, i)?;
    let s = column_of(written, edge).ok_or(Fault::Symbol.at(i))?;
    Ok((s, end))
}

// A table symbol begins at a place.
pub fn symbol_at(text: &[u8], at: usize) -> bool
    ensures { result ≡ begins is_symbol (drop at text.now) }
{
    text.get(at).is_some_and(|b| text::is_symbol(*b))
}

// A row begins at a place.
pub fn row_at(text: &[u8], at: usize) -> bool
    ensures { result ≡ begins begins_row (drop at text.now) }
{
    symbol_at(text, at) | text::one_at(text, at, b':')
}

// The colon behind the last column; a symbol there is 7.
pub fn read_colon(text: &[u8], at: usize, edge: bool) -> Result<usize, Refusal>
    ensures { columns 0 edge at (drop at text.now) ≡ ended text.now [] result }
{
    let p = text::skip_from(text, at);
    if symbol_at(text, p) {
        return Err(Fault::Columns.at(p));
    }
    if text::one_at(text, p, b':') {
        return Ok(p + 1);
    }
    Err(text::fault_at(text, p))
}

// A state with its colon; a combinational row's state counts as `?`.
pub fn read_state(text: &[u8], at: usize, sequential: bool) -> Step<Level>
    ensures { state sequential at (drop at text.now) ≡ stood text.now (λ l. l) result }
{
    if !sequential {
        return Ok((Level::Any, at));
    }
    let p = text::skip_from(text, at);
    let (written, i) = read_written(text, p)?;
    let level = state_of(written).ok_or(Fault::Symbol.at(p))?;
    let end = text::read_mark(text, i, b':')?;
    Ok((level, end))
}

// An output.
pub fn read_output(text: &[u8], at: usize, sequential: bool) -> Step<Output>
    ensures { field (output_said sequential) at (drop at text.now) ≡ stood text.now (λ o. o) result }
{
    let p = text::skip_from(text, at);
    let (written, end) = read_written(text, p)?;
    let output = output_of(written, sequential).ok_or(Fault::Symbol.at(p))?;
    Ok((output, end))
}
