#![tactic(auto, unfolding(crate::specs::Area::kind_byte))]

ghost use Rattle.std.specs.Prelude.{◌≡◌, ◌+◌, ◌-◌, ◌*◌, ◌^◌, ◌<◌, length, get_or};
ghost use Rattle.symbol.specs.Masks.{offers};
ghost use Rattle.symbol.specs.declared.Symbol.TheVariants.{Held};
ghost use Rattle.table.specs.Places.{row_place};
ghost use Rattle.table.specs.Table.{row_at, symbol_at};
ghost use Rattle.stored.specs.Stored.{level_of, symbol_of};
ghost use Rattle.table.specs.Area.{kind_byte, decode};

use symbol::{Level, Output, Symbol};
use value::Ternary;

// The places of an area; specs/Places.antt has the same numbers.
pub const NAME_AT: usize = 1;

pub const KIND_AT: usize = NAME_AT + base::NAME;

pub const INPUTS_AT: usize = KIND_AT + 1;

pub const START_AT: usize = INPUTS_AT + 1;

pub const COUNT_AT: usize = START_AT + 1;

pub const ROWS_AT: usize = COUNT_AT + 1;

pub const STATE_AT: usize = 2 * base::INPUTS;

pub const OUTPUT_AT: usize = STATE_AT + 1;

pub const ROW_SIZE: usize = OUTPUT_AT + 1;

pub const AREA: usize = ROWS_AT + base::ROWS * ROW_SIZE;

// Stays: any bytes are an area, so a struct over them would have no invariant and each call would only wrap its slice, which is no plainer.

// The byte at a place, zero past the end.
pub fn byte_at(a: &[u8], p: usize) -> u8
    ensures { result ≡ get_or a.now p 0 }
{
    a.get(p).copied().unwrap_or(0)
}

pub fn name_length(a: &[u8]) -> usize
    ensures { result ≡ length (decode a.now).name }
{
    name_in(a).len()
}

// The name, where it lies.
pub fn name_in(a: &[u8]) -> &[u8]
    ensures { result.now ≡ (decode a.now).name }
{
    let size = usize::from(byte_at(a, 0));
    let rest = &a[NAME_AT.min(a.len())..];
    &rest[..size.min(rest.len())]
}

#[tactic(auto, unfolding(crate::specs::Area::decode))]
pub fn sequential(a: &[u8]) -> bool
    ensures { result ≡ (decode a.now).sequential }
{
    byte_at(a, KIND_AT) == b's'
}

#[tactic(auto, unfolding(crate::specs::Area::decode))]
pub fn inputs(a: &[u8]) -> usize
    ensures { result ≡ (decode a.now).inputs }
{
    usize::from(byte_at(a, INPUTS_AT))
}

// The starting value, x where its byte says none.
#[tactic(auto, unfolding(crate::specs::Area::decode, crate::specs::Area::or_x))]
pub fn start(a: &[u8]) -> Ternary
    ensures { result ≡ (decode a.now).start }
{
    Ternary::from_byte(byte_at(a, START_AT)).unwrap_or(Ternary::X)
}

#[tactic(auto, using(crate::proofs::Encoding::decode_count))]
pub fn rows(a: &[u8]) -> usize
    ensures { result ≡ length (decode a.now).rows }
{
    usize::from(byte_at(a, COUNT_AT))
}

// The byte at place k of row i.
pub fn byte_in_row(a: &[u8], i: usize, k: usize) -> u8
    requires row { i < length (decode a.now).rows }
    requires place { k < 2 ^ 16 }
    ensures { result ≡ get_or a.now (row_place i k) 0 }
{
    byte_at(a, ROWS_AT + i * ROW_SIZE + k)
}

// The two bytes that store a row's symbol in a column; past the last row or column those of ?, as the definition has it.
fn symbol_bytes(a: &[u8], i: usize, k: usize) -> (u8, u8)
    ensures { symbol_of result.0 result.1 ≡ symbol_at (row_at (decode a.now) i) k }
{
    if i < rows(a) && k < inputs(a) {
        (byte_in_row(a, i, 2 * k), byte_in_row(a, i, 2 * k + 1))
    } else {
        (b'?', 0)
    }
}

// A row's symbol in a column.
pub fn symbol_in(a: &[u8], i: usize, k: usize) -> Symbol
    ensures { result ≡ symbol_at (row_at (decode a.now) i) k }
{
    let (b, c) = symbol_bytes(a, i, k);
    stored::symbol_of(b, c)
}

// What that column may be offered, if the row matches, as a set.
pub fn offers_in(a: &[u8], i: usize, k: usize) -> u16
    ensures { result ≡ offers (symbol_at (row_at (decode a.now) i) k) }
{
    let (b, c) = symbol_bytes(a, i, k);
    offers::offers_of(b, c)
}

// The byte that stores a row's state; past the last row that of ?.
fn state_byte(a: &[u8], i: usize) -> u8
    ensures { level_of result ≡ (row_at (decode a.now) i).state }
{
    if i < rows(a) {
        byte_in_row(a, i, STATE_AT)
    } else {
        b'?'
    }
}

pub fn state_in(a: &[u8], i: usize) -> Level
    ensures { result ≡ (row_at (decode a.now) i).state }
{
    stored::level_of(state_byte(a, i))
}

// What the state may be offered, if the row matches, as a set.
pub fn state_offers(a: &[u8], i: usize) -> u16
    ensures { result ≡ offers (Held (row_at (decode a.now) i).state) }
{
    offers::level_offers(state_byte(a, i))
}

pub fn output_in(a: &[u8], i: usize) -> Output
    ensures { result ≡ (row_at (decode a.now) i).output }
{
    if i < rows(a) {
        stored::output_of(byte_in_row(a, i, OUTPUT_AT))
    } else {
        Output::Outx
    }
}

pub fn kind_byte(sequential: bool) -> u8
    ensures { result ≡ kind_byte sequential }
{
    if sequential { b's' } else { b'c' }
}
