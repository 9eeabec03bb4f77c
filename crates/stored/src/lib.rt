#![tactic(auto, unfolding(crate::specs::Stored::level_byte, crate::specs::Stored::level_of, crate::specs::Stored::symbol_byte, crate::specs::Stored::second_byte, crate::specs::Stored::letter_of, crate::specs::Stored::symbol_of, crate::specs::Stored::output_byte, crate::specs::Stored::output_of, crate::specs::Stored::stores_level, crate::specs::Stored::stores_symbol, crate::specs::Stored::stores_output))]

ghost use Rattle.std.specs.Prelude.{◌≡◌};
ghost use Rattle.stored.specs.Stored.{level_byte, level_of, symbol_byte, second_byte, letter_of, symbol_of, output_byte, output_of, stores_level, stores_symbol, stores_output};

use symbol::{Level, Output, Symbol};

// Stays: From would stand in `symbol`, whose types know of no bytes, apart from the tests of the same letters here, which is no plainer.

pub fn level_byte(l: Level) -> u8
    ensures { result ≡ level_byte l }
{
    match l {
        Level::Zero => b'0',
        Level::One => b'1',
        Level::Unknown => b'x',
        Level::Binary => b'b',
        Level::Any => b'?',
    }
}

pub fn level_of(b: u8) -> Level
    ensures { result ≡ level_of b }
{
    match b {
        b'0' => Level::Zero,
        b'1' => Level::One,
        b'x' => Level::Unknown,
        b'b' => Level::Binary,
        _ => Level::Any,
    }
}

pub fn symbol_byte(s: Symbol) -> u8
    ensures { result ≡ symbol_byte s }
{
    match s {
        Symbol::Held(l) => level_byte(l),
        Symbol::Edge(v, _) => level_byte(v),
        Symbol::Rise => b'r',
        Symbol::Fall => b'f',
        Symbol::Positive => b'p',
        Symbol::Negative => b'n',
        Symbol::Every => b'*',
    }
}

pub fn second_byte(s: Symbol) -> u8
    ensures { result ≡ second_byte s }
{
    match s {
        Symbol::Edge(_, w) => level_byte(w),
        _ => 0,
    }
}

fn letter_of(b: u8) -> Symbol
    ensures { result ≡ letter_of b }
{
    match b {
        b'r' => Symbol::Rise,
        b'f' => Symbol::Fall,
        b'p' => Symbol::Positive,
        b'n' => Symbol::Negative,
        b'*' => Symbol::Every,
        _ => Symbol::Held(level_of(b)),
    }
}

// The symbol that two stored bytes stand for.
pub fn symbol_of(b: u8, c: u8) -> Symbol
    ensures { result ≡ symbol_of b c }
{
    if c == 0 {
        letter_of(b)
    } else {
        Symbol::Edge(level_of(b), level_of(c))
    }
}

// A byte is the one that stores its level.
pub fn stores_level(b: u8) -> bool
    ensures { result ≡ stores_level b }
{
    matches!(b, b'0' | b'1' | b'x' | b'b' | b'?')
}

fn stores_letter(b: u8) -> bool
    ensures { result ≡ stores_symbol b 0 }
{
    matches!(b, b'r' | b'f' | b'p' | b'n' | b'*') || stores_level(b)
}

// Two bytes are those that store their symbol.
pub fn stores_symbol(b: u8, c: u8) -> bool
    ensures { result ≡ stores_symbol b c }
{
    if c == 0 {
        stores_letter(b)
    } else {
        stores_level(b) && stores_level(c)
    }
}

pub fn output_byte(o: Output) -> u8
    ensures { result ≡ output_byte o }
{
    match o {
        Output::Out0 => b'0',
        Output::Out1 => b'1',
        Output::Outx => b'x',
        Output::Old => b'-',
    }
}

pub fn output_of(b: u8) -> Output
    ensures { result ≡ output_of b }
{
    match b {
        b'0' => Output::Out0,
        b'1' => Output::Out1,
        b'x' => Output::Outx,
        _ => Output::Old,
    }
}

// A byte is the one that stores its output.
pub fn stores_output(b: u8) -> bool
    ensures { result ≡ stores_output b }
{
    matches!(b, b'0' | b'1' | b'x' | b'-')
}
