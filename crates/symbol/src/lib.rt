#![tactic(auto, unfolding(crate::specs::Match::match_level, crate::specs::Match::match_edge, crate::specs::Match::match_held, crate::specs::Match::match_change, crate::specs::Match::match_field, crate::specs::Match::is_edge, crate::specs::Match::result_of, value::specs::Value::same_value, value::specs::Value::rank_of))]

ghost use Rattle.std.specs.Prelude.{◌≡◌};
ghost use Rattle.symbol.specs.Match.{match_level, match_edge, match_held, match_change, match_field, is_edge, result_of};

use value::Ternary;

// A level symbol: 0, 1, x, b, ?.
#[derive(Clone, Copy)]
pub enum Level {
    Zero,
    One,
    Unknown,
    Binary,
    Any,
}

// A table symbol as it is written: a level, a pair, or one of r f p n *.
#[derive(Clone, Copy)]
pub enum Symbol {
    Held(Level),
    Edge(Level, Level),
    Rise,
    Fall,
    Positive,
    Negative,
    Every,
}

// A row's output: 0, 1, x, or - for the old output.
#[derive(Clone, Copy, PartialEq, Eq)]
pub enum Output {
    Out0,
    Out1,
    Outx,
    Old,
}

// What matching receives: a symbol, and the input that is offered to it.
#[derive(Clone, Copy)]
pub struct Field {
    pub symbol: Symbol,
    pub before: Ternary,
    pub current: Ternary,
    pub considered: bool,
}

pub fn level_matches(l: Level, y: Ternary) -> bool
    ensures { result ≡ match_level l y }
{
    match l {
        Level::Zero => y == Ternary::ZERO,
        Level::One => y == Ternary::ONE,
        Level::Unknown => y == Ternary::X,
        Level::Binary => y == Ternary::ZERO || y == Ternary::ONE,
        Level::Any => true,
    }
}

fn edge_matches(v: Level, w: Level, before: Ternary, y: Ternary) -> bool
    ensures { result ≡ match_edge v w before y }
{
    before != y && level_matches(v, before) && level_matches(w, y)
}

fn held_matches(s: Symbol, y: Ternary) -> bool
    ensures { result ≡ match_held s y }
{
    match s {
        Symbol::Held(l) => level_matches(l, y),
        _ => false,
    }
}

pub fn change_matches(s: Symbol, before: Ternary, y: Ternary) -> bool
    ensures { result ≡ match_change s before y }
{
    match s {
        Symbol::Held(_) => false,
        Symbol::Edge(v, w) => edge_matches(v, w, before, y),
        Symbol::Rise => edge_matches(Level::Zero, Level::One, before, y),
        Symbol::Fall => edge_matches(Level::One, Level::Zero, before, y),
        Symbol::Positive => {
            edge_matches(Level::Zero, Level::One, before, y)
                || edge_matches(Level::Zero, Level::Unknown, before, y)
                || edge_matches(Level::Unknown, Level::One, before, y)
        }
        Symbol::Negative => {
            edge_matches(Level::One, Level::Zero, before, y)
                || edge_matches(Level::One, Level::Unknown, before, y)
                || edge_matches(Level::Unknown, Level::Zero, before, y)
        }
        Symbol::Every => edge_matches(Level::Any, Level::Any, before, y),
    }
}

pub fn matches(f: Field) -> bool
    ensures { result ≡ match_field f }
{
    if f.considered {
        change_matches(f.symbol, f.before, f.current)
    } else {
        held_matches(f.symbol, f.current)
    }
}

pub fn is_edge(s: Symbol) -> bool
    ensures { result ≡ is_edge s }
{
    !matches!(s, Symbol::Held(_))
}

// What a row with this output answers.
pub fn result_of(o: Output, old: Ternary) -> Ternary
    ensures { result ≡ result_of o old }
{
    match o {
        Output::Out0 => Ternary::ZERO,
        Output::Out1 => Ternary::ONE,
        Output::Outx => Ternary::X,
        Output::Old => old,
    }
}
