#![tactic(auto, unfolding(stored::specs::Stored::level_of, stored::specs::Stored::letter_of, stored::specs::Stored::symbol_of, symbol::specs::Masks::offers, symbol::specs::Masks::mask_of, symbol::specs::Masks::mask_from, symbol::specs::Match::offered, symbol::specs::Match::match_held, symbol::specs::Match::match_change, symbol::specs::Match::match_edge, symbol::specs::Match::match_level, value::specs::Value::same_value, value::specs::Value::rank_of, value::specs::Value::value_of))]

// What may be offered to a symbol that two stored bytes stand for, as a set: a bit for each value and each change.
ghost use Rattle.std.specs.Prelude.{◌≡◌};
ghost use Rattle.symbol.specs.declared.Symbol.TheVariants.{Held, Edge};
ghost use Rattle.symbol.specs.Match.{possible};
ghost use Rattle.symbol.specs.Masks.{offers};
ghost use Rattle.stored.specs.Stored.{level_of, letter_of, symbol_of};

use symbol::Symbol;

// What the level of a byte may be offered, if it matches: bit 0 for 0, bit 1 for 1, bit 2 for x.
pub fn level_offers(b: u8) -> u16
    ensures { result ≡ offers (Held (level_of b)) }
{
    match b {
        b'0' => 0b001,
        b'1' => 0b010,
        b'x' => 0b100,
        b'b' => 0b011,
        _ => 0b111,
    }
}

// The same for a pair: from bit 3 on the changes from 0, from 1 and from x, three bits each.
fn pair_offers(b: u8, c: u8) -> u16
    ensures { result ≡ offers (Edge (level_of b) (level_of c)) }
{
    let w = level_offers(c);
    let from_zero = (w & 0b110) * 8;
    let from_one = (w & 0b101) * 64;
    let from_x = (w & 0b011) * 512;
    match b {
        b'0' => from_zero,
        b'1' => from_one,
        b'x' => from_x,
        b'b' => from_zero + from_one,
        _ => from_zero + from_one + from_x,
    }
}

// The same for a letter.
fn letter_offers(b: u8) -> u16
    ensures { result ≡ offers (letter_of b) }
{
    match b {
        b'r' => 0b000_000_010_000,
        b'f' => 0b000_001_000_000,
        b'p' => 0b010_000_110_000,
        b'n' => 0b001_101_000_000,
        b'*' => 0b011_101_110_000,
        _ => level_offers(b),
    }
}

// The same for the symbol that two stored bytes stand for.
pub fn offers_of(b: u8, c: u8) -> u16
    ensures { result ≡ offers (symbol_of b c) }
{
    if c == 0 {
        letter_offers(b)
    } else {
        pair_offers(b, c)
    }
}

// Something matches the symbol: it is none of (00), (11), (xx).
pub fn is_possible(s: Symbol) -> bool
    ensures { result ≡ possible s }
{
    offers_of(stored::symbol_byte(s), stored::second_byte(s)) != 0
}
