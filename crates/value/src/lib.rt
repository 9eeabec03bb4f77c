#![tactic(auto, unfolding(crate::specs::Value::rank_of, crate::specs::Value::value_of, crate::specs::Value::byte_of, crate::specs::Value::read_byte))]

ghost use Rattle.std.specs.Prelude.{◌≡◌};
ghost use Rattle.value.specs.Value.{rank_of, value_of, byte_of, read_byte};

// The three values in their order; each has its rank as its number.
#[derive(Clone, Copy, PartialEq, Eq)]
pub enum Ternary {
    V0 = 0,
    V1 = 1,
    Vx = 2,
}

// Stays: a value has two numbers, its rank and its byte, and From and TryFrom have no name that says which.
impl Ternary {
    pub const ZERO: Ternary = Ternary::V0;

    pub const ONE: Ternary = Ternary::V1;

    pub const X: Ternary = Ternary::Vx;

    pub fn from_rank(k: usize) -> Ternary
        ensures { result ≡ value_of k }
    {
        match k {
            0 => Ternary::ZERO,
            1 => Ternary::ONE,
            _ => Ternary::X,
        }
    }

    pub fn to_rank(self) -> usize
        ensures { result ≡ rank_of self }
    {
        self as usize
    }

    // The value that a byte says, where it says one.
    pub fn from_byte(b: u8) -> Option<Ternary>
        ensures { result ≡ read_byte b }
    {
        match b {
            b'0' => Some(Ternary::ZERO),
            b'1' => Some(Ternary::ONE),
            b'x' => Some(Ternary::X),
            _ => None,
        }
    }

    pub fn to_byte(self) -> u8
        ensures { result ≡ byte_of self }
    {
        match self {
            Ternary::V0 => b'0',
            Ternary::V1 => b'1',
            Ternary::Vx => b'x',
        }
    }
}
