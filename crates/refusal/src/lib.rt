#![tactic(auto)]

// Why a call refuses: the fault, which has a number, and the place where it lies.
ghost use Rattle.std.specs.Prelude.{◌≡◌};
ghost use Rattle.refusal.specs.Refusal.{number_of};

use std::fmt;

#[derive(Clone, Copy, PartialEq, Eq)]
pub enum Fault {
    LongText = 1,
    OpenComment,
    Unexpected,
    LongName,
    Port,
    TooMany,
    Columns,
    Symbol,
    Contradiction,
    Area,
    Value,
    Order,
    Book,
    Layout,
    NoRoom,
    NoEntry,
}

#[derive(Clone, Copy, PartialEq, Eq)]
pub struct Refusal {
    pub fault: Fault,
    pub place: usize,
}

impl Fault {
    pub fn number(self) -> u8
        ensures { result ≡ number_of self }
    {
        self as u8
    }

    // The refusal of this fault at a place.
    pub fn at(self, place: usize) -> Refusal
        ensures { result ≡ record { fault = self; place = place } }
    {
        Refusal { fault: self, place }
    }
}

impl fmt::Display for Refusal {
    fn fmt<W: fmt::Write>(&self, f: &mut fmt::Formatter<W>) -> fmt::Result {
        write!(f, "refused {} at {}", self.fault.number(), self.place)
    }
}
