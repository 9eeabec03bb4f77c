#![tactic(auto)]

// The limits of document 01; specs/Limits.antt has the same numbers.
pub const TEXT: usize = 65536;

pub const INPUTS: usize = 9;

pub const ROWS: usize = 64;

pub const NAME: usize = 32;

pub const BOOK: usize = 65536;
