#![tactic(auto)]

use value::Ternary;

// A disagreement of the orders `first, second, others rising` and `second, first, others rising`. `previous` is the previous vector
// as a number in base 3, its digits ranks, input 1 weighing most; of the current vector only the two values that differ are held.
#[derive(Clone, Copy)]
pub struct Witness {
    pub first: u8,
    pub second: u8,
    pub previous: usize,
    pub first_now: Ternary,
    pub second_now: Ternary,
    pub old: Ternary,
    pub first_output: Ternary,
    pub second_output: Ternary,
}

#[derive(Clone, Copy)]
pub enum Finding {
    Independent,
    Dependent(Witness),
}
