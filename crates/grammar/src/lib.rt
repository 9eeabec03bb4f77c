#![tactic(auto)]

// The definition of reading: it stands in specs/, what is proved of it in proofs/.
pub fn nothing() -> usize {
    0
}
