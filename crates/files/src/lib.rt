#![tactic(auto)]

ghost use Rattle.std.specs.Prelude.{◌≡◌};
ghost use Rattle.files.specs.Parts.{after_mark, next_mark};

// The place after the k-th `mark`, or the end where there are fewer.
#[tactic(auto, using(crate::proofs::Parts::walk_stop, crate::proofs::Parts::walk_end, crate::proofs::Parts::walk_mark, crate::proofs::Parts::walk_other))]
pub fn after(s: &[u8], mark: u8, k: usize) -> usize
    ensures { result ≡ after_mark mark k s.now }
{
    let mut left = k;
    for (i, x) in s.iter().enumerate() {
        let none_left = left == 0;
        if none_left {
            return i;
        }
        if *x == mark {
            left -= 1;
        }
    }
    s.len()
}

// The place of the first `mark` from `from` on, or the end where there is none.
#[tactic(auto, using(crate::proofs::Parts::next_more, crate::proofs::Parts::next_here, crate::proofs::Parts::next_none))]
pub fn next(s: &[u8], mark: u8, from: usize) -> usize
    ensures { result ≡ next_mark mark s.now from }
{
    for i in from..s.len() {
        if s[i] == mark {
            return i;
        }
    }
    from.max(s.len())
}
