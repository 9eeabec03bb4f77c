#![tactic(auto)]

ghost use Rattle.std.specs.Prelude.{◌≡◌, cond, ◌<◌};
ghost use Rattle.memo.specs.Outputs.{Low};
ghost use Rattle.planes.specs.Words.{bit};
ghost use Rattle.planes.specs.Planes.{Spread, Closed};

// All 27 lanes.
pub const LANES: u32 = 134217727;

// The word p where r is in m, else none.
pub fn lanes_of(m: u64, r: usize, p: u32) -> u32
    requires { r < 64 }
    ensures { result ≡ cond (bit m r) p 0 }
{
    if (m >> r) & 1 == 1 { p } else { 0 }
}

// The lanes that are open get the answers of the rows of a set: the first three words have the lanes with each answer, the last those with none.
pub fn spread(
    lanes: &[u32; base::ROWS],
    outputs: &[u8; memo::OUTPUTS],
    set: u64,
    o: usize,
    from: [u32; 4],
) -> [u32; 4]
    requires { o < 3 }
    ensures { Low outputs.now → Spread outputs.now lanes.now o set from result }
{
    let mut words = from;
    let mut free = words[3];
    let mut left = set;
    while left != 0 && free != 0 {
        let r = left.trailing_zeros() as usize;
        let new = lanes[r] & free;
        // A value number as it stands, and whatever the byte is, one of the words.
        let k = usize::from(outputs[r * 3 + o]) % 4;
        words[k] |= new;
        free ^= new;
        left &= left - 1;
    }
    words[3] = free;
    words
}

// The same, where a lane that has no answer at the end gets x.
pub fn closed(
    lanes: &[u32; base::ROWS],
    outputs: &[u8; memo::OUTPUTS],
    set: u64,
    o: usize,
    from: [u32; 4],
) -> [u32; 3]
    requires { o < 3 }
    ensures { Low outputs.now → Closed outputs.now lanes.now o set from result }
{
    let p = spread(lanes, outputs, set, o, from);
    [p[0], p[1], p[2] | p[3]]
}
