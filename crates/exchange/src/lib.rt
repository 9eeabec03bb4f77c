#![tactic(auto)]

ghost use Rattle.std.specs.Prelude.{◌≡◌, false, true, ◌+◌, ◌<◌, ◌≤◌, length};
ghost use Rattle.base.specs.Limits.{input_limit};
ghost use Rattle.base.specs.Search.{every};
ghost use Rattle.exchange.specs.Lanes.{rows_by, Level, Levels, place_of, Step, Steps, LanesTell};
ghost use Rattle.exchange.specs.Paths.{path_of, differ_of, agree_of, agree_at, agree_in};

use memo::Memo;

// A column that changes while another stands still; `turned` tells that it is the second of its pair.
#[derive(Clone, Copy)]
struct Columns {
    moving: usize,
    still: usize,
    turned: bool,
    ghost moving_in: { moving ≤ input_limit },
    ghost still_in: { still ≤ input_limit },
}

// Stays: the memo, the lanes and the rows are lent side by side, since each clause would name them `x.entry.memo.now` in a struct of loans, which is no plainer.
// The rows where the column that stands still has the value number w, the old output is o, and c is offered to the other.
#[tactic(auto, unfolding(crate::specs::Lanes::rows_by, memo::specs::Rows::cell_at))]
fn rows_by(memo: &Memo, columns: Columns, rows: u64, w: usize, o: usize, c: usize) -> u64
    requires { (w < 3) × (o < 3) × (c < 12) }
    ensures { result ≡ rows_by memo.now columns.still columns.moving rows w o c }
{
    rows & memo.cells[columns.still][w] & memo.cells[memo.inputs][o] & memo.cells[columns.moving][c]
}

fn level_at(
    memo: &Memo,
    lanes: &[u32; base::ROWS],
    columns: Columns,
    rows: u64,
    k: usize,
) -> [u32; 4]
    requires { k < 27 }
    ensures { Level memo.now lanes.now columns.moving columns.still rows k result }
{
    let o = k % 3;
    let set = rows_by(memo, columns, rows, k / 3 % 3, o, k / 9);
    planes::spread(lanes, &memo.outputs, set, o, [0, 0, 0, planes::LANES])
}

// What the level rows answer, for the values of both columns and the old output.
fn levels(memo: &Memo, lanes: &[u32; base::ROWS], columns: Columns, rows: u64) -> [[u32; 4]; 27]
    ensures by_first { Levels memo.now lanes.now columns.moving columns.still false rows result }
    ensures by_second { Levels memo.now lanes.now columns.still columns.moving true rows result }
{
    let mut planes = [[0u32; 4]; 27];
    for k in 0..27 {
        planes[k] = level_at(memo, lanes, columns, rows, k);
    }
    planes
}

#[tactic(auto, unfolding(crate::specs::Lanes::place_of))]
fn place(turned: bool, u: usize, w: usize) -> usize
    requires { (u < 3) × (w < 3) }
    ensures { (result ≡ place_of turned u w) × (result < 9) }
{
    if turned { w * 3 + u } else { u * 3 + w }
}

fn step_at(
    memo: &Memo,
    lanes: &[u32; base::ROWS],
    level: &[[u32; 4]; 27],
    columns: Columns,
    rows: u64,
    k: usize,
    o: usize,
) -> [u32; 3]
    requires place { (k < 27) × (o < 3) }
    requires levels { Levels memo.now lanes.now columns.moving columns.still columns.turned rows level.now }
    ensures { Step memo.now lanes.now columns.moving columns.still rows k o result }
{
    let u = k / 9;
    let w = k / 3 % 3;
    let a = k % 3;
    if a == u {
        return [0u32; 3];
    }
    let set = rows_by(memo, columns, rows, w, o, 3 + (a * 3 + u));
    let at = place(columns.turned, u, w);
    planes::closed(lanes, &memo.outputs, set, o, level[at * 3 + o])
}

// The steps of a column, for each value of both columns, each value that it comes from, and each old output.
fn steps(
    memo: &Memo,
    lanes: &[u32; base::ROWS],
    level: &[[u32; 4]; 27],
    columns: Columns,
    rows: u64,
) -> [[u32; 3]; 81]
    requires { Levels memo.now lanes.now columns.moving columns.still columns.turned rows level.now }
    ensures { Steps memo.now lanes.now columns.moving columns.still rows result }
{
    let mut steps = [[0u32; 3]; 81];
    for k in 0..27 {
        for o in 0..3 {
            steps[k * 3 + o] = step_at(memo, lanes, level, columns, rows, k, o);
        }
    }
    steps
}

// The lanes in which the step that `words` tells, and then the steps from q on, give m.
#[tactic(auto, unfolding(crate::specs::Paths::path_of))]
pub fn path(words: [u32; 3], then: &[[u32; 3]], q: usize, m: usize) -> u32
    requires { (q + 2 < length then.now) × (m < 3) }
    ensures { result ≡ path_of words then.now q m }
{
    (words[0] & then[q][m]) | ((words[1] & then[q + 1][m]) | (words[2] & then[q + 2][m]))
}

#[tactic(auto, unfolding(crate::specs::Paths::differ_of))]
fn differ(f: &[[u32; 3]; 81], h: &[[u32; 3]; 81], p: usize, q: usize, u: usize, v: usize) -> u32
    requires { (p < 81) × (q < 79) × (u < 81) × (v < 79) }
    ensures { result ≡ differ_of f.now h.now p q u v }
{
    (path(f[p], h, q, 1) ^ path(h[u], f, v, 1)) | (path(f[p], h, q, 2) ^ path(h[u], f, v, 2))
}

#[tactic(auto, unfolding(crate::specs::Paths::agree_of))]
fn agree(f: &[[u32; 3]; 81], h: &[[u32; 3]; 81], p: usize, q: usize, u: usize, v: usize) -> bool
    requires { (p < 79) × (q < 79) × (u < 79) × (v < 79) }
    ensures { result ≡ agree_of f.now h.now p q u v }
{
    let first = differ(f, h, p, q, u, v);
    let second = differ(f, h, p + 1, q, u + 1, v);
    let third = differ(f, h, p + 2, q, u + 2, v);
    ((first | (second | third)) & planes::LANES) == 0
}

// Both orders agree in every lane where the first column goes from a to x and the second from b to y.
#[tactic(auto, unfolding(crate::specs::Paths::agree_at))]
fn agree_at(f: &[[u32; 3]; 81], h: &[[u32; 3]; 81], x: usize, y: usize, a: usize, b: usize) -> bool
    requires { (x < 3) × (y < 3) × (a < 3) × (b < 3) }
    ensures { result ≡ agree_at f.now h.now x y a b }
{
    if b == y {
        return true;
    }
    agree(
        f,
        h,
        ((x * 3 + b) * 3 + a) * 3,
        ((y * 3 + x) * 3 + b) * 3,
        ((y * 3 + a) * 3 + b) * 3,
        ((x * 3 + y) * 3 + a) * 3,
    )
}

#[tactic(auto, unfolding(crate::specs::Paths::agree_in))]
fn agree_in(f: &[[u32; 3]; 81], h: &[[u32; 3]; 81], k: usize) -> bool
    requires { k < 27 }
    ensures { result ≡ agree_in f.now h.now k }
{
    let x = k / 9;
    let y = k / 3 % 3;
    let a = k % 3;
    if a == x {
        return true;
    }
    agree_at(f, h, x, y, a, 0) & (agree_at(f, h, x, y, a, 1) & agree_at(f, h, x, y, a, 2))
}

// Both orders agree in every lane, whatever the two columns' values.
fn all_agree(f: &[[u32; 3]; 81], h: &[[u32; 3]; 81]) -> bool
    ensures { result ≡ every 27 (agree_in f.now h.now) }
{
    (0..27).all(|k| agree_in(f, h, k))
}

// Whether both orders agree in every lane, where the given rows match in the columns that no lane tells of.
pub fn lanes_agree(memo: &Memo, lanes: &[u32; base::ROWS], i: usize, j: usize, rows: u64) -> bool
    requires { (i ≤ input_limit) × (j ≤ input_limit) }
    ensures { LanesTell memo.now lanes.now i j rows result }
{
    let first = Columns {
        moving: i,
        still: j,
        turned: false,
    };
    let second = Columns {
        moving: j,
        still: i,
        turned: true,
    };
    let level = levels(memo, lanes, first, rows);
    let f = steps(memo, lanes, &level, first, rows);
    let h = steps(memo, lanes, &level, second, rows);
    all_agree(&f, &h)
}
