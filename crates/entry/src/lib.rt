#![tactic(auto)]

// One line of the book from a verdict: how long it is, and each of its bytes.
ghost use Rattle.std.specs.Prelude.{◌≡◌, cond, [], ◌∷◌, ◌++◌, map, suc, length, get_or};
ghost use Rattle.base.specs.Listed.{listed};
ghost use Rattle.value.specs.declared.Ternary.TheVariants.{V0};
ghost use Rattle.value.specs.Value.{byte_of};
ghost use Rattle.orders.specs.Vectors.{vector_of};
ghost use Rattle.verdict.specs.Meaning.{now as current};
ghost use Rattle.files.specs.Files.{LF};
ghost use Rattle.entry.specs.Entry.{digit_of, decimal, witness_fields, finding_fields, fields, trailer, entry};
ghost use Rattle.handed.specs.Handed.{handed};
ghost use Rattle.entry.specs.Draft.{order_at, drafted, draft_finding, draft, length_of, said};

use handed::Verdict;
use value::Ternary;
use verdict::{Finding, Witness};

// ---- characters, and the values of vectors

fn digit(k: usize) -> u8
    ensures { result ≡ digit_of k }
{
    b'0' + (k % 10) as u8
}

// Place k of the current vector.
fn now_at(n: usize, w: Witness, k: usize) -> Ternary
    ensures { result ≡ get_or (current n w) k V0 }
{
    if n <= k {
        return Ternary::ZERO;
    }
    if k + 1 == usize::from(w.second) {
        return w.second_now;
    }
    if k + 1 == usize::from(w.first) {
        return w.first_now;
    }
    handed::value_at(n, w.previous, k)
}

// ---- the bytes of a field

fn lone(b: u8, k: usize) -> u8
    ensures { result ≡ get_or (b ∷ []) k 0 }
{
    if k == 0 { b } else { 0 }
}

fn decimal_length(x: usize) -> usize
    ensures { result ≡ length (decimal x) }
{
    if x < 10 { 1 } else { 2 }
}

fn decimal_byte(x: usize, k: usize) -> u8
    ensures { result ≡ get_or (decimal x) k 0 }
{
    if x < 10 {
        return lone(digit(x), k);
    }
    if k == 0 {
        return digit(x / 10);
    }
    lone(digit(x), k - 1)
}

#[tactic(auto, using(crate::proofs::Bytes::vector_byte_at, crate::proofs::Bytes::vector_byte_past))]
fn previous_byte(n: usize, c: usize, k: usize) -> u8
    ensures { result ≡ get_or (map byte_of (vector_of n c)) k 0 }
{
    if n <= k {
        return 0;
    }
    handed::value_at(n, c, k).to_byte()
}

#[tactic(auto, using(crate::proofs::Bytes::now_byte_at, crate::proofs::Bytes::now_byte_past))]
fn now_byte(n: usize, w: Witness, k: usize) -> u8
    ensures { result ≡ get_or (map byte_of (current n w)) k 0 }
{
    if n <= k {
        return 0;
    }
    now_at(n, w, k).to_byte()
}

// Place k of the order of a, b and the others rising, where a and b are the inputs of the witness.
#[tactic(auto, using(crate::proofs::Bytes::order_is, crate::proofs::Bytes::order_past), unfolding(crate::specs::Draft::order_at))]
fn order_byte(n: usize, w: Witness, a: u8, b: u8, k: usize) -> u8
    ensures { result ≡ get_or (map digit_of (listed (order_at w.first w.second a b) n)) k 0 }
{
    let lower = usize::from(w.first);
    let upper = usize::from(w.second);
    if n <= k {
        return 0;
    }
    if k == 0 {
        return digit(usize::from(a));
    }
    if k == 1 {
        return digit(usize::from(b));
    }
    if k - 1 < lower {
        if k - 1 < upper {
            return digit(k - 1);
        }
        return digit(k);
    }
    if k < upper {
        return digit(k);
    }
    digit(k + 1)
}

// ---- fields

// One field of a line; a vector and an order have as many places as the verdict has inputs.
#[derive(Clone, Copy)]
enum Field<'a> {
    Name(&'a [u8]),
    Decimal(usize),
    Lone(u8),
    Previous(usize, Witness),
    Now(usize, Witness),
    FirstOrder(usize, Witness),
    SecondOrder(usize, Witness),
    Nothing,
}

impl Field<'_> {
    // Inlined, so that a field is never stored before its byte is read.
    #[inline(always)]
    fn byte(self, k: usize) -> u8
        ensures { result ≡ get_or (said self.entry) k 0 }
    {
        match self {
            Field::Name(name) => if k < name.len() { name[k] } else { 0 },
            Field::Decimal(x) => decimal_byte(x, k),
            Field::Lone(b) => lone(b, k),
            Field::Previous(n, w) => previous_byte(n, w.previous, k),
            Field::Now(n, w) => now_byte(n, w, k),
            Field::FirstOrder(n, w) => order_byte(n, w, w.first, w.second, k),
            Field::SecondOrder(n, w) => order_byte(n, w, w.second, w.first, k),
            Field::Nothing => 0,
        }
    }
}

// Stays: the number is a place of the layout, and the definition numbers the fields.
fn witness_field<'a>(n: usize, w: Witness, m: usize) -> Field<'a>
    ensures { said result ≡ get_or (witness_fields (drafted n w)) m [] }
{
    match m {
        0 => Field::Lone(b'D'),
        1 => Field::Previous(n, w),
        2 => Field::Now(n, w),
        3 => Field::Lone(w.old.to_byte()),
        4 => Field::FirstOrder(n, w),
        5 => Field::Lone(w.first_output.to_byte()),
        6 => Field::SecondOrder(n, w),
        7 => Field::Lone(w.second_output.to_byte()),
        _ => Field::Nothing,
    }
}

fn finding_field<'a>(n: usize, finding: Finding, m: usize) -> Field<'a>
    ensures { said result ≡ get_or (finding_fields (draft_finding n finding)) m [] }
{
    match finding {
        Finding::Independent if m == 0 => Field::Lone(b'I'),
        Finding::Independent => Field::Nothing,
        Finding::Dependent(w) => witness_field(n, w, m),
    }
}

// Inlined, for the same reason as `byte`.
#[inline(always)]
fn field_at<'a>(verdict: Verdict<'a>, m: usize) -> Field<'a>
    ensures { said result ≡ get_or (fields (draft (handed verdict.entry))) m [] }
{
    match m {
        0 => Field::Name(verdict.name),
        1 => Field::Decimal(verdict.inputs),
        2 => Field::Decimal(verdict.rows),
        _ => finding_field(verdict.inputs, verdict.finding, m - 3),
    }
}

// Stays: the number is a place of the layout; a list of the bytes would be looked up by it in the same way.
fn trailer_byte(s: usize, k: usize) -> u8
    ensures { result ≡ get_or (trailer s ++ (LF ∷ [])) k 0 }
{
    match k {
        0 => b'@',
        1 => digit(s / 10000),
        2 => digit(s / 1000),
        3 => digit(s / 100),
        4 => digit(s / 10),
        5 => digit(s),
        6 => b'\n',
        _ => 0,
    }
}

// ---- the line

// Byte k of the line that starts at place s, its LF with it, where `lengths` says how long each field is.
// Inlined, so that each finding has a loop of its own, over a number of fields that is known there.
#[inline(always)]
fn byte_among(verdict: Verdict, lengths: &[usize], s: usize, k: usize) -> u8
    requires { lengths.now ≡ map length (fields (draft (handed verdict))) }
    ensures { result ≡ get_or (entry s (draft (handed verdict.entry)) ++ (LF ∷ [])) k 0 }
{
    let mut i = k;
    for m in 0..lengths.len() {
        let length = lengths[m];
        if i < length {
            return field_at(verdict, m).byte(i);
        }
        if i == length {
            return b' ';
        }
        i = i - length - 1;
    }
    trailer_byte(s, i)
}

// Byte k of the line that starts at place s, its LF with it.
pub fn line_byte(verdict: Verdict, s: usize, k: usize) -> u8
    ensures { result ≡ get_or (entry s (draft (handed verdict.entry)) ++ (LF ∷ [])) k 0 }
{
    let n = verdict.inputs;
    let name = verdict.name.len();
    let inputs = decimal_length(n);
    let rows = decimal_length(verdict.rows);
    match verdict.finding {
        Finding::Independent => byte_among(verdict, &[name, inputs, rows, 1], s, k),
        Finding::Dependent(_) => byte_among(
            verdict,
            &[name, inputs, rows, 1, n, n, 1, n, 1, n, 1],
            s,
            k,
        ),
    }
}

// The length of a verdict's line, its LF with it, where the verdict fits.
pub fn line_length(verdict: Verdict) -> Option<usize>
    ensures { result ≡ length_of (handed verdict.entry) }
{
    if !verdict.fits() {
        return None;
    }
    let short = verdict.name.len()
        + decimal_length(verdict.inputs)
        + decimal_length(verdict.rows)
        + 12;
    match verdict.finding {
        Finding::Independent => Some(short),
        Finding::Dependent(_) => Some(short + 4 * verdict.inputs + 10),
    }
}
