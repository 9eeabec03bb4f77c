#![tactic(auto)]

// One line of the book read: the verdict that its fields tell, and whether the line is just that verdict's entry.
ghost use Rattle.std.specs.Prelude.{◌≡◌, map, ◌-◌, get_or, take};
ghost use Rattle.base.specs.Limits.{input_limit};
ghost use Rattle.verdict.specs.Numbers.{number_from};
ghost use Rattle.handed.specs.Handed.{handed};
ghost use Rattle.line.specs.Told.{value_in, number_in, field_in, witness_in, finding_in, handed_by, is_entry};

use handed::Verdict;
use value::Ternary;
use verdict::{Finding, Witness};

// Field m of a line.
#[tactic(auto, using(files::proofs::Parts::part_order), unfolding(files::specs::Parts::part_at))]
fn field(line: &[u8], m: usize) -> &[u8]
    ensures { result.now ≡ field_in m line.now }
{
    let start = files::after(line, b' ', m);
    let end = files::next(line, b' ', start);
    &line[start..end]
}

// Byte k of a field, zero past its end.
fn byte(field: &[u8], k: usize) -> u8
    ensures { result ≡ get_or field.now k 0 }
{
    if k < field.len() { field[k] } else { 0 }
}

// What byte k of a field counts for as a digit.
fn figure(field: &[u8], k: usize) -> u8
    ensures { result ≡ get_or field.now k 0 - 48 }
{
    byte(field, k).saturating_sub(b'0')
}

// The value that byte k of a field says, else zero.
#[tactic(auto, unfolding(crate::specs::Told::value_in))]
fn value_at(field: &[u8], k: usize) -> Ternary
    ensures { result ≡ value_in (get_or field.now k 0) }
{
    Ternary::from_byte(byte(field, k)).unwrap_or(Ternary::ZERO)
}

// The number that one or two digits say.
#[tactic(auto, unfolding(crate::specs::Told::number_in))]
fn number(field: &[u8]) -> usize
    ensures { result ≡ number_in field.now }
{
    let first = usize::from(figure(field, 0));
    if field.len() == 1 {
        return first;
    }
    first * 10 + usize::from(figure(field, 1))
}

// The number of the vector in a field, of which no more than nine values count.
fn previous(field: &[u8]) -> usize
    ensures { result ≡ number_from 0 (map value_in (take input_limit field.now)) }
{
    let mut c: usize = 0;
    for k in 0..field.len().min(base::INPUTS) {
        c = c * 3 + value_at(field, k).to_rank();
    }
    c
}

#[tactic(auto, unfolding(crate::specs::Told::witness_in))]
fn witness(line: &[u8]) -> Witness
    ensures { result ≡ witness_in line.now }
{
    let first = figure(field(line, 7), 0);
    let second = figure(field(line, 7), 1);
    let first_output = value_at(field(line, 8), 0);
    let second_output = value_at(field(line, 10), 0);
    Witness {
        first,
        second,
        previous: previous(field(line, 4)),
        first_now: value_at(field(line, 5), usize::from(first.saturating_sub(1))),
        second_now: value_at(field(line, 5), usize::from(second.saturating_sub(1))),
        old: value_at(field(line, 6), 0),
        first_output,
        second_output,
    }
}

fn finding(line: &[u8]) -> Finding
    ensures { result ≡ finding_in line.now }
{
    if byte(field(line, 3), 0) == b'I' {
        return Finding::Independent;
    }
    Finding::Dependent(witness(line))
}

// The verdict that the fields of a line tell; its name is the line's first bytes.
pub fn read_line(line: &[u8]) -> Verdict<'_>
    ensures { handed result ≡ handed_by line.now }
{
    let name = field(line, 0);
    let inputs = number(field(line, 1));
    let rows = number(field(line, 2));
    let finding = finding(line);
    Verdict {
        name,
        inputs,
        rows,
        finding,
    }
}

// Whether a line, its LF left out, is the entry of a fitting verdict, starting at place s.
pub fn is_entry(line: &[u8], s: usize) -> bool
    ensures { result ≡ is_entry s line.now }
{
    let verdict = read_line(line);
    let Some(whole) = entry::line_length(verdict) else {
        return false;
    };
    let longer = whole - 1 != line.len();
    if longer {
        return false;
    }
    (0..line.len()).all(|k| line[k] == entry::line_byte(verdict, s, k))
}
