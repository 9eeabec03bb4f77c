#![tactic(auto)]

ghost use Rattle.std.specs.Prelude.{◌≡◌, ◌<◌, eqb, length, get_or};
ghost use Rattle.base.specs.Search.{some, found};
ghost use Rattle.value.specs.declared.Ternary.TheVariants.{V0};
ghost use Rattle.evaluation.specs.Call.{evaluated};
ghost use Rattle.evaluation.specs.Called.{is_value, value_in, good_vector, good_values, vector_in, padded, faulty};

use refusal::{Fault, Refusal};
use std::array;
use value::Ternary;

#[tactic(auto, unfolding(crate::specs::Called::is_value))]
fn is_value(b: u8) -> bool
    ensures { result ≡ is_value b }
{
    Ternary::from_byte(b).is_some()
}

#[tactic(auto, unfolding(crate::specs::Called::value_in))]
fn value_said(b: u8) -> Ternary
    ensures { result ≡ value_in b }
{
    Ternary::from_byte(b).unwrap_or(Ternary::X)
}

fn good_vector(n: usize, s: &[u8]) -> bool
    ensures { result ≡ good_vector n s.now }
{
    s.len() == n && s.iter().all(|b| is_value(*b))
}

#[tactic(auto, unfolding(crate::specs::Called::good_values))]
fn good_values(n: usize, prev: &[u8], cur: &[u8], old: u8) -> bool
    ensures { result ≡ good_values n prev.now cur.now old }
{
    good_vector(n, prev) && good_vector(n, cur) && is_value(old)
}

// The value at a place of the vector that the bytes say, 0 past its end.
fn place_in(s: &[u8], k: usize) -> Ternary
    ensures { result ≡ get_or (vector_in s.now) k V0 }
{
    s.get(k).map_or(Ternary::ZERO, |b| value_said(*b))
}

// That vector, with 0 in the places past its end.
#[tactic(auto, unfolding(crate::specs::Called::padded))]
fn vector_in(s: &[u8]) -> [Ternary; base::INPUTS]
    ensures { result ≡ padded (vector_in s.now) }
{
    array::from_fn(|k| place_in(s, k))
}

fn repeats(l: &[u8], k: usize) -> bool
    requires { k < length l.now }
    ensures { result ≡ some k (λ m. eqb (get_or l.now m 0) (get_or l.now k 0)) }
{
    l[..k].contains(&l[k])
}

#[tactic(auto, unfolding(crate::specs::Called::faulty))]
fn is_faulty(n: usize, l: &[u8], k: usize) -> bool
    requires { k < length l.now }
    ensures { result ≡ faulty n l.now k }
{
    !(1..=n).contains(&usize::from(l[k])) || repeats(l, k)
}

fn first_fault(n: usize, l: &[u8]) -> Option<usize>
    ensures { result ≡ found (length l.now) (faulty n l.now) }
{
    (0..l.len()).find(|k| is_faulty(n, l, *k))
}

// Evaluates a lent table along an order, from the previous to the current vector.
pub fn evaluate(
    area: &[u8],
    prev: &[u8],
    cur: &[u8],
    old: u8,
    order: &[u8],
) -> Result<Ternary, Refusal>
    ensures { result ≡ evaluated area.now prev.now cur.now old order.now }
{
    if !formed::well_formed(area) {
        return Err(Fault::Area.at(0));
    }
    let inputs = table::inputs(area);
    if !good_values(inputs, prev, cur, old) {
        return Err(Fault::Value.at(0));
    }
    if let Some(place) = first_fault(inputs, order) {
        return Err(Fault::Order.at(place));
    }
    Ok(step::follow(
        area,
        vector_in(prev),
        vector_in(cur),
        value_said(old),
        order,
    ))
}
