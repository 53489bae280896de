//! Subtracts a ray from the remainder.

ghost use Rattle.std.specs.Prelude.{◌≡◌, ℕ, ◌*◌, ◌<◌, ◌≤◌, ◌^◌, [], ◌∷◌, ◌++◌, map, length, slice_index, OnOk, IfOk};
ghost use Rattle.std.specs.List.{All};
ghost use Rattle.cone_definitions.specs.Vectors.{multiple};
ghost use Rattle.sum_definitions.specs.Sums.{Term as Taken, repeated, difference};

use crate::decomposing::Term;
use crate::fraction::Fraction;
use cone_arithmetic::Ray;
use out_of_memory::NoMemory;
use std::alloc::Global;

/// Multiplies the count of each term by `times`.
fn repeat(terms: &mut [Term], times: u128)
    requires { All (λ (term : Taken). times * term.count < 2 ^ 128) terms.old }
    ensures { terms.new ≡ map (repeated times) terms.old }
{
    for term in terms.iter_mut() {
        term.count = times * term.count;
    }
}

/// A ray that is taken out of a remainder: the numerator of `fraction` times `ray` is subtracted from the denominator
/// times `rest`. Invariant: both have equally many columns, no multiple of `rest` exceeds 2^128 - 1, and no difference
/// is negative.
#[derive(Drop)]
pub struct Subtraction<'a> {
    pub rest: Vec<u128>,
    pub fraction: Fraction,
    pub ray: &'a Ray,
    pub ghost lengths: { length ray.now ≡ length rest.items },
    pub ghost fits: { (column : ℕ) → fraction.denominator * slice_index rest.items column < 2 ^ 128 },
    pub ghost enough: { (column : ℕ) → fraction.numerator * slice_index ray.now column ≤ fraction.denominator * slice_index rest.items column },
}

/// What `taking` leaves of its remainder.
fn take_out(taking: Subtraction) -> Vec<u128>
    ensures { result.items ≡ difference (multiple taking.entry.fraction.denominator taking.entry.rest.items)
        (multiple taking.entry.fraction.numerator taking.entry.ray.now) }
{
    let fraction = taking.fraction;
    let ray = taking.ray.entries();
    let mut rest = taking.rest;
    for column in 0..rest.len() {
        rest[column] = fraction.denominator * rest[column] - fraction.numerator * ray[column];
    }
    rest
}

/// Multiplies the counts of `terms` by the denominator of `taking`, appends its ray to them, taken numerator times, and
/// returns what is left of its remainder.
pub fn take_ray(
    alloc: Global,
    terms: &mut Vec<Term>,
    taking: Subtraction,
) -> Result<Vec<u128>, NoMemory>
    requires { All (λ (term : Taken). taking.fraction.denominator * term.count < 2 ^ 128) terms.old.items }
    ensures terms { OnOk result (terms.new.items
        ≡ map (repeated taking.entry.fraction.denominator) terms.old.items
        ++ record { count = taking.entry.fraction.numerator; vector = taking.entry.ray.now } ∷ []) }
    ensures rest { IfOk result (λ left.
        left.items ≡ difference (multiple taking.entry.fraction.denominator taking.entry.rest.items)
        (multiple taking.entry.fraction.numerator taking.entry.ray.now)) }
{
    let fraction = taking.fraction;
    repeat(terms, fraction.denominator);
    terms.push(Term {
        count: fraction.numerator,
        vector: taking.ray.copy(alloc)?,
    })?;
    Ok(take_out(taking))
}
