//! The least fraction of the entries of two vectors, in lowest terms.

ghost use Rattle.std.specs.Prelude.{◌≡◌, ◌≢◌, ℕ, ◌*◌, ◌+◌, ◌<◌, ◌≤◌, ◌↔◌, IfNone, IfSome, IsTrue, length, slice_index};
ghost use Rattle.cone_definitions.specs.Vectors.{IsInside, IsNonzero};
ghost use Rattle.sum_definitions.specs.Sums.{IsLeastFraction};
ghost use Rattle.ray_decompose.specs.Fractions.{IsLeastColumn};

use crate::columns::is_inside;
use cone_arithmetic::gcd;

/// A fraction of two natural numbers. Invariant: `denominator` is not 0.
#[derive(Clone, Copy)]
pub struct Fraction {
    pub numerator: u128,
    pub denominator: u128,
    pub ghost some: { 1 ≤ denominator },
}

/// A vector `rest` that is divided by a ray, column by column. Invariant: both have equally many columns, and `ray` is
/// not 0.
#[derive(Clone, Copy)]
pub struct Division<'a> {
    pub rest: &'a [u128],
    pub ray: &'a [u128],
    pub ghost lengths: { length rest.now ≡ length ray.now },
    pub ghost nonzero: { ∥ IsNonzero ray.now ∥₁ },
}

/// Whether `first` is at most `second`. Compares the integer parts, and if they are equal the reciprocals of what
/// remains, as Euclid's algorithm does, so that no product can overflow.
fn is_at_most(first: Fraction, second: Fraction) -> bool
    ensures { IsTrue result ↔ (first.numerator * second.denominator ≤ second.numerator * first.denominator) }
{
    let first_whole = first.numerator / first.denominator;
    let second_whole = second.numerator / second.denominator;
    if first_whole != second_whole {
        return first_whole < second_whole;
    }
    let first_rest = first.numerator % first.denominator;
    let second_rest = second.numerator % second.denominator;
    if first_rest == 0 {
        return true;
    }
    if second_rest == 0 {
        return false;
    }
    let first_inverse = Fraction {
        numerator: first.denominator,
        denominator: first_rest,
    };
    let second_inverse = Fraction {
        numerator: second.denominator,
        denominator: second_rest,
    };
    is_at_most(second_inverse, first_inverse)
}

/// The first nonzero column of the ray of `division`.
fn first_column(division: Division) -> usize
    ensures in_range { result < length division.entry.ray.now }
    ensures some { slice_index division.entry.ray.now result ≢ 0 }
    ensures first { (earlier : ℕ) → earlier < result → slice_index division.entry.ray.now earlier ≡ 0 }
{
    for (column, entry) in division.ray.iter().enumerate() {
        if *entry != 0 {
            return column;
        }
    }
    unreachable!()
}

/// The first column at which the quotient of `division` is least, among the nonzero columns of its ray.
fn limiting_column(division: Division) -> usize
    ensures { IsLeastColumn division.entry.rest.now division.entry.ray.now (length division.entry.ray.now) result }
{
    let Division { rest, ray } = division;
    let mut least = first_column(division);
    for column in least + 1..ray.len() {
        if ray[column] == 0 {
            continue;
        }
        let former = Fraction {
            numerator: rest[least],
            denominator: ray[least],
        };
        let quotient = Fraction {
            numerator: rest[column],
            denominator: ray[column],
        };
        if !is_at_most(former, quotient) {
            least = column;
        }
    }
    least
}

/// The least quotient of `division`, of an entry of `rest` by a nonzero entry of `ray` in its column, in lowest terms.
pub fn least_fraction(division: Division) -> Fraction
    ensures { IsLeastFraction division.entry.rest.now division.entry.ray.now result.numerator result.denominator }
{
    let Division { rest, ray } = division;
    let column = limiting_column(division);
    let divisor = gcd(rest[column], ray[column]);
    Fraction {
        numerator: rest[column] / divisor,
        denominator: ray[column] / divisor,
    }
}

/// As `least_fraction`, or `None` if the support of the ray of `division` does not lie in that of `rest`.
pub fn fraction_inside(division: Division) -> Option<Fraction>
    ensures inside { IfSome result (λ _. IsInside division.entry.ray.now division.entry.rest.now) }
    ensures least { IfSome result (λ fraction.
        IsLeastFraction division.entry.rest.now division.entry.ray.now fraction.numerator fraction.denominator) }
    ensures none { IfNone result (IsInside division.entry.ray.now division.entry.rest.now → ⊥) }
{
    if is_inside(division) {
        Some(least_fraction(division))
    } else {
        None
    }
}
