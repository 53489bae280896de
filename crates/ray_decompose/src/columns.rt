//! Inclusion of supports, and the first column at which a multiple exceeds a limit.

ghost use Rattle.std.specs.Prelude.{◌≡◌, ◌*◌, ◌<◌, ◌^◌, ◌↔◌, IsTrue, IfSome, IfNone, length};
ghost use Rattle.cone_definitions.specs.Vectors.{IsInside};
ghost use Rattle.sum_definitions.specs.Sums.{IsWithinTimes};
ghost use Rattle.ray_decompose.specs.Sums.{IsFirstLarge};

use crate::fraction::Division;
use crate::products::product_within;

/// Whether each nonzero column of the ray of `division` is nonzero in `rest`.
pub fn is_inside(division: Division) -> bool
    ensures { IsTrue result ↔ IsInside division.entry.ray.now division.entry.rest.now }
{
    let Division { rest, ray } = division;
    for (column, entry) in ray.iter().enumerate() {
        if *entry != 0 && rest[column] == 0 {
            return false;
        }
    }
    true
}

/// Whether `first * second * entry` exceeds `limit`.
fn passes(entry: u128, first: u128, second: u128, limit: u128) -> bool
    ensures { IsTrue result ↔ (limit < first * second * entry) }
{
    if entry == 0 {
        return false;
    }
    match product_within(first, second, limit) {
        Some(times) => product_within(times, entry, limit).is_none(),
        None => true,
    }
}

/// The first column of `x` at which `first * second` times the entry exceeds `limit`, or `None`.
pub fn first_large(x: &[u128], first: u128, second: u128, limit: u128) -> Option<u32>
    requires { length x.now < 2 ^ 32 }
    ensures some { IfSome result (IsFirstLarge limit x.now (first * second)) }
    ensures none { IfNone result (IsWithinTimes limit x.now (first * second)) }
{
    for (column, entry) in x.iter().enumerate() {
        if passes(*entry, first, second, limit) {
            return Some(column as u32);
        }
    }
    None
}
