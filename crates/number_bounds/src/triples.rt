//! A bound on all numbers of an elimination by the columns of a system in groups of three that clash.

ghost use Rattle.std.specs.Prelude.{◌≡◌, ◌*◌, ◌/◌, ◌^◌, ◌<◌, ◌≤◌, IsTrue, IsFalse, IfOk, IfSome, IfNone, length};
ghost use Rattle.cone_bound_laws.specs.Caps.{caps_product};
ghost use Rattle.number_bounds.specs.Triples.{triple_cap, AreTriplesBounded, TriplesExceed};

use crate::sizes::{greatest_size, is_product_within};
use crate::squares::column_squares;
use cone_arithmetic::System;
use out_of_memory::NoMemory;
use std::alloc::Global;

/// The greatest of the three sums of squares of group `group`, and at least 1.
fn cap_of(squares: &[u64], group: usize) -> u64
    requires { group < length squares.now / 3 }
    ensures { result ≡ triple_cap squares.now group }
{
    let first = squares[3 * group];
    let second = squares[3 * group + 1];
    let third = squares[3 * group + 2];
    first.max(second).max(third).max(1)
}

/// The product of the caps of all groups of `squares`; `None` if it exceeds 2^128 - 1.
fn product_of_triples(squares: &[u64]) -> Option<u128>
    ensures some { IfSome result (λ product. product ≡ caps_product (triple_cap squares.now) (length squares.now / 3)) }
    ensures none { IfNone result (2 ^ 128 ≤ caps_product (triple_cap squares.now) (length squares.now / 3)) }
{
    let mut product: u128 = 1;
    for group in 0..squares.len() / 3 {
        product = product.checked_mul(u128::from(cap_of(squares, group)))?;
    }
    Some(product)
}

/// As `columns_fit` for `system` and `limit`, but takes of each three consecutive columns only the greatest sum of
/// squares. The bound holds for clashing pairs by which the columns of each such group clash. The number of columns is
/// a multiple of 3.
pub fn triples_fit(alloc: Global, system: &System, limit: u128) -> Result<bool, NoMemory>
    requires { 3 * (system.now.columns / 3) ≡ system.now.columns }
    ensures bounded { IfOk result (λ fit. IsTrue fit → AreTriplesBounded system.now limit) }
    ensures exceeded { IfOk result (λ fit. IsFalse fit → TriplesExceed system.now limit) }
{
    let Some(size) = greatest_size(system) else {
        return Ok(false);
    };
    let Some(squares) = column_squares(alloc, system)? else {
        return Ok(false);
    };
    match product_of_triples(&squares) {
        Some(product) => Ok(is_product_within(size, product, limit)),
        None => Ok(false),
    }
}
