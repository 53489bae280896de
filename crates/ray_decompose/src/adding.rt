//! Tests whether terms add up to a vector.

ghost use Rattle.std.specs.Prelude.{◌≡◌, ◌<◌, ◌^◌, length, Some, None, IsOk, OnOk, IfErr, IsTrue, ◌↔◌};
ghost use Rattle.std.specs.List.{All};
ghost use Rattle.cone_arithmetic.specs.declared.numbers.TheConstants.{MAX_ENTRY};
ghost use Rattle.sum_definitions.specs.Adding.{AddsUp, add_fault, column_fault, sum_at};
ghost use Rattle.ray_decompose.specs.Sums.{terms_of, HasWidth};

use crate::products::product_within;
use cone_arithmetic::MAX_ENTRY;
use sum_definitions::AddFault;

/// A term of a sum: the vector `entries`, taken `count` times.
#[derive(Drop)]
pub struct Given {
    pub count: u128,
    pub entries: Vec<u128>,
}

/// The column `index` of a test whether `times` times `x` is the sum of `terms`. Invariant: the column is one of `x`,
/// and each term has as many columns.
#[derive(Clone, Copy)]
struct Column<'a> {
    x: &'a [u128],
    times: u128,
    terms: &'a [Given],
    index: usize,
    ghost width: { length x.now < 2 ^ 32 },
    ghost in_range: { index < length x.now },
    ghost widths: { All (HasWidth (length x.now)) terms.now },
}

/// Whether the terms add up to `sum` in `column`.
fn are_equal(sum: u128, column: Column) -> bool
    ensures { IsTrue result ↔ (sum ≡ sum_at (terms_of column.entry.terms.now) column.entry.index) }
{
    let mut left = sum;
    for term in column.terms {
        match product_within(term.count, term.entries[column.index], left) {
            Some(product) => left -= product,
            None => return false,
        }
    }
    left == 0
}

/// The error at `column`, if there is one.
fn fault_at(column: Column) -> Option<AddFault>
    ensures { result ≡ column_fault MAX_ENTRY column.entry.x.now column.entry.times (terms_of column.entry.terms.now)
        column.entry.index }
{
    match product_within(column.times, column.x[column.index], MAX_ENTRY) {
        Some(sum) if are_equal(sum, column) => None,
        Some(_) => Some(AddFault::NotEqual {
            column: column.index as u32,
        }),
        None => Some(AddFault::Large {
            column: column.index as u32,
        }),
    }
}

/// Checks that `times` times `x` is the sum of `terms`. Fails with `ZeroTimes` if `times` is 0; then at the first
/// column at which `times` times the entry of `x` exceeds 2^127 - 1 (`Large`), or is not the sum (`NotEqual`).
pub fn add_up(x: &[u128], times: u128, terms: &[Given]) -> Result<(), AddFault>
    requires width { length x.now < 2 ^ 32 }
    requires terms { All (HasWidth (length x.now)) terms.now }
    ensures adds_up { IsOk result ↔ AddsUp MAX_ENTRY x.now times (terms_of terms.now) }
    ensures ok { OnOk result (add_fault MAX_ENTRY x.now times (terms_of terms.now) ≡ None) }
    ensures fault { IfErr result (λ fault. add_fault MAX_ENTRY x.now times (terms_of terms.now) ≡ Some fault) }
{
    if times == 0 {
        return Err(AddFault::ZeroTimes);
    }
    for index in 0..x.len() {
        let column = Column {
            x,
            times,
            terms,
            index,
        };
        if let Some(fault) = fault_at(column) {
            return Err(fault);
        }
    }
    Ok(())
}
