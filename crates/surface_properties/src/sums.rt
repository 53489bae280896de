//! Sums that saturate at 2^127, one more than the greatest entry, so that an overflow is seen at the end.

ghost use Rattle.std.specs.Prelude.{◌≡◌, ◌+◌, ◌<◌, length, sum, sum_by, slice_index, All};
ghost use Rattle.surface_properties.specs.Capped.{capped};

use text_io::LIMIT;

/// `a + b`, or 2^127 if the sum exceeds 2^127 - 1.
pub fn add(a: u128, b: u128) -> u128
    ensures { result ≡ capped (a + b) }
{
    a.saturating_add(b).min(LIMIT + 1)
}

/// The sum of the entries of `x` at `columns`, or 2^127 if it exceeds 2^127 - 1.
pub fn sum_at(x: &[u128], columns: &[u32]) -> u128
    requires { All (λ c. c < length x.now) columns.now }
    ensures { result ≡ capped (sum_by (slice_index x.now) columns.now) }
{
    let mut total = 0;
    for column in columns {
        total = add(total, x[*column as usize]);
    }
    total
}

/// The sum of all entries of `x`, or 2^127 if it exceeds 2^127 - 1.
pub fn sum_of(x: &[u128]) -> u128
    ensures { result ≡ capped (sum x.now) }
{
    let mut total = 0;
    for entry in x {
        total = add(total, *entry);
    }
    total
}
