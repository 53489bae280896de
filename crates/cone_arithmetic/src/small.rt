//! Sums, products, quotients and common divisors, in 8 or in 64 bits if the numbers fit.

ghost use Rattle.std.specs.Prelude.{◌≡◌, ◌+◌, ◌*◌, ◌/◌, ◌<◌, ◌≤◌, ◌^◌, IfSome, IfNone};
ghost use Rattle.std.specs.Int.{IsGcd};

/// The greatest number of 64 bits: 2^64 - 1.
pub(crate) const MAX_SMALL: u128 = 18446744073709551615;

/// The greatest number of 8 bits: 2^8 - 1.
pub(crate) const MAX_BYTE: u128 = 255;

/// `a * x + b * y` if it is at most `most`. The sum of two products of numbers of 8 bits fits in 32 bits.
pub(crate) fn byte_sum(a: u8, x: u8, b: u8, y: u8, most: u8) -> Option<u8>
    ensures some { IfSome result (λ sum. sum ≡ a * x + b * y) }
    ensures within { IfSome result (λ sum. sum ≤ most) }
{
    let sum = u32::from(a) * u32::from(x) + u32::from(b) * u32::from(y);
    if sum <= u32::from(most) {
        Some(sum as u8)
    } else {
        None
    }
}

/// `a * x + b * y` if it is at most `limit` and the products and the sum fit in 64 bits. Most factors are 1.
pub(crate) fn small_sum(a: u64, x: u64, b: u64, y: u64, limit: u128) -> Option<u64>
    ensures some { IfSome result (λ sum. sum ≡ a * x + b * y) }
    ensures within { IfSome result (λ sum. sum ≤ limit) }
{
    let sum = if a == 1 && b == 1 {
        x.checked_add(y)?
    } else {
        a.checked_mul(x)?.checked_add(b.checked_mul(y)?)?
    };
    if u128::from(sum) <= limit {
        Some(sum)
    } else {
        None
    }
}

/// `a * b`, or `None` if it does not fit in 128 bits.
pub(crate) fn product(a: u128, b: u128) -> Option<u128>
    ensures some { IfSome result (λ product. product ≡ a * b) }
    ensures none { IfNone result (2 ^ 128 ≤ a * b) }
{
    if a <= MAX_SMALL && b <= MAX_SMALL {
        Some(product_of_small(a as u64, b as u64))
    } else {
        a.checked_mul(b)
    }
}

/// `a * b`, which fits in 128 bits.
fn product_of_small(a: u64, b: u64) -> u128
    ensures { result ≡ a * b }
{
    u128::from(a) * u128::from(b)
}

/// `a / b`, rounded down.
pub(crate) fn quotient(a: u128, b: u128) -> u128
    requires { 0 < b }
    ensures { result ≡ a / b }
{
    if a <= MAX_SMALL && b <= MAX_SMALL {
        u128::from(a as u64 / b as u64)
    } else {
        a / b
    }
}

/// The greatest common divisor of `a` and `b`; that of 0 and 0 is 0.
pub(crate) fn gcd_of_small(a: u64, b: u64) -> u64
    ensures { IsGcd a b result }
{
    let mut greater = a;
    let mut smaller = b;
    while smaller != 0 {
        let rest = greater % smaller;
        greater = smaller;
        smaller = rest;
    }
    greater
}

/// The greatest common divisor of `a` and `b`. At most one remainder needs 128 bits.
pub(crate) fn gcd_with_small(a: u128, b: u64) -> u128
    ensures { IsGcd a b result }
{
    if a <= MAX_SMALL {
        return u128::from(gcd_of_small(a as u64, b));
    }
    if b == 0 {
        return a;
    }
    let rest = a % u128::from(b);
    u128::from(gcd_of_small(b, rest as u64))
}
