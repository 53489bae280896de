//! Products within a limit.

ghost use Rattle.std.specs.Prelude.{◌≡◌, ◌*◌, ◌<◌, ◌≤◌, IfSome, IfNone, OnSome};

/// `a * b`, or `None` if it exceeds `limit`.
pub fn product_within(a: u128, b: u128, limit: u128) -> Option<u128>
    ensures some { IfSome result (λ product. product ≡ a * b) }
    ensures within { OnSome result (a * b ≤ limit) }
    ensures none { IfNone result (limit < a * b) }
{
    match a.checked_mul(b) {
        Some(product) if product <= limit => Some(product),
        _ => None,
    }
}
