//! Sums with a limit.

ghost use Rattle.std.specs.Prelude.{◌≡◌, ◌*◌, ◌<◌, ◌≤◌, IfNone, IfSome, sum};
ghost use Rattle.text_definitions.specs.Written.{limit};

use text_io::LIMIT;

/// Four times the sum of `x`, or `None` if it exceeds 2^127 - 1.
pub fn four_times(x: &[u128]) -> Option<u128>
    ensures sum { IfSome result (λ s. s ≡ 4 * sum x.now) }
    ensures fits { IfSome result (λ s. 4 * sum x.now ≤ limit) }
    ensures large { IfNone result (limit < 4 * sum x.now) }
{
    let most = LIMIT / 4;
    let mut sum: u128 = 0;
    for entry in x {
        if *entry > most - sum {
            return None;
        }
        sum += *entry;
    }
    Some(4 * sum)
}
