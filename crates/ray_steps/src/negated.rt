//! Negates signs, and counts them.

ghost use Rattle.std.specs.Prelude.{◌≡◌, ◌↔◌, map, IsTrue, IfOk};
ghost use Rattle.ray_steps.specs.Negated.{negated_sign, HasPositive};

use crate::signs::Sign;
use out_of_memory::NoMemory;
use std::alloc::Global;

/// The sign of the negated row.
fn negated_sign(sign: Sign) -> Sign
    ensures { result ≡ negated_sign sign }
{
    match sign {
        Sign::Zero => Sign::Zero,
        Sign::Positive(value) => Sign::Negative(value),
        Sign::Negative(value) => Sign::Positive(value),
    }
}

/// The signs of the negated row, if those of the row are `signs`.
pub fn negated_signs(alloc: Global, signs: &[Sign]) -> Result<Vec<Sign>, NoMemory>
    ensures { IfOk result (λ negated. negated.items ≡ map negated_sign signs.now) }
{
    let negated = signs.iter().map(|sign| negated_sign(*sign)).collect(alloc)?;
    Ok(negated)
}

/// The number of positive signs in `signs`. Affects only how pairs are looked for, so the contract says nothing.
pub fn positive_count(signs: &[Sign]) -> usize {
    signs
        .iter()
        .filter(|sign| matches!(sign, Sign::Positive(_)))
        .count()
}

/// Whether more of `signs` are positive than negative. Affects speed alone, so the contract says nothing.
pub fn has_more_positives(signs: &[Sign]) -> bool {
    let negatives = signs
        .iter()
        .filter(|sign| matches!(sign, Sign::Negative(_)))
        .count();
    negatives < positive_count(signs)
}

/// Whether one of `signs` is positive.
pub fn has_positive(signs: &[Sign]) -> bool
    ensures { IsTrue result ↔ HasPositive signs.now }
{
    for (place, _) in signs.iter().enumerate() {
        if let Sign::Positive(_) = signs[place] {
            return true;
        }
    }
    false
}
