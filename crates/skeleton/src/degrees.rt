//! Degrees of classes.

ghost use Rattle.std.specs.Prelude.{length, IfOk};
ghost use Rattle.skeleton.specs.Parts.{AreDegrees};

use crate::numbering::Numbering;
use out_of_memory::NoMemory;
use std::alloc::Global;

/// The number of members of each class of `numbering`.
pub fn degrees_of(alloc: Global, numbering: &Numbering) -> Result<Vec<u32>, NoMemory>
    ensures { IfOk result (λ degrees.
        AreDegrees numbering.now.classes.items (length numbering.now.firsts.items) degrees.items) }
{
    let mut degrees = vec![in alloc; 0; numbering.firsts.len()]?;
    for class in &numbering.classes {
        degrees[*class as usize] += 1;
    }
    Ok(degrees)
}
