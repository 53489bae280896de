//! Counts selected things by their owners.

ghost use Rattle.std.specs.Prelude.{◌≡◌, ◌<◌, ◌^◌, ℕ, length, slice_index, IfOk};
ghost use Rattle.skeleton_class_laws.specs.Tallies.{AreTallies};

use out_of_memory::NoMemory;
use std::alloc::Global;

/// For each of `count` owners, the number of things that `passes` selects and that `owners` assigns to it.
pub fn tally(
    alloc: Global,
    passes: &[bool],
    owners: &[u32],
    count: usize,
) -> Result<Vec<u32>, NoMemory>
    requires one_each { length passes.now ≡ length owners.now }
    requires limited { length owners.now < 2 ^ 32 }
    requires in_range { (i : ℕ) → i < length owners.now → slice_index owners.now i < count }
    ensures { IfOk result (λ tallies. AreTallies passes.now owners.now count tallies.items) }
{
    let mut tallies = vec![in alloc; 0; count]?;
    for thing in 0..owners.len() {
        if passes[thing] {
            tallies[owners[thing] as usize] += 1;
        }
    }
    Ok(tallies)
}
