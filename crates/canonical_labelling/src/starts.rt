//! The 24n starts of the traversals of a table of n tetrahedra, by index.

ghost use Rattle.std.specs.Prelude.{◌≡◌};
ghost use Rattle.signature_laws.specs.Starts as starts;

use crate::Start;
use perm_four::perm_at;

/// The start with index `number`: there are 24 for each tetrahedron, in the order of their permutations.
pub fn numbered_start(number: u32) -> Start
    ensures { result ≡ starts.numbered_start number }
{
    Start {
        tet: number / 24,
        perm: perm_at(number % 24),
    }
}

/// The start from which the inverse of the traversal's relabelling takes tetrahedron 0 to the tetrahedron of start
/// `number`, by the permutation of that start.
pub fn numbered_start_back(number: u32) -> Start
    ensures { result ≡ starts.numbered_start_back number }
{
    Start {
        tet: number / 24,
        perm: perm_at(number % 24).inverse(),
    }
}
