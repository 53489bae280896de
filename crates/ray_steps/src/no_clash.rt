//! The test for cones without clashing columns.

ghost use Rattle.std.specs.Prelude.{[]};

use crate::compatible::Compatible;
use support_bits::Support;

/// A test with `columns` columns, no two of which clash.
#[derive(Drop)]
pub struct NoClash {
    pub columns: u32,
}

impl Compatible for NoClash {
    ghost width = { λ it. it.columns };

    ghost clashing = { λ _. [] };

    ghost decides = { λ _. Unit {0} };

    fn columns(&self) -> u32 {
        self.columns
    }

    fn pairs(&self) -> &[(u32, u32)] {
        &[]
    }

    fn allows(&self, _a: &Support, _b: &Support) -> bool {
        true
    }
}
