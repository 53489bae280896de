//! The clash test of normal coordinates, with the list of the clashing pairs.

ghost use Rattle.std.specs.Prelude.{◌≡◌, ◌≤◌, IfOk};
ghost use Rattle.table_definitions.specs.Table.{max_tets};
ghost use Rattle.surface_definitions.specs.Coordinates as coordinates;
ghost use Rattle.ray_steps.specs.Clashes.{AreClashes};

use crate::clashes::clash_list;
use crate::masks::Masks;
use out_of_memory::NoMemory;
use ray_steps::Compatible;
use std::alloc::Global;
use support_bits::Support;
use surface_definitions::Coords;

/// The masks for a number of tetrahedra, with clashing pairs. Invariant: `pairs` are those of the coordinates and the
/// number of tetrahedra of `masks`, and `columns` is their number of columns.
#[derive(Drop)]
pub struct MaskedClashes {
    masks: Masks,
    pairs: Vec<(u32, u32)>,
    columns: u32,
    ghost same: { pairs.items ≡ coordinates.clash_list masks.coords masks.tets },
    ghost count: { columns ≡ coordinates.columns masks.coords masks.tets },
    ghost different: { AreClashes columns pairs.items },
}

impl MaskedClashes {
    /// The clash test for `tets` tetrahedra in the coordinates `coords`, which have `columns` columns.
    pub fn new(
        alloc: Global,
        coords: Coords,
        tets: u32,
        columns: u32,
    ) -> Result<MaskedClashes, NoMemory>
        requires tets { tets ≤ max_tets }
        requires columns { columns ≡ coordinates.columns coords tets }
        ensures pairs { IfOk result (λ test. test.pairs.items ≡ coordinates.clash_list coords tets) }
        ensures columns { IfOk result (λ test. test.columns ≡ columns) }
    {
        let pairs = clash_list(alloc, coords, tets)?;
        let masks = Masks::new(alloc, coords, tets)?;
        Ok(MaskedClashes {
            masks,
            pairs,
            columns,
        })
    }
}

impl Compatible for MaskedClashes {
    ghost width = { λ it. it.columns };

    ghost clashing = { λ it. it.pairs.items };

    ghost decides = { λ _. Unit {0} };

    fn columns(&self) -> u32 {
        self.columns
    }

    fn pairs(&self) -> &[(u32, u32)] {
        &self.pairs
    }

    fn allows(&self, a: &Support, b: &Support) -> bool {
        self.masks.allows(a, b)
    }
}
