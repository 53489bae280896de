//! The two sheets of the cover.

ghost use Rattle.std.specs.Prelude.{◌≡◌, ◌+◌, ◌<◌, ◌≤◌};
ghost use Rattle.table_definitions.specs.Table.{max_tets};
ghost use Rattle.cover_definitions.specs.Cover as definition;

/// A sheet of the cover. Invariant: `number` is 0 or 1.
#[derive(Clone, Copy)]
pub struct Sheet {
    pub number: u8,
    pub ghost two: { number ≤ 1 },
}

impl Sheet {
    /// The other sheet.
    pub fn other(self) -> Sheet
        ensures { result.number ≡ definition.other_sheet self.number }
    {
        Sheet {
            number: 1 - self.number,
        }
    }
}

/// The numbering of the cover of a table of `tets` tetrahedra: t on sheet 0, `tets` + t on sheet 1. Invariant: `tets`
/// is at most `MAX_TETS`.
#[derive(Clone, Copy)]
pub struct Sheets {
    pub tets: u32,
    pub ghost limited: { tets ≤ max_tets },
}

impl Sheets {
    /// The tetrahedron below tetrahedron `tet` of the cover.
    pub fn over(self, tet: u32) -> u32
        ensures { result ≡ definition.over self.tets tet }
    {
        if tet < self.tets {
            tet
        } else {
            tet - self.tets
        }
    }

    /// The sheet of tetrahedron `tet` of the cover.
    pub fn sheet(self, tet: u32) -> Sheet
        ensures { result.number ≡ definition.sheet self.tets tet }
    {
        if tet < self.tets {
            Sheet { number: 0 }
        } else {
            Sheet { number: 1 }
        }
    }

    /// The tetrahedron of the cover over `tet` on `sheet`.
    pub fn above(self, tet: u32, sheet: Sheet) -> u32
        requires { tet < self.tets }
        ensures { result ≡ definition.above self.tets tet sheet.number }
    {
        if sheet.number == 0 {
            tet
        } else {
            self.tets + tet
        }
    }
}
