//! Orientable double covers.

ghost use Rattle.std.specs.Prelude.{◌≡◌, ◌*◌, ◌<◌, ◌≤◌, length, Some, None, IfOk, IfErr, OnOk, IfSome};
ghost use Rattle.std.specs.Option.{option_copied, option_map};
ghost use Rattle.out_of_memory.specs.Failures.{IfFault};
ghost use Rattle.table_definitions.specs.Table.{IsTable};
ghost use Rattle.table_definitions.specs.Relabelling.{Carries};
ghost use Rattle.skeleton_definitions.specs.Orientation.{AreSigns};
ghost use Rattle.skeleton.specs.Parts.{items_of};
ghost use Rattle.cover_definitions.specs.Cover as definition;

use crate::images::{by_images, exchange_images, split_images};
use crate::rows::cover_table;
use crate::sheets::Sheets;
use cover_definitions::LargeCover;
use gluing_table::{MAX_TETS, Relabelling, Table};
use out_of_memory::{Failure, NoMemory};
use skeleton::Skeleton;
use std::alloc::{AllocError, Global};
use std::marker::Model;

/// The orientable double cover of a table. Contracts see the rows of the covered table. Invariant: `table` is the cover
/// of `base`, with at most `MAX_TETS` tetrahedra, and `signs` is an orientation of `base`, if it has one.
#[derive(Drop)]
pub struct Cover {
    base: Table,
    table: Table,
    signs: Option<Vec<bool>>,
}

impl Model for Cover {
    ghost use Rattle.std.specs.Prelude.{◌≡◌, ◌*◌, ◌≤◌, List, length};
    ghost use Rattle.std.specs.Option.{option_map};
    ghost use Rattle.table_definitions.specs.Table.{max_tets, Row, IsTable};
    ghost use Rattle.skeleton_definitions.specs.Skeleton.{IsOrientation};
    ghost use Rattle.cover_definitions.specs.Cover as definition;
    ghost use Rattle.skeleton.specs.Parts.{items_of};

    ghost Value = { List Row };

    ghost view = { λ c. c.base };

    ghost invariant = { λ c. (2 * length c.base ≤ max_tets) × IsTable c.base × (c.table ≡ definition.cover c.base) × IsOrientation c.base (option_map items_of c.signs) };
}

/// Why `of` fails: the cover would have more than `MAX_TETS` tetrahedra, or memory runs out.
pub type CoverFault = Failure<LargeCover>;

/// Copies `signs`.
fn copy_signs(alloc: Global, signs: Option<&[bool]>) -> Result<Option<Vec<bool>>, AllocError>
    ensures { IfOk result (λ copy. option_map items_of copy ≡ option_copied signs.entry) }
{
    match signs {
        Some(signs) => {
            let copy = Vec::from_slice(alloc, signs)?;
            Ok(Some(copy))
        }
        None => Ok(None),
    }
}

impl Cover {
    /// The orientable double cover of the table of `skeleton`, with one tetrahedron on each of two sheets over every
    /// tetrahedron. Across an odd gluing the sheet is the same, and across an even one it changes, as in Regina's
    /// `makeDoubleCover`. Fails with [`TooMany`] if the cover would have more than [`MAX_TETS`] tetrahedra.
    pub fn of(alloc: Global, skeleton: &Skeleton) -> Result<Cover, CoverFault>
        ensures cover { IfOk result (λ c. c ≡ skeleton.now.rows) }
        ensures fits { OnOk result (definition.cover_fault skeleton.now.rows ≡ None) }
        ensures fault { IfErr result (λ e. IfFault e (λ f. definition.cover_fault skeleton.now.rows ≡ Some f)) }
    {
        let base = skeleton.table();
        if 2 * base.len() > MAX_TETS {
            return Err(Failure::Fault(LargeCover));
        }
        let table = cover_table(alloc, base)?;
        let signs = copy_signs(alloc, skeleton.orientation())?;
        let base = base.copy(alloc)?;
        Ok(Cover { base, table, signs })
    }

    /// The cover as a table. Its sheets are an orientation of it.
    pub fn table(&self) -> &Table
        ensures rows { result.now ≡ definition.cover self.now }
        ensures size { length result.now ≡ 2 * length self.now }
        ensures is_table { IsTable result.now }
        ensures covers { IsTable self.now }
        ensures signs { AreSigns result.now (definition.sheet_signs (length self.now)) }
    {
        &self.table
    }

    /// The tetrahedron of the base below tetrahedron `tet` of the cover.
    pub fn over(&self, tet: u32) -> u32
        requires { tet < 2 * length self.now }
        ensures value { result ≡ definition.over (length self.now) tet }
        ensures in_range { result < length self.now }
    {
        let sheets = Sheets {
            tets: self.base.len(),
        };
        sheets.over(tet)
    }

    /// The sheet, 0 or 1, of tetrahedron `tet` of the cover.
    pub fn sheet(&self, tet: u32) -> u8
        requires { tet < 2 * length self.now }
        ensures value { result ≡ definition.sheet (length self.now) tet }
        ensures two { result ≤ 1 }
    {
        let sheets = Sheets {
            tets: self.base.len(),
        };
        sheets.sheet(tet).number
    }

    /// The deck transformation that exchanges the sheets and fixes all vertex numbers, as a relabelling that carries
    /// the cover to itself.
    pub fn exchange(&self, alloc: Global) -> Result<Relabelling, NoMemory>
        ensures size { IfOk result (λ by. length by.images ≡ 2 * length self.now) }
        ensures exchange { IfOk result (λ by. by ≡ definition.exchange (length self.now)) }
        ensures carries { IfOk result (λ by. Carries by (definition.cover self.now) (definition.cover self.now)) }
    {
        let sheets = Sheets {
            tets: self.base.len(),
        };
        let images = exchange_images(alloc, sheets)?;
        let by = by_images(alloc, images)?;
        Ok(by)
    }

    /// The relabelling that carries the cover to two copies of the base, the second numbered after the first, and fixes
    /// all vertex numbers; `None` if and only if the base is non-orientable. A tetrahedron is mapped to the copy with
    /// the number of its sheet if the orientation's sign below it is true, and to the other copy if it is false.
    pub fn split(&self, alloc: Global) -> Result<Option<Relabelling>, NoMemory>
        ensures size { IfOk result (λ by. IfSome by (λ r. length r.images ≡ 2 * length self.now)) }
        ensures split { IfOk result (λ by. definition.IsSplit self.now by) }
        ensures carries { IfOk result (λ by.
            IfSome by (λ r. Carries r (definition.cover self.now) (definition.two_copies self.now))) }
    {
        let Some(signs) = &self.signs else {
            return Ok(None);
        };
        let sheets = Sheets {
            tets: self.base.len(),
        };
        let images = split_images(alloc, sheets, signs)?;
        let by = by_images(alloc, images)?;
        Ok(Some(by))
    }
}
