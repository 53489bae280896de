//! Which columns may be nonzero together: the test that a step asks, and the columns that clash with each column.

ghost use Rattle.std.specs.Prelude.{◌≡◌, ℕ, ◌<◌, ◌↔◌, List, length, IsTrue, IfOk};
ghost use Rattle.cone_definitions.specs.Surfaces.{Clash};
ghost use Rattle.ray_steps.specs.Clashes.{AreClashes, IsClashFree, IsFree};
ghost use Rattle.support_table.specs.Joins.{AreClashingColumns};

use crate::partners::{ClashPairs, clash_sets};
use out_of_memory::NoMemory;
use std::alloc::Global;
use std::marker::Model;
use support_bits::Support;

/// A test whether the union of two supports contains a clashing pair of columns. In normal surface theory two columns
/// clash if they are quad or octagon types of one tetrahedron.
pub trait Compatible: Drop {
    /// The number of columns.
    ghost width: { Self → ℕ };

    /// The pairs of columns that clash.
    ghost clashing: { Self → List Clash };

    /// What must hold of the test before `allows` may be called.
    ghost decides: { Self → Type 0 };

    /// The number of columns.
    fn columns(&self) -> u32
        ensures { result ≡ width self.now };

    /// The pairs of columns that clash.
    fn pairs(&self) -> &[(u32, u32)]
        ensures pairs { result.now ≡ clashing self.now }
        ensures different { AreClashes (width self.now) result.now };

    /// Whether the union of `a` and `b` contains no clashing pair.
    fn allows(&self, a: &Support, b: &Support) -> bool
        requires decides { decides self.now }
        requires first { length a.now ≡ width self.now }
        requires second { length b.now ≡ width self.now }
        ensures { IsTrue result ↔ IsClashFree (clashing self.now) a.now b.now };
}

/// A test together with clashing columns. Invariant: `partners` has for each column the set of columns that clash with
/// it.
#[derive(Drop)]
pub struct Clashes<C: Compatible> {
    test: C,
    partners: Vec<Support>,
}

impl<C: Compatible> Model for Clashes<C> {
    ghost use Rattle.ray_steps.specs.Partners.{AreClashSets};
    ghost use Rattle.ray_steps.specs.Clashes.{ClashData};

    ghost Value = { ClashData };

    ghost view = { λ c. record { columns = C.width c.test; pairs = C.clashing c.test } };

    ghost invariant = { λ c. AreClashSets (C.width c.test) (C.clashing c.test) c.partners.items × C.decides c.test };
}

impl<C: Compatible> Clashes<C> {
    /// Computes the clashing columns of each column of `test`.
    pub fn new(alloc: Global, test: C) -> Result<Clashes<C>, NoMemory>
        requires { C.decides test }
        ensures columns { IfOk result (λ clashes. clashes.columns ≡ C.width test) }
        ensures pairs { IfOk result (λ clashes. clashes.pairs ≡ C.clashing test) }
    {
        let clashes = ClashPairs {
            columns: test.columns(),
            items: test.pairs(),
        };
        let partners = clash_sets(alloc, clashes)?;
        Ok(Clashes { test, partners })
    }

    /// The number of columns.
    pub fn columns(&self) -> u32
        ensures { result ≡ self.now.columns }
    {
        self.test.columns()
    }

    /// The pairs of columns that clash.
    pub fn pairs(&self) -> &[(u32, u32)]
        ensures pairs { result.now ≡ self.now.pairs }
        ensures different { AreClashes self.now.columns self.now.pairs }
    {
        self.test.pairs()
    }

    /// Whether the union of `a` and `b` contains no clashing pair.
    pub fn allows(&self, a: &Support, b: &Support) -> bool
        requires first { length a.now ≡ self.now.columns }
        requires second { length b.now ≡ self.now.columns }
        ensures { IsTrue result ↔ IsClashFree self.now.pairs a.now b.now }
    {
        self.test.allows(a, b)
    }

    /// Whether `column` clashes with no column.
    pub fn is_free(&self, column: u32) -> bool
        requires { column < self.now.columns }
        ensures { IsTrue result ↔ IsFree self.now.pairs column }
    {
        let partners = &self.partners[column as usize];
        !partners.meets(partners)
    }

    /// The columns that clash with a column of `support`.
    pub fn joined(&self, alloc: Global, support: &Support) -> Result<Support, NoMemory>
        requires { length support.now ≡ self.now.columns }
        ensures { IfOk result (AreClashingColumns self.now.pairs support.now) }
    {
        let mut joined = Support::none(alloc, support.columns())?;
        for column in 0..support.columns() {
            if support.contains(column) {
                joined.add(&self.partners[column as usize]);
            }
        }
        Ok(joined)
    }
}
