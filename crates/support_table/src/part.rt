//! Parts of the rays of a table, with their supports stored one after another.

ghost use Rattle.std.specs.Prelude.{◌≡◌, ◌+◌, ◌/◌, ◌<◌, ◌^◌, ◌++◌, ◌∷◌, [], length, IfOk, OnOk};
ghost use Rattle.support_table.specs.Parts.{AreAllBelow, AreCopied, IsWithout};
ghost use Rattle.support_table.specs.Residuals.{support_at};
ghost use Rattle.support_table.specs.Tables.{Table};

use crate::table::SupportTable;
use out_of_memory::NoMemory;
use std::alloc::Global;
use support_bits::have_common;

/// Among at most so many rays outer rays are not parted further. Affects speed alone.
const UNSPLIT_RAYS: usize = 64;

/// Some rays of a table: their indices there, and copies of their supports in the same order.
#[derive(Drop)]
pub struct Part {
    pub places: Vec<usize>,
    pub table: SupportTable,
}

impl Part {
    /// No ray of a table with `columns` columns.
    fn none(alloc: Global, columns: u32) -> Part
        ensures places { result.places.items ≡ [] }
        ensures table { result.table ≡ record { columns = columns; supports = [] } }
    {
        Part {
            places: Vec::new(alloc),
            table: SupportTable::new(alloc, columns),
        }
    }

    /// Appends the ray with index `place`, a copy of the support of `table` with index `from`.
    fn push(&mut self, table: &SupportTable, from: usize, place: usize) -> Result<(), NoMemory>
        requires columns { table.now.columns ≡ self.old.table.columns }
        requires from { from < length table.now.supports }
        requires room { length self.old.table.supports + 1 < 2 ^ 64 }
        ensures places { OnOk result (self.new.places.items ≡ self.old.places.items ++ place ∷ []) }
        ensures table { OnOk result (self.new.table
            ≡ record {
              columns = self.old.table.columns;
              supports = self.old.table.supports
                  ++ support_at table.now.supports from ∷ [];
            }) }
    {
        self.table.push_from(table, from)?;
        self.places.push(place)?;
        Ok(())
    }

    /// All rays of `table`.
    pub fn whole(alloc: Global, table: &SupportTable) -> Result<Part, NoMemory>
        ensures places { IfOk result (λ part. AreAllBelow (length table.now.supports) part.places.items) }
        ensures copied { IfOk result (λ part. AreCopied table.now part.places.items part.table) }
    {
        let mut part = Part::none(alloc, table.columns());
        for place in 0..table.len() {
            part.push(table, place, place)?;
        }
        Ok(part)
    }

    /// Whether there are at most `UNSPLIT_RAYS` rays: among these outer rays are not parted further. Affects speed
    /// alone.
    pub fn is_small(&self) -> bool {
        self.places.len() <= UNSPLIT_RAYS
    }

    /// Those of the rays that contain none of the columns whose bits are set in `words`.
    pub fn without(&self, alloc: Global, words: &[u64]) -> Result<Part, NoMemory>
        requires count { length self.now.table.supports ≡ length self.now.places.items }
        requires words { length words.now ≡ (self.now.table.columns + 63) / 64 }
        ensures { IfOk result (λ left. (rays : Table) → AreCopied rays self.now.places.items self.now.table
            → IsWithout rays words.now self.now.places.items (length self.now.places.items) left) }
    {
        let mut left = Part::none(alloc, self.table.columns());
        for k in 0..self.places.len() {
            if !have_common(self.table.words_at(k), words) {
                left.push(&self.table, k, self.places[k])?;
            }
        }
        Ok(left)
    }
}
