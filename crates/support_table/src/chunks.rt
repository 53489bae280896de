//! The rays adjacent to each outer ray of a chunk.

ghost use Rattle.std.specs.Prelude.{OnOk};
ghost use Rattle.support_table.specs.Parts.{AreFoundFor, IsPart};

use crate::candidates::candidates_of;
use crate::chunk::{Chunk, ray_at};
use crate::groups::SearchMemory;
use crate::minimal::minimal_of;
use crate::parts::Found;
use out_of_memory::NoMemory;
use std::alloc::Global;

/// Finds the rays adjacent to each outer ray of `chunk`.
pub fn find_chunk(alloc: Global, chunk: Chunk, found: &mut Vec<Found>) -> Result<(), NoMemory>
    requires part { IsPart chunk.search.rays.now chunk.search.outers.now chunk.chosen.now chunk.part.now }
    requires found { AreFoundFor chunk.search.rays.now.supports chunk.search.outers.now chunk.search.selected.now
        chunk.search.most found.old.items }
    ensures { OnOk result (AreFoundFor chunk.entry.search.rays.now.supports chunk.entry.search.outers.now
        chunk.entry.search.selected.now chunk.entry.search.most found.new.items) }
{
    let search = chunk.search;
    let lists = candidates_of(alloc, chunk)?;
    let mut memory = SearchMemory::new(alloc);
    for (bit, list) in lists.iter().enumerate() {
        let ray = ray_at(chunk, bit);
        let places = minimal_of(alloc, ray, search.selected, list, &mut memory)?;
        found[ray.own] = Found {
            places: Some(places),
        };
    }
    Ok(())
}
