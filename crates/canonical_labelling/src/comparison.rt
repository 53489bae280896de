//! The state of a canonical traversal whose text is compared with a bound.

ghost use Rattle.std.specs.Prelude.{◌≡◌, ◌<◌, ◌≤◌, ◌*◌, All, length};
ghost use Rattle.table_definitions.specs.Table.{max_tets};

use crate::order::Walking;
use gluing_table::Glue;

/// The number of tetrahedra of a table.
#[derive(Clone, Copy)]
pub struct TableSize {
    pub count: u32,
    pub ghost limited: { count ≤ max_tets },
}

/// The state of a traversal: `numbers[t]` is the new number of a visited tetrahedron `t`; `crossed[k]` says whether the
/// new face with index `k` was reached from its other side; `types` has the types of the faces read, and `gluings` the
/// new gluings of those of type 2.
#[derive(Drop)]
pub struct Comparison {
    pub walking: Walking,
    pub numbers: Vec<u32>,
    pub crossed: Vec<bool>,
    pub types: Vec<u8>,
    pub gluings: Vec<Glue>,
    pub ghost limited: { length numbers.items ≤ max_tets },
    pub ghost marks: { length walking.visited.items ≡ length numbers.items },
    pub ghost faces: { length crossed.items ≡ 4 * length numbers.items },
    pub ghost small: { All (λ t. t < 3) types.items },
}

/// The memory of comparisons of traversals with bounds, for one table or tables of the same size: the state of a
/// traversal, and the head of the text. It is kept from one comparison to the next, and only what a traversal touched
/// is taken back.
#[derive(Drop)]
pub struct WorkSpace {
    pub comparison: Comparison,
    pub head: Vec<u8>,
}

/// The types found so far of a text, and the bound that it is compared with; `head` bytes of the text come before the
/// types.
#[derive(Clone, Copy)]
pub struct FoundTypes<'a> {
    pub types: &'a [u8],
    pub bound: &'a [u8],
    pub head: usize,
    pub ghost small: { All (λ t. t < 3) types.now },
    pub ghost limited: { length types.now ≤ 4000 },
    pub ghost bounded_before: { head ≤ 4000 },
}
