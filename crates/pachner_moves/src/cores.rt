//! Cores of moves: the vertices of a tetrahedron that determine a move.

ghost use Rattle.std.specs.Prelude.{◌≡◌, ◌<◌, ◌≤◌, ◌-◌, ◌↔◌, [], ◌∷◌, length, drop, IsSome, IfSome};
ghost use Rattle.std.specs.List.{slice_index_or};
ghost use Rattle.table_definitions.specs.Lists.{has};
ghost use Rattle.table_definitions.specs.Permutation.{four, others, IsPermutationOfFour, inverse};
ghost use Rattle.table_definitions.specs.Places.{edge_ends};
ghost use Rattle.move_definitions.specs.Moves as moves;
ghost use Rattle.move_definitions.specs.Moves.{IsCore, vertices_by_label};
ghost use Rattle.pachner_moves.specs.Cores.{core_of};

use perm_four::Perm4;
use std::marker::Model;

/// For each mask the index of the permutation that maps each vertex to its label.
const LABELS: [u8; 16] = [0, 0, 6, 0, 8, 2, 12, 0, 9, 3, 13, 1, 16, 4, 18, 0];

/// For each mask the number of vertices of the core.
const SIZES: [u8; 16] = [0, 1, 1, 2, 1, 2, 2, 3, 1, 2, 2, 3, 2, 3, 3, 4];

/// The masks of the last vertices, by their number.
const LAST: [u8; 5] = [15, 15, 14, 12, 8];

/// The mask of the ends of each edge, by its number.
const ENDS: [u8; 6] = [3, 5, 9, 6, 10, 12];

/// A nonempty set of vertices of a tetrahedron. Contracts see it as the ascending list of its vertices. Invariant:
/// `mask` is 1 to 15.
#[derive(Clone, Copy)]
pub struct Core {
    // bit v is set if vertex v is in the core
    mask: u8,
}

impl Model for Core {
    ghost use Rattle.std.specs.Prelude.{ℕ, List, ◌<◌};
    ghost use Rattle.pachner_moves.specs.Cores.{core_of, mask_of};

    ghost Value = { List ℕ };

    ghost view = { λ c. core_of c.mask };

    ghost invariant = { λ c. (0 < c.mask) × (c.mask < 16) };

    ghost inverse = { λ vertices. record { mask = mask_of vertices } };

    ghost use Rattle.pachner_moves.specs.Masks.{mask_again};

    ghost inverse_ok = { λ c h i. record { mask = mask_again c.mask h.1 i } };
}

impl Core {
    /// The core of the vertices whose bits are set in `mask`, or `None` if `mask` is 0 or above 15.
    pub fn new(mask: u8) -> Option<Core>
        ensures found { IsSome result ↔ ((0 < mask) × (mask < 16)) }
        ensures core { IfSome result (λ c. c ≡ core_of mask) }
    {
        if mask == 0 || mask > 15 {
            return None;
        }
        Some(Core { mask })
    }

    /// The core of the vertices whose bits are set in `mask`, which is 1 to 15.
    pub fn of_mask(mask: u8) -> Core
        requires some { 0 < mask }
        requires four_bits { mask < 16 }
        ensures { result ≡ core_of mask }
    {
        match Core::new(mask) {
            Some(core) => core,
            None => unreachable!(),
        }
    }

    /// The core of all four vertices, of the move 1-4.
    pub fn all() -> Core
        ensures { result ≡ four }
    {
        Core::of_mask(15)
    }

    /// The core of vertex `v`, of a 4-1 move.
    pub fn vertex(v: u8) -> Core
        requires { v < 4 }
        ensures { result ≡ v ∷ [] }
    {
        Core::of_mask(1 << v)
    }

    /// The core of the three vertices of the face opposite `v`, of a 2-3 move.
    pub fn opposite_face(v: u8) -> Core
        requires { v < 4 }
        ensures { result ≡ others v }
    {
        Core::of_mask(15 - (1 << v))
    }

    /// The core of the two ends of edge `e`, of a 3-2 move.
    pub fn edge(e: u8) -> Core
        requires { e < 6 }
        ensures { result ≡ slice_index_or edge_ends e [] }
    {
        Core::of_mask(ENDS[e as usize])
    }

    /// The cores of the six edges, by edge number.
    pub fn edges() -> [Core; 6]
        ensures { result ≡ edge_ends }
    {
        [
            Core::edge(0),
            Core::edge(1),
            Core::edge(2),
            Core::edge(3),
            Core::edge(4),
            Core::edge(5),
        ]
    }

    /// Whether vertex `v` is in the core; false if `v` is 4 or more.
    pub fn has(self, v: u8) -> bool
        ensures { result ≡ has self v }
    {
        if v >= 4 {
            return false;
        }
        self.mask >> v & 1 == 1
    }

    /// The number of vertices of the core, 1 to 4.
    pub fn size(self) -> u8
        ensures value { result ≡ length self }
        ensures core { IsCore self }
        ensures some { 0 < result }
        ensures most { result ≤ 4 }
    {
        SIZES[self.mask as usize]
    }

    /// The core of the inverse move: the last 5 - `size` vertices.
    pub fn opposite(self) -> Core
        ensures { result ≡ drop (length self - 1) four }
    {
        Core {
            mask: LAST[self.size() as usize],
        }
    }

    /// The permutation that maps each vertex to its label: first the vertices of the core, and then the others, both
    /// ascending.
    pub fn labels(self) -> Perm4
        ensures value { result ≡ inverse (vertices_by_label self) }
        ensures permutes { IsPermutationOfFour result }
    {
        match Perm4::of_index(LABELS[self.mask as usize]) {
            Some(labels) => labels,
            None => unreachable!(),
        }
    }
}

/// A Pachner move, by a tetrahedron and a core in it: the size of the core is 4 for 1-4, 3 for 2-3, 2 for 3-2 and 1 for
/// 4-1.
#[derive(Clone, Copy)]
pub struct Move {
    pub tet: u32,
    pub core: Core,
}

impl Model for Move {
    ghost use Rattle.move_definitions.specs.Moves as moves;

    ghost Value = { moves.Move };

    ghost view = { λ m. record { tet = m.tet; core = m.core } };

    ghost inverse = { λ m. record { tet = m.tet; core = m.core } };
}

impl Move {
    /// The number of vertices of the core, 1 to 4.
    pub fn core_size(&self) -> u8
        ensures value { result ≡ length self.now.core }
        ensures some { 0 < result }
        ensures most { result ≤ 4 }
    {
        self.core.size()
    }
}

/// The number of tetrahedra, out of `tets`, that a move with core `core` retains.
pub fn retained(tets: u32, core: Core) -> u32
    ensures { result ≡ tets - (5 - length core) }
{
    tets.saturating_sub(5 - u32::from(core.size()))
}

/// The inverse, up to relabelling, of the move `m` on a table of `tets` tetrahedra, to be played on the table that
/// results.
pub fn inverse_on(tets: u32, m: Move) -> Move
    ensures { result ≡ moves.inverse_move tets m }
{
    Move {
        tet: retained(tets, m.core),
        core: m.core.opposite(),
    }
}
