//! The components of a surface.

ghost use Rattle.std.specs.Prelude.{◌≡◌, ◌<◌, ◌≤◌, length, sum, Ok, Err, IfOk, IfErr};
ghost use Rattle.std.specs.List.{slice_index_or};
ghost use Rattle.out_of_memory.specs.Failures.{IfFault};
ghost use Rattle.text_definitions.specs.Written.{limit};
ghost use Rattle.surface_vector_definitions.specs.Components.{AreListedComponents, IsPiecesAnswer};
ghost use Rattle.surface_laws.specs.PieceLaws.{IsSurface};
ghost use Rattle.surface_pieces.specs.ComponentLists.{no_component};
ghost use Rattle.surface_pieces.specs.Slots.{slots_each};

use crate::counts::{entries_of, total};
use crate::joined::{Adjacent, SearchKind, SignKind};
use crate::numbers::{all_pieces, starts_of};
use crate::rows::joined_rows;
use crate::signs::signs_of;
use crate::surface::{AdjacentDiscs, DiscComponents, NumberedDiscs, SmallSurface};
use crate::vectors::vectors_of;
use normal_discs::{DiscCoords, has_octagons};
use out_of_memory::Failure;
use skeleton::Skeleton;
use std::alloc::{AllocError, Global};
use std::marker::Model;
use surface_definitions::Coords;
use surface_vector_definitions::ManyPieces;

/// The connected components of a surface, numbered by their first discs: the vector of each, whether it is two-sided,
/// and whether it is orientable. Invariant: the three lists have one length, below 2^32.
#[derive(Drop)]
pub struct Pieces {
    vectors: Vec<Vec<u128>>,
    two_sided: Vec<bool>,
    orientable: Vec<bool>,
}

impl Model for Pieces {
    ghost use Rattle.std.specs.Prelude.{◌≡◌, ◌<◌, ◌^◌, List, length};
    ghost use Rattle.surface_vector_definitions.specs.Components.{Component};
    ghost use Rattle.surface_vector_definitions.specs.Entries.{all_entries};
    ghost use Rattle.surface_pieces.specs.ComponentLists.{all_components};

    ghost Value = { List Component };

    ghost view = { λ p. all_components (all_entries p.vectors.items) p.two_sided.items p.orientable.items };

    ghost invariant = { λ p. (length p.two_sided.items ≡ length p.vectors.items) × (length p.orientable.items ≡ length p.vectors.items) × (length p.vectors.items < 2 ^ 32) };
}

/// Why `build` fails: the surface has more than 100,000 discs, or memory runs out.
pub type PiecesFault = Failure<ManyPieces>;

/// The greatest number of discs.
const MOST_PIECES: u128 = 100_000;

/// The components of a surface, by rows of `N` slots.
fn find_components<const N: usize>(
    alloc: Global,
    surface: &SmallSurface,
) -> Result<Pieces, AllocError>
    requires { N ≡ slots_each surface.now.coords.system }
    ensures { IfOk result (AreListedComponents surface.now.table.now surface.now.coords.system
        surface.now.entries.now) }
{
    let starts = starts_of(alloc, surface)?;
    let listed = all_pieces(alloc, surface)?;
    let pieces = NumberedDiscs {
        surface: *surface,
        listed: &listed,
        starts: &starts,
    };
    let rows: Vec<[Option<Adjacent>; N]> = joined_rows(alloc, &pieces)?;
    let joined = AdjacentDiscs {
        surface: *surface,
        rows: &rows,
    };
    let all = joined.classes_of(alloc, SearchKind::Pieces)?;
    let of = DiscComponents {
        pieces,
        components: &all.classes,
        count: all.count,
    };
    let vectors = vectors_of(alloc, of)?;
    let two_sided = signs_of(alloc, &joined, &all, SignKind::Sides)?;
    let orientable = signs_of(alloc, &joined, &all, SignKind::Orientation)?;
    Ok(Pieces {
        vectors,
        two_sided,
        orientable,
    })
}

/// The components of a surface, by rows that are as short as its coordinates allow.
fn components_of(alloc: Global, surface: &SmallSurface) -> Result<Pieces, AllocError>
    ensures { IfOk result (AreListedComponents surface.now.table.now surface.now.coords.system
        surface.now.entries.now) }
{
    if has_octagons(surface.coords.system) {
        find_components::<8>(alloc, surface)
    } else {
        find_components::<4>(alloc, surface)
    }
}

impl Pieces {
    /// The connected components of the surface of `x` (Haken 1961), an admissible solution for the table of `skeleton`
    /// in standard or octagon coordinates whose entries add up to at most 2^127 - 1. Fails with `TooManyPieces`, which
    /// has the number of discs, if there are more than 100,000.
    pub fn build(
        alloc: Global,
        skeleton: &Skeleton,
        coords: Coords,
        x: &[u128],
    ) -> Result<Pieces, PiecesFault>
        requires surface { IsSurface skeleton.now.rows coords x.now }
        requires fits { sum x.now ≤ limit }
        ensures pieces { IfOk result (λ p. IsPiecesAnswer skeleton.now.rows coords x.now (Ok p)) }
        ensures fault { IfErr result (λ e. IfFault e (λ f. IsPiecesAnswer skeleton.now.rows coords x.now (Err f))) }
    {
        let count = total(x);
        if count > MOST_PIECES {
            return Err(Failure::Fault(ManyPieces { count }));
        }
        let entries = entries_of(alloc, x)?;
        let coords = DiscCoords { system: coords };
        let surface = SmallSurface {
            table: skeleton.table(),
            coords,
            entries: &entries,
        };
        let pieces = components_of(alloc, &surface)?;
        Ok(pieces)
    }

    /// The number of components.
    pub fn components(&self) -> u32
        ensures { result ≡ length self.now }
    {
        self.vectors.len() as u32
    }

    /// The vector of component `component`: its number of discs in each column.
    pub fn vector(&self, component: u32) -> &[u128]
        requires { component < length self.now }
        ensures { result.now ≡ (slice_index_or self.now component no_component).vector }
    {
        &self.vectors[component as usize]
    }

    /// Whether component `component` is two-sided.
    pub fn two_sided(&self, component: u32) -> bool
        requires { component < length self.now }
        ensures { result ≡ (slice_index_or self.now component no_component).two_sided }
    {
        self.two_sided[component as usize]
    }

    /// Whether component `component` is orientable.
    pub fn orientable(&self, component: u32) -> bool
        requires { component < length self.now }
        ensures { result ≡ (slice_index_or self.now component no_component).orientable }
    {
        self.orientable[component as usize]
    }
}
