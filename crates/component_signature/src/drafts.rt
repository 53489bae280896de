//! Writes a relabelling one component at a time.

ghost use Rattle.std.specs.Prelude.{◌≡◌, ◌<◌, ◌^◌, ℕ, length, slice_index, slice_set, All, AllPairs, Contains, IfOk};
ghost use Rattle.table_definitions.specs.Permutation.{identity};
ghost use Rattle.table_definitions.specs.Relabelling.{IsRelabelling, relabelled_place};
ghost use Rattle.component_definitions.specs.SameParts.{GoesBy};

use crate::split::Part;
use gluing_table::Relabelling;
use out_of_memory::NoMemory;
use perm_four::Perm4;
use std::alloc::Global;
use std::marker::Model;

/// A relabelling in the making: the new number of each tetrahedron, and the images of its vertices.
#[derive(Drop)]
pub struct Draft {
    images: Vec<u32>,
    perms: Vec<Perm4>,
}

impl Model for Draft {
    ghost use Rattle.table_definitions.specs.Relabelling as labels;

    ghost Value = { labels.Relabelling };

    ghost view = { λ d. record { images = d.images.items; perms = d.perms.items } };
}

/// A draft for `tets` tetrahedra.
pub fn blank_draft(alloc: Global, tets: u32) -> Result<Draft, NoMemory>
    ensures images { IfOk result (λ draft. length draft.images ≡ tets) }
    ensures perms { IfOk result (λ draft. length draft.perms ≡ tets) }
{
    let images = vec![in alloc; 0u32; tets as usize]?;
    let perms = vec![in alloc; Perm4::identity(); tets as usize]?;
    Ok(Draft { images, perms })
}

/// Writes the images of the tetrahedra of `part` under `by`, a relabelling that carries `part` to `other`.
pub fn write_part(draft: &mut Draft, part: &Part, other: &Part, by: &Relabelling)
    requires tets { All (λ t. t < length draft.old.images) part.now.numbers }
    requires perms { length draft.old.perms ≡ length draft.old.images }
    requires ascending { AllPairs (λ t u. t < u) part.now.numbers }
    requires limited { length part.now.numbers < 2 ^ 32 }
    requires one_each { length by.now.images ≡ length part.now.numbers }
    requires there { (k : ℕ) → k < length part.now.numbers → slice_index by.now.images k < length other.now.numbers }
    ensures goes { GoesBy draft.new part.now other.now by.now }
    ensures others { (t : ℕ) → (Contains part.now.numbers t → ⊥)
        → relabelled_place draft.new t ≡ relabelled_place draft.old t }
    ensures images { length draft.new.images ≡ length draft.old.images }
    ensures perms { length draft.new.perms ≡ length draft.old.perms }
{
    for (place, tet) in part.numbers.iter().enumerate() {
        let image = other.numbers[by.image(place as u32) as usize];
        draft.write(*tet, image, by.perm(place as u32));
    }
}

impl Draft {
    /// Writes the image and the permutation of tetrahedron `tet`.
    fn write(&mut self, tet: u32, image: u32, perm: Perm4)
        requires images { tet < length self.old.images }
        requires perms { tet < length self.old.perms }
        ensures { self.new ≡ record {
          images = slice_set self.old.images tet image;
          perms = slice_set self.old.perms tet perm;
        } }
    {
        self.images[tet as usize] = image;
        self.perms[tet as usize] = perm;
    }

    /// The relabelling that was written, which is known to be valid.
    pub fn relabelling(self) -> Relabelling
        requires { IsRelabelling (length self.images) self }
        ensures { result ≡ self }
    {
        let Draft { images, perms } = self;
        Relabelling::from_sound(images, perms)
    }
}
