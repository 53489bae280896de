//! The command `same`: the least isomorphism from one table to another.
ghost use Rattle.std.specs.Prelude.{◌≡◌, ◌≤◌, ◌++◌, length, IfOk, OnOk};
ghost use Rattle.text_definitions.specs.Text.{max_text};
ghost use Rattle.table_definitions.specs.Relabelling.{relabelled_place};
ghost use Rattle.text_document_definitions.specs.Documents.{two_tables_document};
ghost use Rattle.outcome_definitions.specs.Outcomes.{IsReadOutcome};
ghost use Rattle.outcome_definitions.specs.Information.{classes_text};
ghost use Rattle.outcome_definitions.specs.Canonical as canonical;
ghost use Rattle.outcome_definitions.specs.Canonical.{done, IsSameAnswer};

use canonical_labelling::{SameFault, same as least_relabelling};
use command_answers::{Outcome, answer_read, not_connected_outcome, read_two_tables};
use gluing_table::{Relabelling, Table};
use out_of_memory::NoMemory;
use outcome_definitions::Status;
use perm_four::Perm4;
use std::alloc::Global;
use text_io::{append, append_decimal};

/// Appends the line of tetrahedron `tet`: its number, its number in the second table, and the images of its vertices.
fn append_image(
    alloc: Global,
    text: &mut Vec<u8>,
    tet: u32,
    image: u32,
    perm: Perm4,
) -> Result<(), NoMemory>
    ensures { OnOk result (text.new.items
        ≡ text.old.items ++ canonical.image_line tet (record { tet = image; perm = perm })) }
{
    append_decimal(alloc, text, u128::from(tet))?;
    append(text, b" ")?;
    append_decimal(alloc, text, u128::from(image))?;
    append(text, b" ")?;
    append(text, &perm.word())?;
    append(text, b"\n")?;
    Ok(())
}

/// Appends the lines of all `tets` tetrahedra.
fn append_images(
    alloc: Global,
    text: &mut Vec<u8>,
    tets: u32,
    by: &Relabelling,
) -> Result<(), NoMemory>
    requires { tets ≡ length by.now.images }
    ensures { OnOk result (text.new.items
        ≡ text.old.items ++ classes_text (λ tet. canonical.image_line tet (relabelled_place by.now tet))
        (length by.now.images)) }
{
    for tet in 0..tets {
        append_image(alloc, text, tet, by.image(tet), by.perm(tet))?;
    }
    Ok(())
}

/// The text of the relabelling `by`.
fn relabelling_text(alloc: Global, tets: u32, by: &Relabelling) -> Result<Vec<u8>, NoMemory>
    requires { tets ≡ length by.now.images }
    ensures { IfOk result (λ text. text.items ≡ canonical.relabelling_text by.now) }
{
    let mut text = Vec::new(alloc);
    append(&mut text, b"same\n")?;
    append_images(alloc, &mut text, tets, by)?;
    Ok(text)
}

/// The outcome `same` with the relabelling `by` of `tets` tetrahedra.
pub fn relabelling_outcome(alloc: Global, tets: u32, by: &Relabelling) -> Result<Outcome, NoMemory>
    requires { tets ≡ length by.now.images }
    ensures { IfOk result (λ o. o ≡ done (canonical.relabelling_text by.now)) }
{
    let text = relabelling_text(alloc, tets, by)?;
    Ok(Outcome::with_text(Status::Done, text))
}

/// The outcome for the tables `first` and `second`.
fn run_same(alloc: Global, first: &Table, second: &Table) -> Result<Outcome, NoMemory>
    ensures { IfOk result (IsSameAnswer (first.now, second.now)) }
{
    match least_relabelling(alloc, first, second) {
        Ok(Some(by)) => relabelling_outcome(alloc, first.len(), &by),
        Ok(None) => Ok(Outcome::different()),
        Err(SameFault::First { tet }) => not_connected_outcome(alloc, 0, tet),
        Err(SameFault::Second { tet }) => not_connected_outcome(alloc, 1, tet),
        Err(SameFault::NoMemory) => Err(NoMemory),
    }
}

/// The outcome of `same` for the input `bytes`, two tables: the least isomorphism from the first to the second, or
/// `different`; or a refusal, also if a table is disconnected.
pub fn same(alloc: Global, bytes: &[u8]) -> Result<Outcome, NoMemory>
    requires { length bytes.now ≤ max_text }
    ensures { IfOk result (IsReadOutcome (two_tables_document bytes.now) IsSameAnswer) }
{
    answer_read(alloc, read_two_tables(alloc, bytes), |tables| {
        run_same(alloc, &tables.first, &tables.second)
    })
}
