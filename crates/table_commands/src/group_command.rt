//! The command `group`: the isomorphism classes of tables.
ghost use Rattle.std.specs.Prelude.{◌≡◌, ◌≤◌, ◌++◌, List, length, slice_index, IfOk, OnOk};
ghost use Rattle.text_definitions.specs.Text.{max_text};
ghost use Rattle.table_definitions.specs.Table.{Row};
ghost use Rattle.signature_definitions.specs.Census.{signature_in};
ghost use Rattle.text_document_definitions.specs.Documents.{tables_document};
ghost use Rattle.outcome_definitions.specs.Outcomes.{IsReadOutcome};
ghost use Rattle.outcome_definitions.specs.Information.{classes_text};
ghost use Rattle.outcome_definitions.specs.Canonical as canonical;
ghost use Rattle.outcome_definitions.specs.Canonical.{done, IsGroupAnswer};
ghost use Rattle.table_commands.specs.Groups.{AreGrouped};

use crate::groups::{DisconnectedTable, Groups, read_groups_document};
use command_answers::{Outcome, fault_outcome, not_connected_outcome};
use out_of_memory::NoMemory;
use outcome_definitions::Status;
use signature_census::Census;
use std::alloc::Global;
use text_io::{append, append_decimal};

/// Appends the line with the class of table `table`.
fn append_class(alloc: Global, text: &mut Vec<u8>, table: usize, class: u32) -> Result<(), NoMemory>
    ensures { OnOk result (text.new.items ≡ text.old.items ++ canonical.class_line table class) }
{
    append(text, b"table ")?;
    append_decimal(alloc, text, table as u128)?;
    append(text, b" class ")?;
    append_decimal(alloc, text, u128::from(class))?;
    append(text, b"\n")?;
    Ok(())
}

/// Appends the line with the signature of class `class`.
fn append_signature(
    alloc: Global,
    text: &mut Vec<u8>,
    class: u32,
    signature: &[u8],
) -> Result<(), NoMemory>
    ensures { OnOk result (text.new.items ≡ text.old.items ++ canonical.class_signature_line class signature.now) }
{
    append(text, b"class ")?;
    append_decimal(alloc, text, u128::from(class))?;
    append(text, b" ")?;
    append(text, signature)?;
    append(text, b"\n")?;
    Ok(())
}

/// Appends the class of each table, by `classes`.
fn append_classes(alloc: Global, text: &mut Vec<u8>, classes: &[u32]) -> Result<(), NoMemory>
    ensures { OnOk result (text.new.items
        ≡ text.old.items ++ classes_text (λ k. canonical.class_line k (slice_index classes.now k))
        (length classes.now)) }
{
    for table in 0..classes.len() {
        append_class(alloc, text, table, classes[table])?;
    }
    Ok(())
}

/// Appends the signature of each class of `census`.
fn append_signatures(alloc: Global, text: &mut Vec<u8>, census: &Census) -> Result<(), NoMemory>
    ensures { OnOk result (text.new.items
        ≡ text.old.items ++ classes_text (λ c. canonical.class_signature_line c (signature_in census.now c))
        (length census.now)) }
{
    for class in 0..census.len() {
        append_signature(alloc, text, class, census.signature_of(class))?;
    }
    Ok(())
}

/// The text of `classes` and the signatures in `census`.
fn census_text(alloc: Global, classes: &[u32], census: &Census) -> Result<Vec<u8>, NoMemory>
    ensures { IfOk result (λ text. text.items ≡ canonical.census_text classes.now census.now) }
{
    let mut text = Vec::new(alloc);
    append_classes(alloc, &mut text, classes)?;
    append_signatures(alloc, &mut text, census)?;
    Ok(text)
}

/// The outcome for `classes` and their `census`.
fn outcome_of_classes(alloc: Global, classes: &[u32], census: &Census) -> Result<Outcome, NoMemory>
    ensures { IfOk result (λ o. o ≡ done (canonical.census_text classes.now census.now)) }
{
    let text = census_text(alloc, classes, census)?;
    Ok(Outcome::with_text(Status::Done, text))
}

/// The outcome for the tables of `groups`.
fn run_group(alloc: Global, groups: &Groups) -> Result<Outcome, NoMemory>
    ensures { IfOk result (λ o. (tables : List (List Row)) → AreGrouped tables groups.now → IsGroupAnswer tables o) }
{
    match groups.found {
        Some(DisconnectedTable { table, tet }) => not_connected_outcome(alloc, table, tet),
        None => outcome_of_classes(alloc, &groups.classes, &groups.census),
    }
}

/// The outcome of `group` for the input `bytes`, any number of tables: the isomorphism class of each, and the signature
/// of each class; or a refusal, also if a table is disconnected.
pub fn group(alloc: Global, bytes: &[u8]) -> Result<Outcome, NoMemory>
    requires { length bytes.now ≤ max_text }
    ensures { IfOk result (IsReadOutcome (tables_document bytes.now) IsGroupAnswer) }
{
    match read_groups_document(alloc, bytes) {
        Ok(groups) => run_group(alloc, &groups),
        Err(fault) => fault_outcome(alloc, fault),
    }
}
