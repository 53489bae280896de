//! Reads tables and sorts them into classes, without storing them.
ghost use Rattle.std.specs.Prelude.{◌≡◌, ◌<◌, ◌≤◌, ◌+◌, ◌++◌, ◌^◌, List, [], ◌∷◌, None, length, OnOk};
ghost use Rattle.text_definitions.specs.Text.{max_text};
ghost use Rattle.table_definitions.specs.Table as gluings;
ghost use Rattle.signature_definitions.specs.SignatureText.{any_table_at};
ghost use Rattle.text_document_definitions.specs.Documents.{tables_from, tables_document};
ghost use Rattle.table_commands.specs.Groups.{AreGrouped, GivesOneMore, GivesGroups, GivesGroupsDocument};

use gluing_table::Table;
use out_of_memory::{Failure, NoMemory};
use signature_census::Census;
use signature_codec::{InputFault, read_any};
use std::alloc::Global;
use text_io::Lexer;

/// A disconnected table, counted from 0, with its least tetrahedron not reached from tetrahedron 0.
#[derive(Clone, Copy)]
pub struct DisconnectedTable {
    pub table: u32,
    pub tet: u32,
}

/// The tables read so far: their census, the class of each, and the first that is disconnected (`found`), after which
/// no class is computed.
#[derive(Drop)]
pub struct Groups {
    pub census: Census,
    pub classes: Vec<u32>,
    pub found: Option<DisconnectedTable>,
}

/// No tables.
fn no_groups(alloc: Global) -> Groups
    ensures { AreGrouped [] result }
{
    Groups {
        census: Census::new(alloc),
        classes: Vec::new(alloc),
        found: None,
    }
}

/// Adds `table` to `groups`, in which all tables so far are connected.
fn classify(groups: &mut Groups, table: &Table) -> Result<(), NoMemory>
    requires bounded_classes { length groups.old.classes.items + 1 < 2 ^ 32 }
    requires bounded_signatures { length groups.old.census + 1 < 2 ^ 32 }
    requires none_found { groups.old.found ≡ None }
    ensures { OnOk result (gluings.IsTable table.now → (tables : List (List gluings.Row)) → AreGrouped tables groups.old
        → AreGrouped (tables ++ table.now ∷ []) groups.new) }
{
    match groups.census.add(table) {
        Ok(class) => {
            groups.classes.push(class)?;
            Ok(())
        }
        Err(Failure::Fault(fault)) => {
            let table = groups.classes.len() as u32;
            let tet = fault.tet;
            groups.found = Some(DisconnectedTable { table, tet });
            Ok(())
        }
        Err(Failure::NoMemory) => Err(NoMemory),
    }
}

/// Adds `table` to `groups`, unless an earlier one is disconnected.
fn add(groups: &mut Groups, table: &Table) -> Result<(), NoMemory>
    requires bounded_classes { length groups.old.classes.items + 1 < 2 ^ 32 }
    requires bounded_signatures { length groups.old.census + 1 < 2 ^ 32 }
    ensures { OnOk result (gluings.IsTable table.now → (tables : List (List gluings.Row)) → AreGrouped tables groups.old
        → AreGrouped (tables ++ table.now ∷ []) groups.new) }
{
    match groups.found {
        Some(_) => Ok(()),
        None => classify(groups, table),
    }
}

/// Reads a table from the current line of `lexer` on, and adds it to `groups`. Fails with the first error of the table.
fn group_table(alloc: Global, lexer: &mut Lexer<'_>, groups: &mut Groups) -> Result<(), InputFault>
    requires bounded_classes { length groups.old.classes.items + 1 < 2 ^ 32 }
    requires bounded_signatures { length groups.old.census + 1 < 2 ^ 32 }
    ensures { GivesOneMore result (any_table_at lexer.old) lexer.new groups.old groups.new }
{
    let table = read_any(alloc, lexer)?;
    match add(groups, &table) {
        Ok(()) => Ok(()),
        Err(NoMemory) => Err(InputFault::NoMemory),
    }
}

/// Reads the tables up to the end of the input of `lexer`. Fails with the first error of the first table that has one.
fn read_groups(alloc: Global, lexer: &mut Lexer<'_>) -> Result<Groups, InputFault>
    requires limited { length lexer.old.later + 1 < 2 ^ 32 }
    ensures { GivesGroups result lexer.new (tables_from lexer.old.later lexer.old) }
{
    let mut groups = no_groups(alloc);
    while lexer.next_line() {
        group_table(alloc, lexer, &mut groups)?;
    }
    Ok(groups)
}

/// Reads `bytes` as any number of tables, and sorts them into classes. Fails with the first error of the first table
/// that has one.
#[tactic(auto, unfolding(text_document_definitions::specs::Documents::tables_document))]
pub fn read_groups_document(alloc: Global, bytes: &[u8]) -> Result<Groups, InputFault>
    requires { length bytes.now ≤ max_text }
    ensures { GivesGroupsDocument result (tables_document bytes.now) }
{
    let mut lexer = Lexer::new(bytes);
    let groups = read_groups(alloc, &mut lexer)?;
    Ok(groups)
}
