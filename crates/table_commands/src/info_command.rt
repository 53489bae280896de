//! The command `info`: the skeleton of a table and the links of its vertices.
ghost use Rattle.std.specs.Prelude.{◌≡◌, ◌≤◌, ◌↔◌, length, IsTrue, IfOk};
ghost use Rattle.text_definitions.specs.Text.{max_text};
ghost use Rattle.skeleton_definitions.specs.Orientation.{IsOrientable};
ghost use Rattle.text_document_definitions.specs.Documents.{table_document};
ghost use Rattle.outcome_definitions.specs.Outcomes.{IsReadOutcome};
ghost use Rattle.outcome_definitions.specs.Information.{IsInformationAnswer, AreValid};

use crate::information::Information;
use command_answers::{Outcome, answer_read, read_table_document};
use gluing_table::Table;
use out_of_memory::NoMemory;
use outcome_definitions::Status;
use skeleton::Skeleton;
use std::alloc::Global;
use vertex_links::links;

/// For each edge class of `skeleton` whether it is valid.
fn valid_edges(alloc: Global, skeleton: &Skeleton) -> Result<Vec<bool>, NoMemory>
    ensures one_each { IfOk result (λ valid. length valid.items ≡ skeleton.now.edges.count) }
    ensures valid { IfOk result (λ valid. AreValid skeleton.now skeleton.now.edges.count valid.items) }
{
    let mut valid = Vec::new(alloc);
    for class in 0..skeleton.edges() {
        valid.push(skeleton.is_valid_edge(class))?;
    }
    Ok(valid)
}

/// Whether the table of `skeleton` has an orientation.
fn is_orientable(skeleton: &Skeleton) -> bool
    ensures { IsTrue result ↔ IsOrientable skeleton.now.rows }
{
    skeleton.orientation().is_some()
}

/// The outcome for the table of `skeleton`.
fn run_info_on_skeleton(alloc: Global, skeleton: &Skeleton) -> Result<Outcome, NoMemory>
    ensures { IfOk result (IsInformationAnswer skeleton.now.rows) }
{
    let links = links(alloc, skeleton)?;
    let valid = valid_edges(alloc, skeleton)?;
    let connected = skeleton.table().is_connected(alloc)?;
    let information = Information {
        skeleton,
        links: &links,
        valid: &valid,
        connected,
        orientable: is_orientable(skeleton),
    };
    let text = information.text(alloc)?;
    Ok(Outcome::with_text(Status::Done, text))
}

/// The outcome for `table`.
fn run_info(alloc: Global, table: Table) -> Result<Outcome, NoMemory>
    ensures { IfOk result (IsInformationAnswer table) }
{
    let skeleton = Skeleton::of_owned(alloc, table)?;
    run_info_on_skeleton(alloc, &skeleton)
}

/// The outcome of `info` for the input `bytes`, a table: its counts, its vertex and edge classes and the vertex links;
/// or a refusal.
pub fn info(alloc: Global, bytes: &[u8]) -> Result<Outcome, NoMemory>
    requires { length bytes.now ≤ max_text }
    ensures { IfOk result (IsReadOutcome (table_document bytes.now) IsInformationAnswer) }
{
    answer_read(
        alloc,
        read_table_document(alloc, bytes),
        |table| run_info(alloc, table),
    )
}
