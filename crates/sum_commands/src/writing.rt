//! Writes sums as blocks of lines.
ghost use Rattle.std.specs.Prelude.{◌≡◌, ◌++◌, OnOk};
ghost use Rattle.std.specs.List.{flat_map};
ghost use Rattle.text_document_definitions.specs.Blocks as blocks;

use out_of_memory::NoMemory;
use ray_decompose::{Sum, Term};
use std::alloc::Global;
use text_io::{append, append_decimal};
use vector_text::{write_entries, write_vector};

/// Appends a line `times S T`.
fn append_times(alloc: Global, out: &mut Vec<u8>, times: u128, count: usize) -> Result<(), NoMemory>
    ensures { OnOk result (out.new.items ≡ out.old.items ++ blocks.times_text times count) }
{
    append(out, b"times ")?;
    append_decimal(alloc, out, times)?;
    append(out, b" ")?;
    append_decimal(alloc, out, count as u128)?;
    append(out, b"\n")?;
    Ok(())
}

/// Appends a line `term K` with entries.
fn append_term(alloc: Global, out: &mut Vec<u8>, term: &Term) -> Result<(), NoMemory>
    ensures { OnOk result (out.new.items ≡ out.old.items ++ blocks.term_text term.now) }
{
    append(out, b"term ")?;
    append_decimal(alloc, out, term.count)?;
    write_entries(alloc, &term.vector, out)?;
    append(out, b"\n")?;
    Ok(())
}

/// Appends a line for each of `terms`.
fn append_terms(alloc: Global, out: &mut Vec<u8>, terms: &[Term]) -> Result<(), NoMemory>
    ensures { OnOk result (out.new.items ≡ out.old.items ++ flat_map blocks.term_text terms.now) }
{
    for term in terms {
        append_term(alloc, out, term)?;
    }
    Ok(())
}

/// Appends the block of the vector `x` and its sum `sum` to `out`.
pub fn append_block(alloc: Global, out: &mut Vec<u8>, x: &[u128], sum: &Sum) -> Result<(), NoMemory>
    ensures { OnOk result (out.new.items
        ≡ out.old.items ++ blocks.block_text
        (record { vector = x.now; times = sum.now.times; terms = sum.now.terms.items })) }
{
    write_vector(alloc, x, out)?;
    append_times(alloc, out, sum.times, sum.terms.len())?;
    append_terms(alloc, out, &sum.terms)
}
