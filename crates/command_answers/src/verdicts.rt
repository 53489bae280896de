//! Writes the verdict on a vector as a line.
ghost use Rattle.std.specs.Prelude.{◌≡◌, ◌++◌, codes, decimal, OnOk};
ghost use Rattle.text_definitions.specs.Written.{line};
ghost use Rattle.surface_definitions.specs.Verdict.{verdict_text};

use crate::append_number_line;
use out_of_memory::NoMemory;
use std::alloc::Global;
use surface_definitions::VectorFault;
use text_io::{append, append_decimal};

/// Appends the line of a clash of the columns `first` and `second`.
fn append_clash(alloc: Global, out: &mut Vec<u8>, first: u32, second: u32) -> Result<(), NoMemory>
    ensures { OnOk result (out.new.items
        ≡ out.old.items ++ line (codes "clash " ++ decimal first ++ codes " " ++ decimal second)) }
{
    append(out, b"clash ")?;
    append_decimal(alloc, out, u128::from(first))?;
    append(out, b" ")?;
    append_decimal(alloc, out, u128::from(second))?;
    append(out, b"\n")?;
    Ok(())
}

fn append_solution(out: &mut Vec<u8>) -> Result<(), NoMemory>
    ensures { OnOk result (out.new.items ≡ out.old.items ++ line (codes "solution")) }
{
    append(out, b"solution\n")?;
    Ok(())
}

/// Appends the line of the verdict `checked` on a vector: `solution`, or why it is none.
#[tactic(auto, unfolding(surface_definitions::specs::Verdict::verdict_text))]
pub fn append_checked(
    alloc: Global,
    out: &mut Vec<u8>,
    checked: Result<(), VectorFault>,
) -> Result<(), NoMemory>
    ensures { OnOk result (out.new.items ≡ out.old.items ++ verdict_text checked) }
{
    match checked {
        Ok(()) => append_solution(out),
        Err(VectorFault::Length { got }) => append_number_line(alloc, out, b"length ", got as u128),
        Err(VectorFault::Large { row }) => append_number_line(
            alloc,
            out,
            b"large ",
            u128::from(row),
        ),
        Err(VectorFault::NotSolution { row }) => append_number_line(
            alloc,
            out,
            b"fails ",
            u128::from(row),
        ),
        Err(VectorFault::Clash { first, second }) => append_clash(alloc, out, first, second),
    }
}
