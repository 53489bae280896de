//! Writes the line that refuses a vector.
ghost use Rattle.std.specs.Prelude.{◌≡◌, ◌++◌, codes, decimal, IfOk, OnOk};
ghost use Rattle.text_definitions.specs.Written.{line};
ghost use Rattle.outcome_definitions.specs.Sums as sums;

use command_answers::{Outcome, append_checked, append_number_line, refused_vector};
use out_of_memory::NoMemory;
use outcome_definitions::{Status, SumRefusal};
use ray_decompose::AddFault;
use std::alloc::Global;
use surface_definitions::VectorFault;
use text_io::{append, append_decimal};

/// Appends that term `term` fails the check.
fn append_term(
    alloc: Global,
    out: &mut Vec<u8>,
    term: usize,
    fault: VectorFault,
) -> Result<(), NoMemory>
    ensures { OnOk result (out.new.items ≡ out.old.items ++ sums.sum_refusal_text (SumRefusal.UnfitTerm term fault)) }
{
    append(out, b"term ")?;
    append_decimal(alloc, out, term as u128)?;
    append(out, b" ")?;
    append_checked(alloc, out, Err(fault))
}

/// Appends the step `turn` and the `column` at which a sum exceeds the limit.
fn append_large_times(
    alloc: Global,
    out: &mut Vec<u8>,
    turn: u128,
    column: u128,
) -> Result<(), NoMemory>
    ensures { OnOk result (out.new.items
        ≡ out.old.items ++ line (codes "large-times " ++ decimal turn ++ codes " " ++ decimal column)) }
{
    append(out, b"large-times ")?;
    append_decimal(alloc, out, turn)?;
    append(out, b" ")?;
    append_decimal(alloc, out, column)?;
    append(out, b"\n")?;
    Ok(())
}

fn append_zero_times(out: &mut Vec<u8>) -> Result<(), NoMemory>
    ensures { OnOk result (out.new.items ≡ out.old.items ++ line (codes "zero-times")) }
{
    append(out, b"zero-times\n")?;
    Ok(())
}

/// Appends why terms do not add up, by `fault`.
fn append_no_sum(alloc: Global, out: &mut Vec<u8>, fault: AddFault) -> Result<(), NoMemory>
    ensures { OnOk result (out.new.items ≡ out.old.items ++ sums.sum_refusal_text (SumRefusal.NoSum fault)) }
{
    match fault {
        AddFault::ZeroTimes => append_zero_times(out),
        AddFault::Large { column } => append_number_line(
            alloc,
            out,
            b"large-equation ",
            u128::from(column),
        ),
        AddFault::NotEqual { column } => append_number_line(
            alloc,
            out,
            b"not-equal ",
            u128::from(column),
        ),
    }
}

/// Appends why a vector is refused, by `refusal`.
fn append_cause(alloc: Global, out: &mut Vec<u8>, refusal: SumRefusal) -> Result<(), NoMemory>
    ensures { OnOk result (out.new.items ≡ out.old.items ++ sums.sum_refusal_text refusal) }
{
    match refusal {
        SumRefusal::Unfit { fault } => append_checked(alloc, out, Err(fault)),
        SumRefusal::UnfitTerm { term, fault } => append_term(alloc, out, term, fault),
        SumRefusal::LargeTimes { turn, column } => append_large_times(
            alloc,
            out,
            u128::from(turn),
            u128::from(column),
        ),
        SumRefusal::NoSum { fault } => append_no_sum(alloc, out, fault),
    }
}

/// The status of a failed check with the error `fault`: `Large` if a number exceeds the limit, otherwise `Refused`.
fn unfit_status(fault: VectorFault) -> Status
    ensures { result ≡ sums.unfit_status fault }
{
    match fault {
        VectorFault::Large { .. } => Status::Large,
        VectorFault::Length { .. } | VectorFault::NotSolution { .. } | VectorFault::Clash { .. } =>
            { Status::Refused }
    }
}

/// The status of a refusal: `Large` if a number exceeds the limit, otherwise `Refused`.
fn status_of(refusal: SumRefusal) -> Status
    ensures { result ≡ sums.sum_refusal_status refusal }
{
    match refusal {
        SumRefusal::Unfit { fault } | SumRefusal::UnfitTerm { fault, .. } => unfit_status(fault),
        SumRefusal::LargeTimes { .. } => Status::Large,
        SumRefusal::NoSum {
            fault: AddFault::Large { .. },
        } => Status::Large,
        SumRefusal::NoSum { .. } => Status::Refused,
    }
}

/// The outcome if vector `vector`, counted from 0, is refused by `refusal`.
#[tactic(auto, unfolding(outcome_definitions::specs::Sums::sum_refusal_line))]
pub fn refusal_outcome(
    alloc: Global,
    vector: usize,
    refusal: SumRefusal,
) -> Result<Outcome, NoMemory>
    ensures { IfOk result (λ o. o ≡ sums.sum_refusal_outcome vector refusal) }
{
    let mut text = refused_vector(alloc, vector)?;
    append_cause(alloc, &mut text, refusal)?;
    Ok(Outcome::with_text(status_of(refusal), text))
}
