//! Writes the line that refuses a vector.
ghost use Rattle.std.specs.Prelude.{◌≡◌, ◌++◌, IfOk, OnOk};
ghost use Rattle.text_definitions.specs.Written.{line};
ghost use Rattle.outcome_definitions.specs.Vectors as vectors;
ghost use Rattle.surface_vector_definitions.specs.Texts.{sum_word, fault_text};

use command_answers::{Outcome, append_checked, append_number_line, refused_vector};
use out_of_memory::NoMemory;
use outcome_definitions::Status;
use std::alloc::Global;
use surface_definitions::VectorFault;
use surface_vector_definitions::{Refusal, SurfaceSum};
use text_io::append;

/// The first vector of a document that is refused, counted from 0, and why.
#[derive(Clone, Copy)]
pub struct FirstRefusal {
    pub vector: usize,
    pub refusal: Refusal,
}

fn word_of_sum(sum: SurfaceSum) -> &'static [u8]
    ensures { result.now ≡ sum_word sum }
{
    match sum {
        SurfaceSum::Points => b"points",
        SurfaceSum::Arcs => b"arcs",
        SurfaceSum::PointsAndPieces => b"points-and-pieces",
    }
}

/// Appends a line of the words `first` and `second`.
fn append_words(out: &mut Vec<u8>, first: &[u8], second: &[u8]) -> Result<(), NoMemory>
    ensures { OnOk result (out.new.items ≡ out.old.items ++ line (first.now ++ second.now)) }
{
    append(out, first)?;
    append(out, second)?;
    append(out, b"\n")?;
    Ok(())
}

/// Appends why a vector is refused, by `refusal`.
fn append_cause(alloc: Global, out: &mut Vec<u8>, refusal: Refusal) -> Result<(), NoMemory>
    ensures { OnOk result (out.new.items ≡ out.old.items ++ fault_text refusal) }
{
    match refusal {
        Refusal::Unfit { fault } => append_checked(alloc, out, Err(fault)),
        Refusal::LargeSum { sum } => append_words(out, b"large-sum ", word_of_sum(sum)),
        Refusal::TooManyPieces { count } => append_number_line(
            alloc,
            out,
            b"too-many-pieces ",
            count,
        ),
        Refusal::LargeLift => append_words(out, b"large-", b"lift"),
        Refusal::NoLift { class } => append_number_line(alloc, out, b"no-lift ", u128::from(class)),
    }
}

/// The status of a refusal: `Large` if a number exceeds the limit, otherwise `Refused`.
fn status_of(refusal: Refusal) -> Status
    ensures { result ≡ vectors.refusal_status refusal }
{
    match refusal {
        Refusal::Unfit {
            fault: VectorFault::Large { .. },
        } => Status::Large,
        Refusal::Unfit { .. } => Status::Refused,
        Refusal::LargeSum { .. } | Refusal::LargeLift => Status::Large,
        Refusal::TooManyPieces { .. } | Refusal::NoLift { .. } => Status::Refused,
    }
}

/// The outcome if vector `vector`, counted from 0, is refused by `refusal`.
#[tactic(auto, unfolding(surface_vector_definitions::specs::Texts::refusal_line))]
pub fn refusal_outcome(alloc: Global, vector: usize, refusal: Refusal) -> Result<Outcome, NoMemory>
    ensures { IfOk result (λ o. o ≡ vectors.refusal_outcome vector refusal) }
{
    let mut text = refused_vector(alloc, vector)?;
    append_cause(alloc, &mut text, refusal)?;
    Ok(Outcome::with_text(status_of(refusal), text))
}
