//! Writes the one line for moves that are no certificate.
ghost use Rattle.std.specs.Prelude.{◌≡◌, Err, IfOk};
ghost use Rattle.certificate_definitions.specs.declared.CheckFault.TheVariants as check_faults;
ghost use Rattle.outcome_definitions.specs.Certificates.{check_line, check_outcome};
ghost use Rattle.sphere_certificate.specs.Checks.{reported};

use command_answers::{Outcome, not_connected_outcome};
use move_undo::append_move_fault;
use out_of_memory::NoMemory;
use outcome_definitions::Status;
use pachner_moves::MoveFault;
use sphere_certificate::CheckFault;
use std::alloc::Global;
use text_io::{append, append_decimal};

/// The outcome if move `step` is the first that is not possible, by `fault`.
#[tactic(auto, unfolding(outcome_definitions::specs::Certificates::check_line))]
fn illegal_outcome(alloc: Global, step: u32, fault: MoveFault) -> Result<Outcome, NoMemory>
    ensures { IfOk result (λ o. o ≡ check_outcome (Err (check_faults.Illegal step fault))) }
{
    let mut text = Vec::new(alloc);
    append(&mut text, b"refused: check illegal ")?;
    append_decimal(alloc, &mut text, u128::from(step))?;
    append(&mut text, b" ")?;
    append_move_fault(alloc, &mut text, fault)?;
    append(&mut text, b"\n")?;
    Ok(Outcome::with_text(Status::Refused, text))
}

/// The outcome if the last table has the signature `signature`, which is not that of the standard sphere.
#[tactic(auto, unfolding(outcome_definitions::specs::Certificates::check_line))]
fn not_standard_outcome(alloc: Global, signature: &[u8]) -> Result<Outcome, NoMemory>
    ensures { IfOk result (λ o. o ≡ check_outcome (Err (check_faults.NotStandard signature.now))) }
{
    let mut text = Vec::new(alloc);
    append(&mut text, b"refused: check not-standard ")?;
    append(&mut text, signature)?;
    append(&mut text, b"\n")?;
    Ok(Outcome::with_text(Status::Refused, text))
}

/// The outcome if the last table is disconnected; `tet` is its least tetrahedron not reached from tetrahedron 0.
#[tactic(auto, unfolding(outcome_definitions::specs::Certificates::check_line))]
fn disconnected_outcome(alloc: Global, tet: u32) -> Result<Outcome, NoMemory>
    ensures { IfOk result (λ o. o ≡ check_outcome (Err (check_faults.NotConnected tet))) }
{
    not_connected_outcome(alloc, 0, tet)
}

/// The outcome if moves are no certificate, by `fault`.
pub fn refused_outcome(alloc: Global, fault: CheckFault) -> Result<Outcome, NoMemory>
    ensures { IfOk result (λ o. o ≡ check_outcome (Err (reported fault))) }
{
    match fault {
        CheckFault::Illegal { step, fault } => illegal_outcome(alloc, step, fault),
        CheckFault::NotConnected { tet } => disconnected_outcome(alloc, tet),
        CheckFault::NotStandard { signature } => not_standard_outcome(alloc, &signature),
    }
}
