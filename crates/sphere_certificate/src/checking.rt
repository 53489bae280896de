//! Checks whether moves certify that a table is a 3-sphere.

ghost use Rattle.std.specs.Prelude.{◌≡◌, ◌<◌, ◌-◌, ◌^◌, ◌↔◌, [], length, Ok, Err, IsTrue, IfErr, OnOk};
ghost use Rattle.out_of_memory.specs.Failures.{IfFault};
ghost use Rattle.table_definitions.specs.Table.{IsTable};
ghost use Rattle.move_definitions.specs.Moves.{PlaysAll};
ghost use Rattle.move_definitions.specs.Certificates.{IsStandard, IsCertificate};
ghost use Rattle.certificate_definitions.specs.Answers.{IsChecked, sphere_text};
ghost use Rattle.sphere_certificate.specs.Checks.{reported};

use canonical_labelling::{NotConnected, signature};
use gluing_table::Table;
use out_of_memory::Failure;
use pachner_moves::{Move, apply};
use std::alloc::Global;

/// Why moves are no certificate of a table; `NotStandard` has the signature of the last table.
pub type CheckFault = certificate_definitions::CheckFault<Vec<u8>>;

/// The signature of the standard sphere.
const SPHERE: [u8; 6] = *b"bkaagj";

/// Plays `moves` in order. Fails at the first one that is illegal or exceeds the number of tetrahedra, counted from 1.
fn play_all(table: &mut Table, moves: &[Move]) -> Result<(), CheckFault>
    requires limited { length moves.now < 2 ^ 32 - 1 }
    ensures led { OnOk result (PlaysAll table.old moves.now table.new) }
    ensures refused { IfErr result (λ e. IsChecked table.old moves.now (Err (reported e))) }
{
    for i in 0..moves.len() {
        if let Err(fault) = apply(table, moves[i]) {
            let step = i as u32 + 1;
            return Err(CheckFault::Illegal { step, fault });
        }
    }
    Ok(())
}

/// Whether `text` is the signature of the standard sphere.
pub fn is_sphere(text: &[u8]) -> bool
    ensures { IsTrue result ↔ (text.now ≡ sphere_text) }
{
    text == SPHERE.as_slice()
}

/// Checks that `last` is isomorphic to the standard sphere, by its signature. Fails with `NotConnected`, then with
/// `NotStandard`.
fn judge(alloc: Global, last: &Table) -> Result<(), Failure<CheckFault>>
    requires { IsTable last.now }
    ensures standard { OnOk result (IsStandard last.now) }
    ensures fault { IfErr result (λ e. IfFault e (λ fault. IsChecked last.now [] (Err (reported fault)))) }
{
    match signature(alloc, last) {
        Ok(text) if is_sphere(&text) => Ok(()),
        Ok(signature) => Err(Failure::Fault(CheckFault::NotStandard { signature })),
        Err(Failure::Fault(NotConnected { tet })) => {
            Err(Failure::Fault(CheckFault::NotConnected { tet }))
        }
        Err(Failure::NoMemory) => Err(Failure::NoMemory),
    }
}

/// As `check`, with the same errors, but takes ownership of `table` and plays the moves on it instead of a copy.
pub fn check_owned(
    alloc: Global,
    mut table: Table,
    moves: &[Move],
) -> Result<(), Failure<CheckFault>>
    requires limited { length moves.now < 2 ^ 32 - 1 }
    ensures certificate { OnOk result (IsCertificate table moves.now) }
    ensures fault { IfErr result (λ e. IfFault e (λ fault. IsChecked table moves.now (Err (reported fault)))) }
    ensures no_certificate { IfErr result (λ e. IfFault e (λ _. IsCertificate table moves.now → ⊥)) }
{
    // brings the fact that the rows are those of a table
    let _ = table.len();
    if let Err(fault) = play_all(&mut table, moves) {
        return Err(Failure::Fault(fault));
    }
    judge(alloc, &table)
}

/// Checks that `moves` are a certificate of `table`: played in order, they end at a table that is isomorphic to the
/// standard sphere (Pachner 1991). Fails with `Illegal` at the first move that `apply` rejects, counted from 1; then
/// with `NotConnected`, which names the least tetrahedron of the last table not reached from tetrahedron 0; then with
/// `NotStandard`, which has the last table's signature.
pub fn check(alloc: Global, table: &Table, moves: &[Move]) -> Result<(), Failure<CheckFault>>
    requires limited { length moves.now < 2 ^ 32 - 1 }
    ensures certificate { OnOk result (IsCertificate table.now moves.now) }
    ensures fault { IfErr result (λ e. IfFault e (λ fault. IsChecked table.now moves.now (Err (reported fault)))) }
    ensures no_certificate { IfErr result (λ e. IfFault e (λ _. IsCertificate table.now moves.now → ⊥)) }
{
    let copy = table.copy(alloc)?;
    check_owned(alloc, copy, moves)
}
