//! The command `rays`: all primitive extreme rays of a cone.
ghost use Rattle.std.specs.Prelude.{◌≢◌, ◌≤◌, length, codes, IfOk};
ghost use Rattle.text_definitions.specs.Text.{max_text};
ghost use Rattle.cone_definitions.specs.Listings.{without_pairs};
ghost use Rattle.text_document_definitions.specs.Documents.{worded, cone_document};
ghost use Rattle.outcome_definitions.specs.Outcomes.{IsReadOutcome};
ghost use Rattle.outcome_definitions.specs.Enumerations.{IsEnumerationAnswer, ray_enumeration};
ghost use Rattle.enumeration_commands.specs.Cones.{GivesConeDocument};

use crate::enumerations::list_outcome;
use command_answers::{Outcome, end_document, fault_outcome};
use cone_arithmetic::{Limit, MAX_ENTRY, System};
use cone_core::{ConeFault, read_cone};
use double_description::{NamedOrder, Order};
use gluing_table::TextFault;
use out_of_memory::{Failure, NoMemory};
use signature_codec::InputFault;
use std::alloc::Global;
use surface_refusals::large_outcome;
use text_io::Lexer;

/// Reads `bytes` as one cone. Fails with the first error of the cone; then with `ExtraWord` or `BadByte` if a line
/// follows.
#[tactic(auto, unfolding(text_document_definitions::specs::Documents::cone_document))]
fn read_cone_document(alloc: Global, bytes: &[u8]) -> Result<System, ConeFault>
    requires { length bytes.now ≤ max_text }
    ensures { GivesConeDocument result (cone_document bytes.now) }
{
    let mut lexer = Lexer::new(bytes);
    lexer.need_line()?;
    let system = read_cone(alloc, &mut lexer)?;
    end_document(&mut lexer)?;
    Ok(system)
}

/// The outcome for the cone of `system`.
fn run_rays(
    alloc: Global,
    system: &System,
    order: NamedOrder,
    limit: Limit,
) -> Result<Outcome, NoMemory>
    ensures { IfOk result (IsEnumerationAnswer (codes "rays") (without_pairs system.now order.rule limit.number)) }
{
    match vertex_enumeration::rays(alloc, system, order, limit) {
        Ok(rays) => list_outcome(alloc, b"rays", &rays),
        Err(Failure::Fault(large)) => large_outcome(alloc, &large.order, &large.kind),
        Err(Failure::NoMemory) => Err(NoMemory),
    }
}

/// The outcome of `rays` for the input `bytes`, a cone: all its primitive extreme rays, its rows processed in the order
/// `order`; or a refusal, `large` if a number of a step exceeds `limit`. `order` is not `Free`, and `limit` is 1 to
/// 2^127 - 1.
pub fn rays(alloc: Global, order: Order, limit: u128, bytes: &[u8]) -> Result<Outcome, NoMemory>
    requires size { length bytes.now ≤ max_text }
    requires named { order ≢ Order.Free }
    requires most_limit { limit ≤ MAX_ENTRY }
    ensures { IfOk result (IsReadOutcome (worded (cone_document bytes.now))
        (λ cone. IsEnumerationAnswer (codes "rays") (ray_enumeration order limit cone))) }
{
    match read_cone_document(alloc, bytes) {
        Ok(system) => {
            let order = NamedOrder { rule: order };
            run_rays(alloc, &system, order, Limit { number: limit })
        }
        Err(ConeFault::Lex(fault)) => fault_outcome(alloc, InputFault::Text(TextFault::Lex(fault))),
        Err(ConeFault::NoMemory) => Err(NoMemory),
    }
}
