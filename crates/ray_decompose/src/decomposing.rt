//! Writes a solution as a sum of listed rays.

ghost use Rattle.std.specs.Prelude.{IfOk, IfErr};
ghost use Rattle.out_of_memory.specs.Failures.{IfFault};
ghost use Rattle.sum_definitions.specs.Sums.{HasRays, IsSum, IsLargeStep};
ghost use Rattle.sum_laws.specs.Laws.{IsSumOfRays};

use crate::columns::first_large;
use crate::fraction::{Division, fraction_inside};
use crate::taking::{Subtraction, take_ray};
use cone_arithmetic::{Ray, System};
use out_of_memory::Failure;
use std::alloc::Global;
use sum_definitions::LargeTurn;

/// A term of a sum: a ray, with the number of times that it is taken.
pub type Term = sum_definitions::Term<Ray>;

/// A solution as a sum of rays: `times` times the solution is the sum of `terms`.
#[derive(Drop)]
pub struct Sum {
    pub times: u128,
    pub terms: Vec<Term>,
}

/// Why `decompose` fails: the first step at which a number exceeds the limit, with its first column, or memory runs
/// out.
pub type SumFault = Failure<LargeTurn>;

/// Writes the solution `x` of `system` as a sum of rays in `list`. Each step takes the first ray whose support lies in
/// that of the remainder, and subtracts the largest multiple that leaves no entry negative. Fails with `Large` at the
/// first step, and its first column, at which the multiplied entry of `x` exceeds `limit`.
///
/// `list` is ascending and contains each primitive extreme solution whose support lies in that of `x`. It is read once,
/// since a ray whose support is not in that of the remainder never is later.
pub fn decompose(
    alloc: Global,
    system: &System,
    list: &[Ray],
    x: &[u128],
    limit: u128,
) -> Result<Sum, SumFault>
    requires { HasRays system.now.columns system.now.rows list.now x.now }
    ensures ok { IfOk result (λ sum. IsSum limit list.now x.now sum.times sum.terms.items) }
    ensures right { IfOk result (λ sum. IsSumOfRays list.now limit x.now sum.times sum.terms.items) }
    ensures err { IfErr result (λ e. IfFault e (λ large. IsLargeStep limit list.now x.now large.turn large.column)) }
{
    let mut times = 1;
    let mut terms: Vec<Term> = Vec::with_capacity(alloc, system.columns() as usize)?;
    let mut rest = x.to_vec(alloc)?;
    for ray in list {
        let division = Division {
            rest: &rest,
            ray: ray.entries(),
        };
        if let Some(fraction) = fraction_inside(division) {
            if let Some(column) = first_large(x, fraction.denominator, times, limit) {
                let turn = terms.len() as u32;
                return Err(Failure::Fault(LargeTurn { turn, column }));
            }
            let taking = Subtraction {
                rest,
                fraction,
                ray,
            };
            let left = take_ray(alloc, &mut terms, taking)?;
            rest = left;
            times = fraction.denominator * times;
        }
    }
    Ok(Sum { times, terms })
}
