ghost use Rattle.std.specs.Prelude.{◌≡◌, ◌<◌, [], ◌∷◌, IfOk};
ghost use Rattle.cone_definitions.specs.WorkedRow.{worked_row};

use crate::sample_cones::is_ray;
use cone_core::{MAX_ENTRY, Ray, SparseRow, System, combine};
use out_of_memory::{Failure, NoMemory};
use ray_decompose::{AddFault, Given, Large, add_up, decompose};
use std::alloc::Global;
use std::test::Fail;
use sum_laws::worked_sums;

fn given(alloc: Global, count: u128, entries: &[u128]) -> Result<Given, Fail>
    ensures { IfOk result (λ given. given.entries.items ≡ entries.now) }
{
    let entries = entries.to_vec(alloc)?;
    Ok(Given { count, entries })
}

#[test]
fn given_terms_add_up(rt: HostRuntime) -> Result<(), Fail> {
    let alloc = rt.alloc();
    let torus = given(alloc, 2, &[1, 1, 0, 0, 1, 0, 0])?;
    let link = given(alloc, 1, &[1, 1, 1, 1, 0, 0, 0])?;
    let terms = [torus, link];
    let x = [3, 3, 1, 1, 2, 0, 0];
    assert!(rt; add_up(&x, 1, &terms).is_ok());
    assert!(rt; matches!(add_up(&x, 2, &terms), Err(AddFault::NotEqual { column: 0 })));
    assert!(rt; matches!(add_up(&x, 0, &terms), Err(AddFault::ZeroTimes)));
    assert!(rt;
        matches!(
            add_up(&x, MAX_ENTRY, &terms),
            Err(AddFault::Large { column: 0 })
        )
    );
    Ok(())
}

// The row x + y - 2 z, over three columns.
fn worked_system(alloc: Global) -> Result<System, NoMemory>
    ensures { IfOk result (λ system. (system.columns ≡ 3) × (system.rows ≡ worked_row ∷ [])) }
{
    let mut system = System::new(alloc, 3);
    system.push_row(SparseRow::new(alloc, &[(0, 1), (1, 1), (2, -2)])?)?;
    Ok(system)
}

// The ray of that row with this column and the last one.
fn worked_ray(alloc: Global, column: u32, entries: &[u128]) -> Result<Ray, Fail>
    requires { column < 3 }
    ensures { IfOk result (λ ray. ray ≡ entries.now) }
{
    let first = Ray::unit(alloc, 3, column)?;
    let last = Ray::unit(alloc, 3, 2)?;
    let ray = combine(alloc, &first, &last, 1, 2, MAX_ENTRY)
        .ok()
        .ok_or("too large")?;
    if ray.entries() != entries {
        return Err(NoMemory)?;
    }
    Ok(ray)
}

// 1 1 1 as a sum of the rays 0 2 1 and 2 0 1.
#[test]
fn a_solution_is_a_sum_of_rays(rt: HostRuntime) -> Result<(), Fail> {
    let alloc = rt.alloc();
    let system = worked_system(alloc)?;
    let rays = [
        worked_ray(alloc, 1, &[0, 2, 1])?,
        worked_ray(alloc, 0, &[2, 0, 1])?,
    ];
    worked_sums();
    let sum = decompose(alloc, &system, &rays, &[1, 1, 1], 2)
        .ok()
        .ok_or("no sum")?;
    assert_eq!(rt; (sum.times, sum.terms.len()), (2, 2));
    for (term, vector) in sum.terms.iter().zip([[0, 2, 1], [2, 0, 1]]) {
        assert_eq!(rt; term.count, 1);
        is_ray(&rt, &term.vector, &vector);
    }
    let large = decompose(alloc, &system, &rays, &[1, 1, 1], 1);
    assert!(rt; matches!(large, Err(Failure::Fault(Large { turn: 0, column: 0 }))));
    Ok(())
}
