use crate::sample_tables::{move_at, read_table, tet_and_core};
use out_of_memory::Failure;
use pachner_moves::{MoveFault, apply};
use sphere_certificate::{CheckFault, check, descend, standard};
use std::test::Fail;

#[test]
fn the_sphere_is_certified_without_moves(rt: HostRuntime) -> Result<(), Fail> {
    let alloc = rt.alloc();
    let sphere = standard(alloc)?;
    assert!(rt; sphere.equals(&read_table(alloc, b"bkaagj")?));
    assert!(rt; check(alloc, &sphere, &[]).is_ok());
    Ok(())
}

#[test]
fn moves_are_refused_by_their_step(rt: HostRuntime) -> Result<(), Fail> {
    let alloc = rt.alloc();
    let sphere = standard(alloc)?;
    let moves = [move_at(&rt, 0, 15), move_at(&rt, 0, 8), move_at(&rt, 0, 14)];
    assert!(rt; check(alloc, &sphere, &moves[..2]).is_ok());
    match check(alloc, &sphere, &moves) {
        Err(Failure::Fault(CheckFault::Illegal { step, fault })) => {
            assert_eq!(rt; step, 3);
            assert!(rt; matches!(fault, MoveFault::Repeated { label: 3 }));
        }
        _ => assert!(rt; false, "not refused"),
    }
    Ok(())
}

#[test]
fn other_tables_have_another_signature(rt: HostRuntime) -> Result<(), Fail> {
    let alloc = rt.alloc();
    let table = read_table(alloc, b"bkaagb")?;
    match check(alloc, &table, &[]) {
        Err(Failure::Fault(CheckFault::NotStandard { signature })) => {
            assert_eq!(rt; signature.as_slice(), b"bkaagb".as_slice());
        }
        _ => assert!(rt; false, "not refused"),
    }
    Ok(())
}

#[test]
fn a_parted_sphere_is_reached(rt: HostRuntime) -> Result<(), Fail> {
    let alloc = rt.alloc();
    let mut table = standard(alloc)?;
    let parting = move_at(&rt, 0, 15);
    let joining = move_at(&rt, 0, 8);
    assert!(rt; apply(&mut table, parting).is_ok());
    let descent = descend(alloc, &table).ok().ok_or("no descent")?;
    assert!(rt; descent.reached);
    assert_eq!(rt; descent.moves.len(), 1);
    assert_eq!(rt; tet_and_core(descent.moves[0]), tet_and_core(joining));
    assert_eq!(rt; descent.table.len(), 1);
    Ok(())
}

#[test]
fn descents_end_at_other_tables(rt: HostRuntime) -> Result<(), Fail> {
    let alloc = rt.alloc();
    let table = read_table(alloc, b"bkaagb")?;
    let descent = descend(alloc, &table).ok().ok_or("no descent")?;
    assert!(rt; !descent.reached);
    assert!(rt; descent.moves.is_empty());
    assert!(rt; descent.table.equals(&table));
    Ok(())
}
