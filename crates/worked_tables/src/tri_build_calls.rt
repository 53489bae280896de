use crate::sample_tables::{tet_and_core, text_of};
use sphere_certificate::check;
use std::test::Fail;
use tri_build::make;

#[test]
fn the_worked_making_goes_back(rt: HostRuntime) -> Result<(), Fail> {
    let alloc = rt.alloc();
    let made = make(alloc, 0, 2)?;
    let text = text_of(alloc, &made.table)?;
    let rows =
        b"tri 3\n1:3120 1:3120 1:3120 2:1032\n2:0123 0:3120 0:3120 0:3120\n1:0123 2:0321 0:1032 2:0321\n";
    assert_eq!(rt; text.as_slice(), rows.as_slice());
    assert_eq!(rt; made.certificate.len(), 2);
    let (first, second) = (made.certificate[0], made.certificate[1]);
    assert_eq!(rt; tet_and_core(first), (1, [false, true, true, true]));
    assert_eq!(rt; tet_and_core(second), (3, [false, false, true, false]));
    assert!(rt; check(alloc, &made.table, &made.certificate).is_ok());
    Ok(())
}

#[test]
fn nothing_is_made_without_moves(rt: HostRuntime) -> Result<(), Fail> {
    let alloc = rt.alloc();
    let made = make(alloc, 7, 0)?;
    let text = text_of(alloc, &made.table)?;
    assert_eq!(rt;
        text.as_slice(),
        b"tri 1\n0:1023 0:1023 0:1230 0:3012\n".as_slice()
    );
    assert!(rt; made.certificate.is_empty());
    Ok(())
}

#[test]
fn long_makings_are_certified(rt: HostRuntime) -> Result<(), Fail> {
    let alloc = rt.alloc();
    let made = make(alloc, 7, 200)?;
    assert_eq!(rt; made.certificate.len(), 200);
    assert!(rt; check(alloc, &made.table, &made.certificate).is_ok());
    Ok(())
}
