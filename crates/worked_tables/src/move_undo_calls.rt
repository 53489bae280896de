use crate::sample_tables::{move_at, sphere_row, table_of, text_of};
use move_undo::{PlayFault, Session, write_move};
use pachner_moves::{Core, Move, MoveFault};
use std::alloc::Global;
use std::process::Abort;
use std::test::Fail;

const SPHERE: &[u8] = b"tri 1\n0:1023 0:1023 0:1230 0:3012\n";

const FOUR: &[u8] =
    b"tri 4\n1:0123 2:1023 3:1203 1:0123\n0:0123 2:0123 3:0213 0:0123\n0:1023 1:0123 3:0123 3:1203\n0:2013 1:0213 2:0123 2:2013\n";

const JOINED: &[u8] = b"tri 1\n0:3120 0:1230 0:3012 0:3120\n";

/// A session on the sphere of one tetrahedron.
fn session(rt: &impl Abort, alloc: Global) -> Session {
    Session::new(alloc, table_of(rt, alloc, &[sphere_row(0)]))
}

#[test]
fn a_move_is_undone_and_redone(rt: HostRuntime) -> Result<(), Fail> {
    let alloc = rt.alloc();
    let mut session = session(&rt, alloc);
    assert!(rt; session.play(move_at(&rt, 0, 15)).is_ok());
    assert!(rt; session.undo());
    assert_eq!(rt; text_of(alloc, session.table())?.as_slice(), SPHERE);
    assert!(rt; session.redo());
    assert_eq!(rt; text_of(alloc, session.table())?.as_slice(), FOUR);
    assert_eq!(rt; session.played(), 1);
    Ok(())
}

#[test]
fn moves_are_played_and_undone(rt: HostRuntime) -> Result<(), Fail> {
    let alloc = rt.alloc();
    let mut session = session(&rt, alloc);
    assert!(rt; session.play(move_at(&rt, 0, 15)).is_ok());
    assert!(rt; session.play(move_at(&rt, 0, 8)).is_ok());
    assert_eq!(rt; text_of(alloc, session.table())?.as_slice(), JOINED);
    assert!(rt; session.undo() && session.undo() && !session.undo());
    assert_eq!(rt; text_of(alloc, session.table())?.as_slice(), SPHERE);
    Ok(())
}

#[test]
fn a_refused_move_leaves_what_was_undone(rt: HostRuntime) {
    let mut session = session(&rt, rt.alloc());
    assert!(rt; session.play(move_at(&rt, 0, 15)).is_ok());
    assert!(rt; session.undo() && !session.undo());
    let played = session.play(move_at(&rt, 0, 14));
    assert!(rt;
        matches!(
            played,
            Err(PlayFault::Illegal(MoveFault::Repeated { label: 3 }))
        )
    );
    assert!(rt; session.redo() && !session.redo());
}

#[test]
fn moves_are_written(rt: HostRuntime) -> Result<(), Fail> {
    let alloc = rt.alloc();
    for (mask, line) in [
        (15, b"14 70\n".as_slice()),
        (13, b"23 70 1\n".as_slice()),
        (6, b"32 70 12\n".as_slice()),
        (8, b"41 70 3\n".as_slice()),
    ] {
        let core = Core::new(mask).expect(&rt, "a core");
        let mut out = Vec::new(alloc);
        write_move(alloc, Move { tet: 70, core }, &mut out).expect(&rt, "memory");
        assert_eq!(rt; out.as_slice(), line);
    }
    Ok(())
}
