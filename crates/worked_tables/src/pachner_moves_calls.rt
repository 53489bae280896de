use crate::sample_tables::{BALL, by, move_at, sphere_row, table_of, tet_and_core};
use gluing_table::{Row, Table};
use pachner_moves::{Move, MoveFault, apply, inverse_move, legal, take_back};
use std::process::Abort;

fn four() -> [Row; 4] {
    [
        [
            by(1, b"0123"),
            by(2, b"1023"),
            by(3, b"1203"),
            by(1, b"0123"),
        ],
        [
            by(0, b"0123"),
            by(2, b"0123"),
            by(3, b"0213"),
            by(0, b"0123"),
        ],
        [
            by(0, b"1023"),
            by(1, b"0123"),
            by(3, b"0123"),
            by(3, b"1203"),
        ],
        [
            by(0, b"2013"),
            by(1, b"0213"),
            by(2, b"0123"),
            by(2, b"2013"),
        ],
    ]
}

/// The first error of the move at tetrahedron 0 with the core of `mask`.
fn refusal(rt: &impl Abort, table: &Table, mask: u8) -> Option<MoveFault> {
    legal(table, move_at(rt, 0, mask)).err()
}

#[test]
fn worked_moves_are_distinguished(rt: HostRuntime) {
    let free = table_of(&rt, rt.alloc(), &[BALL]);
    let sphere = table_of(&rt, rt.alloc(), &[sphere_row(0)]);
    let four = table_of(&rt, rt.alloc(), &four());
    let boundary = refusal(&rt, &free, 14);
    assert!(rt; matches!(boundary, Some(MoveFault::Boundary { label: 3 })));
    let repeated = refusal(&rt, &sphere, 14);
    assert!(rt; matches!(repeated, Some(MoveFault::Repeated { label: 3 })));
    assert!(rt; refusal(&rt, &sphere, 15).is_none());
    let not_matched = refusal(&rt, &four, 1);
    assert!(rt;
        matches!(
            not_matched,
            Some(MoveFault::NotMatched {
                first: 1,
                second: 3
            })
        )
    );
    assert!(rt; refusal(&rt, &four, 8).is_none());
}

#[test]
fn refused_moves_leave_the_table(rt: HostRuntime) {
    let mut table = table_of(&rt, rt.alloc(), &four());
    let four = table_of(&rt, rt.alloc(), &four());
    let fault = apply(&mut table, move_at(&rt, 4, 15)).err();
    assert!(rt; matches!(fault, Some(MoveFault::NoSuchTet)));
    let fault = apply(&mut table, move_at(&rt, 0, 1)).err();
    assert!(rt;
        matches!(
            fault,
            Some(MoveFault::NotMatched {
                first: 1,
                second: 3
            })
        )
    );
    assert!(rt; table.equals(&four));
    let disconnected = vec![in rt.alloc(); BALL; 998].expect(&rt, "memory");
    let mut table = table_of(&rt, rt.alloc(), &disconnected);
    let fault = apply(&mut table, move_at(&rt, 0, 15)).err();
    assert!(rt; matches!(fault, Some(MoveFault::TooMany)));
    assert!(rt; table.rows() == disconnected.as_slice());
}

#[test]
fn a_sphere_is_parted_and_joined(rt: HostRuntime) {
    let four = table_of(&rt, rt.alloc(), &four());
    let mut table = table_of(&rt, rt.alloc(), &[sphere_row(0)]);
    let parted = apply(&mut table, move_at(&rt, 0, 15)).ok();
    assert!(rt; table.equals(&four));
    assert_eq!(rt;
        parted.map(|undo| tet_and_core(inverse_move(&undo))),
        Some((0, [false, false, false, true]))
    );
    let joined = apply(&mut table, move_at(&rt, 0, 8)).ok();
    let other = [[
        by(0, b"3120"),
        by(0, b"1230"),
        by(0, b"3012"),
        by(0, b"3120"),
    ]];
    let other = table_of(&rt, rt.alloc(), &other);
    assert!(rt; table.equals(&other));
    assert_eq!(rt;
        joined.map(|undo| tet_and_core(inverse_move(&undo))),
        Some((0, [true, true, true, true]))
    );
}

/// Plays `m` and takes it back, and returns whether it was legal.
fn is_taken_back(table: &mut Table, m: Move) -> bool {
    match apply(table, m) {
        Ok(undo) => {
            take_back(table, &undo);
            true
        }
        Err(_) => false,
    }
}

#[test]
fn moves_are_taken_back(rt: HostRuntime) {
    let mut table = table_of(&rt, rt.alloc(), &four());
    let four = table_of(&rt, rt.alloc(), &four());
    assert!(rt; is_taken_back(&mut table, move_at(&rt, 0, 8)));
    assert!(rt; table.equals(&four));
    assert!(rt; is_taken_back(&mut table, move_at(&rt, 3, 15)));
    assert!(rt; table.equals(&four));
}
