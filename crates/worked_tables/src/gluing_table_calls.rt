ghost use Rattle.std.specs.Prelude.{◌≡◌, length};

use crate::sample_tables::{BALL, by, sphere_row, table_of, text_of};
use gluing_table::{
    Face, Glue, Probe, Relabelling, RelabellingFault, Table, TableFault, TextFault, read_rows,
};
use perm_four::Perm4;
use std::alloc::Global;
use text_io::Lexer;

#[test]
fn a_sphere_is_a_table(rt: HostRuntime) {
    let table = table_of(&rt, rt.alloc(), &[sphere_row(0)]);
    assert_eq!(rt; table.len(), 1);
    assert!(rt; table.len() > 0);
    let written = text_of(rt.alloc(), &table).expect(&rt, "memory");
    assert_eq!(rt;
        written.as_slice(),
        b"tri 1\n0:1023 0:1023 0:1230 0:3012\n".as_slice()
    );
    let copy = table.copy(rt.alloc()).expect(&rt, "memory");
    assert!(rt; table.equals(&copy));
    let reached = table.unreached(rt.alloc()).expect(&rt, "memory");
    assert_eq!(rt; reached, None);
}

#[test]
fn a_text_is_read(rt: HostRuntime) {
    let text = b" 1\n0:1023 0:1023 0:1230 0:3012\n";
    let mut lexer = Lexer::new(text);
    assert!(rt; lexer.next_line());
    let table = read_rows(rt.alloc(), &mut lexer)
        .ok()
        .expect(&rt, "a table");
    let sphere = table_of(&rt, rt.alloc(), &[sphere_row(0)]);
    assert!(rt; table.equals(&sphere));
    let mut many = Lexer::new(b"1001 x");
    assert!(rt; many.next_line());
    let read = read_rows(rt.alloc(), &mut many);
    assert!(rt; matches!(read, Err(TextFault::Table(TableFault::TooMany))));
}

#[tactic(auto, using(table_definitions::proofs::Removing::can_remove_second))]
fn without_second(mut table: Table) -> Table
    requires { length table ≡ 3 }
{
    table.replace(&[1], &[]);
    table
}

#[test]
fn a_row_is_taken_out(rt: HostRuntime) {
    let rows = [
        [by(1, b"0123"), by(2, b"0123"), None, None],
        [by(0, b"0123"), None, None, None],
        [None, by(0, b"0123"), None, None],
    ];
    let table = table_of(&rt, rt.alloc(), &rows);
    assert_eq!(rt; table.len(), 3);
    let table = without_second(table);
    let written = text_of(rt.alloc(), &table).expect(&rt, "memory");
    assert_eq!(rt;
        written.as_slice(),
        b"tri 2\n- 1:0123 - -\n- 0:0123 - -\n".as_slice()
    );
}

#[test]
fn two_free_tetrahedra_are_disconnected(rt: HostRuntime) {
    let rows = [BALL, BALL];
    let table = table_of(&rt, rt.alloc(), &rows);
    let reached = table.unreached(rt.alloc()).expect(&rt, "memory");
    assert_eq!(rt; reached, Some(1));
    let written = text_of(rt.alloc(), &table).expect(&rt, "memory");
    assert_eq!(rt; written.as_slice(), b"tri 2\n- - - -\n- - - -\n".as_slice());
}

fn fault(alloc: Global, glue: Option<Glue>) -> Option<TableFault> {
    Table::from_rows(alloc, &[[glue, None, None, None]]).err()
}

#[test]
fn faults_are_found(rt: HostRuntime) {
    let not_mutual = fault(rt.alloc(), by(0, b"1023"));
    assert!(rt; matches!(not_mutual, Some(TableFault::NotMutual { tet: 0, face: 0 })));
    let self_glued = fault(rt.alloc(), by(0, b"0123"));
    assert!(rt; matches!(self_glued, Some(TableFault::SelfGlued { tet: 0, face: 0 })));
    let no_such_tet = fault(rt.alloc(), by(1, b"0123"));
    assert!(rt; matches!(no_such_tet, Some(TableFault::NoSuchTet { tet: 0, face: 0 })));
    let rows = vec![in rt.alloc(); BALL; 1001].expect(&rt, "memory");
    let too_many = Table::from_rows(rt.alloc(), &rows);
    assert!(rt; matches!(too_many, Err(TableFault::TooMany)));
}

#[test]
fn faces_that_are_read_are_counted(rt: HostRuntime) {
    let table = table_of(&rt, rt.alloc(), &[sphere_row(0)]);
    let mut probe = Probe::new(&table);
    assert_eq!(rt; probe.len(), 1);
    assert_eq!(rt; probe.taken(), 0);
    assert!(rt; probe.glue(Face { tet: 0, face: 2 }) == by(0, b"1230"));
    assert!(rt; probe.glue(Face { tet: 0, face: 2 }) == by(0, b"1230"));
    assert_eq!(rt; probe.taken(), 2);
}

#[test]
fn images_are_looked_at_in_turn(rt: HostRuntime) {
    let turn = Perm4::new(1, 2, 3, 0).expect(&rt, "a permutation");
    let perms = [turn, turn, turn];
    let swapped = Relabelling::new(rt.alloc(), &[1, 0, 2], &perms)
        .ok()
        .expect(&rt, "a relabelling");
    assert_eq!(rt; swapped.len(), 3);
    assert_eq!(rt;
        (swapped.image(0), swapped.image(1), swapped.image(2)),
        (1, 0, 2)
    );
    assert!(rt; swapped.perm(2) == turn);
    let twice = Relabelling::new(rt.alloc(), &[1, 1, 7], &perms);
    assert!(rt; matches!(twice, Err(RelabellingFault::NotBijection { position: 1 })));
    let large = Relabelling::new(rt.alloc(), &[3, 1, 1], &perms);
    assert!(rt; matches!(large, Err(RelabellingFault::NotBijection { position: 0 })));
}

#[test]
fn a_sphere_is_relabelled(rt: HostRuntime) {
    let other = [
        by(0, b"1023"),
        by(0, b"1023"),
        by(0, b"2031"),
        by(0, b"1302"),
    ];
    let table = table_of(&rt, rt.alloc(), &[other]);
    let turn = Perm4::new(0, 1, 3, 2).expect(&rt, "a permutation");
    let to_sphere = Relabelling::new(rt.alloc(), &[0], &[turn])
        .ok()
        .expect(&rt, "a relabelling");
    assert_eq!(rt; to_sphere.len(), table.len());
    let new = table.relabel(rt.alloc(), &to_sphere).expect(&rt, "memory");
    let written = text_of(rt.alloc(), &new).expect(&rt, "memory");
    assert_eq!(rt;
        written.as_slice(),
        b"tri 1\n0:1023 0:1023 0:1230 0:3012\n".as_slice()
    );
}
