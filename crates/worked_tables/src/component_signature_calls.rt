use crate::sample_tables::{BALL, by, sphere_row, table_of};
use component_signature::{component_signature, parts, same_parts};
use gluing_table::Row;
use perm_four::Perm4;
use std::alloc::Global;
use std::process::Abort;

fn signed(rt: &impl Abort, alloc: Global, rows: &[Row], asked: &[u8]) {
    let table = table_of(rt, alloc, rows);
    let text = component_signature(alloc, &table).expect(rt, "memory");
    assert_eq!(rt; text.as_slice(), asked);
}

#[test]
fn component_signatures(rt: HostRuntime) {
    let alloc = rt.alloc();
    let no_rows: Vec<Row> = Vec::new(alloc);
    signed(&rt, alloc, &no_rows, b"a");
    signed(&rt, alloc, &[BALL, BALL], b"baa.baa");
    let spheres = [sphere_row(0), sphere_row(1)];
    signed(&rt, alloc, &spheres, b"bkaagj.bkaagj");
    signed(&rt, alloc, &[sphere_row(0), BALL], b"baa.bkaagj");
}

#[test]
fn parts_of_a_table(rt: HostRuntime) {
    let alloc = rt.alloc();
    let rows = [
        [by(2, b"0123"), None, None, None],
        BALL,
        [by(0, b"0123"), None, None, None],
    ];
    let parts = parts(alloc, &table_of(&rt, alloc, &rows)).expect(&rt, "memory");
    assert_eq!(rt; parts.len(), 2);
    assert_eq!(rt; parts[0].numbers.as_slice(), [0, 2].as_slice());
    assert_eq!(rt; parts[1].numbers.as_slice(), [1].as_slice());
    let rows = [
        [by(1, b"0123"), None, None, None],
        [by(0, b"0123"), None, None, None],
    ];
    assert!(rt; parts[0].table.equals(&table_of(&rt, alloc, &rows)));
    assert!(rt; parts[1].table.equals(&table_of(&rt, alloc, &[BALL])));
}

#[test]
fn parts_that_are_the_same(rt: HostRuntime) {
    let alloc = rt.alloc();
    let first = table_of(&rt, alloc, &[BALL, sphere_row(1)]);
    let second = table_of(&rt, alloc, &[sphere_row(0), BALL]);
    assert_eq!(rt; first.len(), 2);
    let by = same_parts(alloc, &first, &second)
        .expect(&rt, "memory")
        .expect(&rt, "a relabelling");
    assert_eq!(rt; (by.image(0), by.image(1)), (1, 0));
    assert!(rt; Some(by.perm(0)) == Perm4::from_word(b"0123"));
    assert!(rt; Some(by.perm(1)) == Perm4::from_word(b"0123"));
}

#[test]
fn parts_that_differ(rt: HostRuntime) {
    let alloc = rt.alloc();
    let no_rows: Vec<Row> = Vec::new(alloc);
    let first = table_of(&rt, alloc, &no_rows);
    let second = table_of(&rt, alloc, &[BALL]);
    let reported = same_parts(alloc, &first, &second).expect(&rt, "memory");
    assert!(rt; reported.is_none());
}
