use crate::sample_tables::{BALL, gieseking_row, skeleton_of, sphere_row, table_of};
use double_cover::{Cover, Failure, TooMany};
use gluing_table::Row;
use perm_four::Perm4;
use skeleton::Skeleton;
use std::alloc::Global;
use std::process::Abort;

fn of(rt: &impl Abort, alloc: Global, rows: &[Row]) -> Cover {
    Cover::of(alloc, &skeleton_of(rt, alloc, rows))
        .ok()
        .expect(rt, "a cover")
}

#[test]
fn over_a_table_that_is_not_orientable(rt: HostRuntime) {
    let cover = of(&rt, rt.alloc(), &[gieseking_row(0)]);
    let rows = [gieseking_row(1), gieseking_row(0)];
    let asked = table_of(&rt, rt.alloc(), &rows);
    assert!(rt; cover.table().equals(&asked));
    let unreached = cover.table().unreached(rt.alloc()).expect(&rt, "memory");
    assert_eq!(rt; unreached, None);
    let split = cover.split(rt.alloc()).expect(&rt, "memory");
    assert!(rt; split.is_none());
}

#[test]
fn over_the_sphere(rt: HostRuntime) {
    let cover = of(&rt, rt.alloc(), &[sphere_row(0)]);
    let rows = [sphere_row(0), sphere_row(1)];
    let asked = table_of(&rt, rt.alloc(), &rows);
    assert!(rt; cover.table().equals(&asked));
    let unreached = cover.table().unreached(rt.alloc()).expect(&rt, "memory");
    assert_eq!(rt; unreached, Some(1));
    let split = cover
        .split(rt.alloc())
        .expect(&rt, "memory")
        .expect(&rt, "an orientation");
    let parted = cover
        .table()
        .relabel(rt.alloc(), &split)
        .expect(&rt, "memory");
    assert!(rt; parted.equals(&asked));
}

#[test]
fn sheets_are_exchanged(rt: HostRuntime) {
    let cover = of(&rt, rt.alloc(), &[gieseking_row(0)]);
    assert_eq!(rt; cover.table().len(), 2);
    assert_eq!(rt; (cover.over(0), cover.sheet(0)), (0, 0));
    assert_eq!(rt; (cover.over(1), cover.sheet(1)), (0, 1));
    let exchange = cover.exchange(rt.alloc()).expect(&rt, "memory");
    assert_eq!(rt; (exchange.image(0), exchange.image(1)), (1, 0));
    assert!(rt; Some(exchange.perm(0)) == Perm4::from_word(b"0123"));
}

#[test]
fn too_many(rt: HostRuntime) {
    let mut rows = Vec::with_capacity(rt.alloc(), 501).expect(&rt, "memory");
    for _ in 0..501 {
        rows.push(BALL).expect(&rt, "memory");
    }
    let table = table_of(&rt, rt.alloc(), &rows);
    let skeleton = Skeleton::of(rt.alloc(), &table).expect(&rt, "memory");
    let cover = Cover::of(rt.alloc(), &skeleton);
    assert!(rt; matches!(cover, Err(Failure::Fault(TooMany))));
}
