use crate::sample_tables::{by, skeleton_of, sphere_row, table_of};
use crushing::{crush, crush_table};

#[test]
fn a_table_with_quads_goes(rt: HostRuntime) {
    let skeleton = skeleton_of(&rt, rt.alloc(), &[sphere_row(0)]);
    assert_eq!(rt; skeleton.table().len(), 1);
    let crushed = crush(rt.alloc(), &skeleton, &[1, 1, 0, 0, 1, 0, 0]).expect(&rt, "memory");
    assert_eq!(rt; crushed.len(), 0);
    let kept = crush(rt.alloc(), &skeleton, &[1, 1, 1, 1, 0, 0, 0]).expect(&rt, "memory");
    assert!(rt; kept.equals(skeleton.table()));
}

#[test]
fn a_face_is_followed_through(rt: HostRuntime) {
    let rows = [
        [by(1, b"0123"), by(1, b"0123"), None, None],
        [by(0, b"0123"), by(0, b"0123"), None, None],
    ];
    let table = table_of(&rt, rt.alloc(), &rows);
    assert_eq!(rt; table.len(), 2);
    let x = [1, 1, 0, 0, 0, 0, 0, 0, 0, 0, 0, 1, 0, 0];
    let crushed = crush_table(rt.alloc(), &table, &x).expect(&rt, "memory");
    let glued = [by(0, b"1023"), by(0, b"1023"), None, None];
    let asked = table_of(&rt, rt.alloc(), &[glued]);
    assert!(rt; crushed.equals(&asked));
}
