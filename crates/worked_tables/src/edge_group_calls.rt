use crate::sample_tables::{BALL, figure_eight, gieseking_row, reversed_row, skeleton_of};
use edge_group::{Failure, Group, GroupFault, Letter};
use gluing_table::{Face, Row};

fn plain(generator: u32) -> Letter {
    Letter {
        generator,
        inverse: false,
    }
}

fn backwards(generator: u32) -> Letter {
    Letter {
        generator,
        inverse: true,
    }
}

#[test]
fn the_figure_eight_complement(rt: HostRuntime) {
    let rows = figure_eight();
    let skeleton = skeleton_of(&rt, rt.alloc(), &rows);
    let Ok(group) = Group::of(rt.alloc(), &skeleton) else {
        panic!(rt; "a group was expected");
    };
    assert_eq!(rt; group.generators(), 3);
    assert_eq!(rt;
        (group.face_of(1), group.face_of(2), group.face_of(3)),
        (1, 2, 3)
    );
    assert_eq!(rt;
        (group.turns(1), group.turns(2), group.turns(3)),
        (false, false, false)
    );
    assert_eq!(rt; group.relators(), 2);
    assert_eq!(rt; (group.edge_of(0), group.edge_of(1)), (0, 1));
    assert!(rt;
        group.relator(0) == [plain(2), backwards(1), plain(3), plain(1), backwards(3)].as_slice()
    );
    assert!(rt; group.relator(1) == [plain(1), plain(2), backwards(3), backwards(2)].as_slice());
    assert_eq!(rt; skeleton.table().len(), 2);
    assert!(rt; group.tree_face(0).is_none());
    assert!(rt; group.tree_face(1) == Some(Face { tet: 0, face: 0 }));
}

#[test]
fn generators_that_turn(rt: HostRuntime) {
    let rows = [gieseking_row(0)];
    let skeleton = skeleton_of(&rt, rt.alloc(), &rows);
    let group = Group::of(rt.alloc(), &skeleton).ok().expect(&rt, "a group");
    assert_eq!(rt; group.generators(), 2);
    assert_eq!(rt; (group.turns(1), group.turns(2)), (true, true));
    assert_eq!(rt; group.relators(), 1);
    assert!(rt;
        group.relator(0)
            == [
                plain(2),
                backwards(1),
                backwards(2),
                plain(1),
                plain(1),
                plain(2)
            ]
            .as_slice()
    );
}

#[test]
fn a_table_without_tetrahedra(rt: HostRuntime) {
    let rows: Vec<Row> = Vec::new(rt.alloc());
    let skeleton = skeleton_of(&rt, rt.alloc(), &rows);
    let group = Group::of(rt.alloc(), &skeleton).ok().expect(&rt, "a group");
    assert_eq!(rt; group.generators(), 0);
    assert_eq!(rt; group.relators(), 0);
}

#[test]
fn a_table_that_is_not_connected(rt: HostRuntime) {
    let skeleton = skeleton_of(&rt, rt.alloc(), &[BALL, BALL]);
    let group = Group::of(rt.alloc(), &skeleton);
    assert!(rt;
        matches!(
            group,
            Err(Failure::Fault(GroupFault::NotConnected { tet: 1 }))
        )
    );
}

#[test]
fn an_edge_that_meets_its_reverse(rt: HostRuntime) {
    let skeleton = skeleton_of(&rt, rt.alloc(), &[reversed_row()]);
    let group = Group::of(rt.alloc(), &skeleton);
    assert!(rt;
        matches!(
            group,
            Err(Failure::Fault(GroupFault::InvalidEdge { class: 3 }))
        )
    );
}
