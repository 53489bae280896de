use crate::sample_tables::{figure_eight, gieseking_row, reversed_row, skeleton_of, sphere_row};

#[test]
fn the_figure_eight_complement(rt: HostRuntime) {
    let skeleton = skeleton_of(&rt, rt.alloc(), &figure_eight());
    assert_eq!(rt; skeleton.vertices(), 1);
    assert_eq!(rt; skeleton.vertex_degree(0), 8);
    assert_eq!(rt; skeleton.edges(), 2);
    assert_eq!(rt; (skeleton.edge_degree(0), skeleton.edge_degree(1)), (6, 6));
    assert_eq!(rt; skeleton.faces(), 4);
    assert!(rt; skeleton.is_closed() && skeleton.orientation().is_some());
    assert_eq!(rt; skeleton.first_invalid(), None);
}

#[test]
fn a_table_that_is_not_orientable(rt: HostRuntime) {
    let skeleton = skeleton_of(&rt, rt.alloc(), &[gieseking_row(0)]);
    assert!(rt; skeleton.orientation().is_none());
}

#[test]
fn an_edge_that_meets_its_reverse(rt: HostRuntime) {
    let skeleton = skeleton_of(&rt, rt.alloc(), &[reversed_row()]);
    assert_eq!(rt; skeleton.edges(), 4);
    assert_eq!(rt; (skeleton.edge_degree(0), skeleton.edge_degree(1)), (1, 2));
    assert_eq!(rt; (skeleton.edge_degree(2), skeleton.edge_degree(3)), (2, 1));
    assert_eq!(rt; (skeleton.vertices(), skeleton.faces()), (2, 3));
    assert_eq!(rt; skeleton.first_invalid(), Some(3));
}

#[test]
fn edges_of_the_boundary(rt: HostRuntime) {
    let skeleton = skeleton_of(&rt, rt.alloc(), &[reversed_row()]);
    assert_eq!(rt; skeleton.edges(), 4);
    assert!(rt; !skeleton.is_closed() && skeleton.around(0).is_empty());
    assert!(rt; skeleton.is_boundary_edge(0) && !skeleton.is_boundary_edge(3));
}

#[test]
fn classes_of_a_tetrahedron(rt: HostRuntime) {
    let skeleton = skeleton_of(&rt, rt.alloc(), &[reversed_row()]);
    assert_eq!(rt; skeleton.table().len(), 1);
    assert_eq!(rt;
        (skeleton.vertex_class(0, 3), skeleton.face_class(0, 1)),
        (1, 0)
    );
    assert_eq!(rt; skeleton.edge_class(0, 5), (3, false));
}

#[test]
fn the_walks_of_a_sphere(rt: HostRuntime) {
    let skeleton = skeleton_of(&rt, rt.alloc(), &[sphere_row(0)]);
    assert_eq!(rt; skeleton.edges(), 2);
    let labels = [
        [0, 1, 2, 3],
        [1, 2, 0, 3],
        [0, 2, 3, 1],
        [3, 1, 0, 2],
        [3, 0, 2, 1],
    ];
    let corners = skeleton.around(0);
    assert_eq!(rt; corners.len(), labels.len());
    for (corner, labels) in corners.iter().zip(&labels) {
        assert_eq!(rt; corner.tet, 0);
        assert_eq!(rt; [corner.a, corner.b, corner.c, corner.d], *labels);
    }
    assert_eq!(rt; skeleton.around(1).len(), 1);
}
