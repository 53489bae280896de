use crate::sample_tables::{figure_eight, gieseking_row, reversed_row, skeleton_of};
use gluing_table::Row;
use std::alloc::Global;
use std::process::Abort;
use vertex_links::{Link, LinkKind, links};

fn links_of(rt: &impl Abort, alloc: Global, rows: &[Row]) -> Vec<Link> {
    links(alloc, &skeleton_of(rt, alloc, rows)).expect(rt, "memory")
}

#[test]
fn the_figure_eight_complement_has_a_torus(rt: HostRuntime) {
    let found = links_of(&rt, rt.alloc(), &figure_eight());
    assert_eq!(rt; found.len(), 1);
    assert!(rt;
        matches!(
            found[0],
            Link {
                triangles: 8,
                edges: 12,
                vertices: 4,
                euler: 0,
                closed: true,
                orientable: true,
                kind: LinkKind::Torus,
            }
        )
    );
}

#[test]
fn the_gieseking_manifold_has_a_klein_bottle(rt: HostRuntime) {
    let found = links_of(&rt, rt.alloc(), &[gieseking_row(0)]);
    assert_eq!(rt; found.len(), 1);
    assert!(rt;
        matches!(
            found[0],
            Link {
                triangles: 4,
                edges: 6,
                vertices: 2,
                euler: 0,
                closed: true,
                orientable: false,
                kind: LinkKind::Klein,
            }
        )
    );
}

#[test]
fn two_discs(rt: HostRuntime) {
    let found = links_of(&rt, rt.alloc(), &[reversed_row()]);
    assert_eq!(rt; found.len(), 2);
    assert!(rt;
        matches!(
            found[0],
            Link {
                triangles: 2,
                edges: 5,
                vertices: 4,
                euler: 1,
                closed: false,
                orientable: true,
                kind: LinkKind::Disc,
            }
        )
    );
    assert!(rt;
        matches!(
            found[1],
            Link {
                triangles: 2,
                edges: 4,
                vertices: 3,
                euler: 1,
                closed: false,
                orientable: true,
                kind: LinkKind::Disc,
            }
        )
    );
}
