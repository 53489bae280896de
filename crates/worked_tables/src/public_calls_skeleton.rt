//! The calls of `skeleton`, each once with its type. Calls that take or return a borrow are named as they are called.
use gluing_table::Table;
use out_of_memory::NoMemory;
use skeleton::Skeleton;
use std::alloc::Global;

#[test]
fn calls_have_their_types(_rt: HostRuntime) {
    let _of: fn(Global, &Table) -> Result<Skeleton, NoMemory> = Skeleton::of;
    let _vertices: fn(&Skeleton) -> u32 = Skeleton::vertices;
    let _edges: fn(&Skeleton) -> u32 = Skeleton::edges;
    let _faces: fn(&Skeleton) -> u32 = Skeleton::faces;
    let _vertex_class: fn(&Skeleton, u32, u8) -> u32 = Skeleton::vertex_class;
    let _edge_class: fn(&Skeleton, u32, u8) -> (u32, bool) = Skeleton::edge_class;
    let _face_class: fn(&Skeleton, u32, u8) -> u32 = Skeleton::face_class;
    let _vertex_degree: fn(&Skeleton, u32) -> u32 = Skeleton::vertex_degree;
    let _edge_degree: fn(&Skeleton, u32) -> u32 = Skeleton::edge_degree;
    let _is_boundary_edge: fn(&Skeleton, u32) -> bool = Skeleton::is_boundary_edge;
    let _is_valid_edge: fn(&Skeleton, u32) -> bool = Skeleton::is_valid_edge;
    let _first_invalid: fn(&Skeleton) -> Option<u32> = Skeleton::first_invalid;
    let _is_closed: fn(&Skeleton) -> bool = Skeleton::is_closed;
}
