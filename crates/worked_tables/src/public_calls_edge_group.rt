//! The calls of `edge_group`, each once with its type. Calls that take or return a borrow are named as they are called.
use edge_group::{Group, GroupFault};
use gluing_table::Face;
use out_of_memory::Failure;
use skeleton::Skeleton;
use std::alloc::Global;

#[test]
fn calls_have_their_types(_rt: HostRuntime) {
    let _of: fn(Global, &Skeleton) -> Result<Group, Failure<GroupFault>> = Group::of;
    let _generators: fn(&Group) -> u32 = Group::generators;
    let _face_of: fn(&Group, u32) -> u32 = Group::face_of;
    let _turns: fn(&Group, u32) -> bool = Group::turns;
    let _relators: fn(&Group) -> u32 = Group::relators;
    let _edge_of: fn(&Group, u32) -> u32 = Group::edge_of;
    let _tree_face: fn(&Group, u32) -> Option<Face> = Group::tree_face;
}
