//! The calls of `vertex_links`, each once with its type.
use out_of_memory::NoMemory;
use skeleton::Skeleton;
use std::alloc::Global;
use vertex_links::{Link, links};

#[test]
fn calls_have_their_types(_rt: HostRuntime) {
    let _links: fn(Global, &Skeleton) -> Result<Vec<Link>, NoMemory> = links;
}
