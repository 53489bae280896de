//! The calls of `double_description` that take no closure, each once with its type.
use cone_core::System;
use double_description::{Order, choice};

#[test]
fn calls_have_their_types(_rt: HostRuntime) {
    let _choice: fn(Order, &System, &[u32]) -> usize = choice;
}
