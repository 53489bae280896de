//! Rays of the same length.

ghost use Rattle.ray_steps.specs.Rays.{AreOfWidth};

use crate::rays::RayWithSupport;

/// A list of rays. Invariant: each has `columns` entries.
#[derive(Clone, Copy)]
pub struct RayList<'a> {
    pub columns: u32,
    pub items: &'a [RayWithSupport],
    pub ghost widths: { AreOfWidth columns items.now },
}
