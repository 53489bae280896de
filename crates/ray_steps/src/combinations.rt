//! The combinations found so far in a step, and the state of a search for third rays.

use crate::compatible_list::CompatibleRays;
use crate::rays::RayWithSupport;
use crate::signs::Sign;
use support_bits::Support;

/// The combinations of the pairs so far, and the compatible rays that were gathered last.
#[derive(Drop)]
pub struct CombinationsSoFar {
    pub ray_list: Vec<RayWithSupport>,
    pub compatible_list: Option<CompatibleRays>,
}

/// The search for third rays for one positive ray: the columns that clash with its support, its compatible rays once
/// they are needed, and the index among them of the third ray found last, which is tried first.
#[derive(Drop)]
pub struct ThirdRaySearch {
    pub joined: Support,
    pub compatible_list: Option<CompatibleRays>,
    pub hint: usize,
}

/// The rays of a step, their signs, and the combinations of its pairs.
#[derive(Drop)]
pub struct Combinations {
    pub ray_list: Vec<RayWithSupport>,
    pub signs: Vec<Sign>,
    pub made: Vec<RayWithSupport>,
}
