//! One step of the double description method: the rays with their supports and signs, and the search for adjacent
//! pairs.
#![tactic(auto)]

mod combinations;
mod combine;
mod compatible;
mod compatible_list;
mod found;
mod input;
mod lists;
mod negated;
mod negatives;
mod no_clash;
mod pairs;
mod partners;
mod ray_list;
mod rays;
mod search;
mod signs;
mod step;
mod thirds;
mod zeros;

pub use combinations::Combinations;
pub use compatible::{Clashes, Compatible};
pub use input::StepInput;
pub use lists::{sort_rays, wide_rays, without_supports};
pub use no_clash::NoClash;
pub use rays::{LargeKind, RayWithSupport, StepFault};
pub use signs::Sign;
pub use step::Step;
