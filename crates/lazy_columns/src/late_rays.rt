//! The rays of the rows so far, for the columns that have entered.

ghost use Rattle.std.specs.Prelude.{◌≡◌, length};

use ray_steps::RayWithSupport;

/// The rays of the rows so far that are 0 at each column that has not entered, and which columns have entered (`seen`).
/// Invariant: `seen` has `columns` entries.
#[derive(Drop)]
pub struct LateRays {
    pub columns: u32,
    pub ray_list: Vec<RayWithSupport>,
    pub seen: Vec<bool>,
    pub ghost width: { length seen.items ≡ columns },
}
