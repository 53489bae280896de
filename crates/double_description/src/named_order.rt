//! Orders that determine the next row.

ghost use Rattle.std.specs.Prelude.{◌≢◌};
ghost use Rattle.cone_definitions.specs.declared.Order.TheVariants.{Free};

use cone_definitions::Order;

/// An order of rows that determines which one comes next. Invariant: `rule` is not `Free`.
#[derive(Clone, Copy)]
pub struct NamedOrder {
    pub rule: Order,
    pub ghost named: { rule ≢ Free },
}

impl NamedOrder {
    /// By row number.
    pub const GIVEN: NamedOrder = NamedOrder { rule: Order::Given };

    /// Rows with fewest coefficients first.
    pub const SHORT: NamedOrder = NamedOrder { rule: Order::Short };

    /// Rows with most leading zeros first.
    pub const ZEROS: NamedOrder = NamedOrder { rule: Order::Zeros };
}
