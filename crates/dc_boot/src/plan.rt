use dc_base::commands::Order;
use dc_base::numbers::CoreNo;

/// The orders of a command, one or two, each with the core that carries it out.
#[derive(Clone, Copy, Debug, PartialEq, Eq)]
pub struct Plan {
    pub first: (CoreNo, Order),
    pub second: Option<(CoreNo, Order)>,
}
