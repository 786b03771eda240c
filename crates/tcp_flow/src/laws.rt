//! Laws about what a flow delivers.

ghost use Rattle.tcp_flow.specs.Order.{OrderMakesNoDifference};

/// If payloads agree on their octets, then the same is delivered in any two orders in which no
/// stream closes. This function has no body and is called for its contract.
pub fn order_makes_no_difference()
    ensures { OrderMakesNoDifference }
{}
