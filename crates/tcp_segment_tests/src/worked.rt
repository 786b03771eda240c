//! Packets and endpoints worked by hand: their segments and texts hold by computation.

ghost use Rattle.tcp_segment_tests.specs.Worked.{Tagged, Extended, Fragment, ToItself, OfIpv4, OfIpv6, OfEqualRuns, OfMapped};

/// The segments of these packets, by the definition. The function has no body; it is called for its
/// contract.
pub fn worked_segments()
    ensures ipv4 { Tagged }
    ensures ipv6 { Extended }
    ensures none { Fragment }
    ensures same { ToItself }
{}

/// The texts of these endpoints, by the definition. The function has no body; it is called for its
/// contract.
pub fn worked_texts()
    ensures ipv4 { OfIpv4 }
    ensures ipv6 { OfIpv6 }
    ensures first { OfEqualRuns }
    ensures of_mapped { OfMapped }
{}
