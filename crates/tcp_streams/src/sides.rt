//! The two flows of a connection, and the ids that they have while the connection is known.

ghost use Rattle.std.specs.Prelude.{◌≡◌, ◌≤◌, ◌+◌, ◌*◌, ◌<◌, ◌^◌};
ghost use Rattle.tcp_streams.specs.Pairs.{pair_of as spec_pair_of, flow_id as spec_flow_id, opposite, flow_from as spec_flow_from};

use crate::pair::{EndpointPair, Side};
use std::cmp::Ordering;
use tcp_segment::Flow;

/// The endpoints of a flow, the lesser first, and which of them sends.
pub fn pair_of(flow: Flow) -> (EndpointPair, Side)
    ensures { result ≡ spec_pair_of flow }
{
    match flow.from.cmp(&flow.to) {
        Ordering::Greater => (
            EndpointPair {
                lesser: flow.to,
                greater: flow.from,
            },
            Side::FromGreater,
        ),
        Ordering::Less | Ordering::Equal => (
            EndpointPair {
                lesser: flow.from,
                greater: flow.to,
            },
            Side::FromLesser,
        ),
    }
}

/// The id of a flow: twice the slot of its connection, and 1 more if the greater endpoint sends.
pub fn flow_id(slot: u32, side: Side) -> u32
    requires { slot < 2 ^ 31 }
    ensures id { result ≡ spec_flow_id slot side }
    ensures bound { result ≤ 2 * slot + 1 }
{
    match side {
        Side::FromLesser => 2 * slot,
        Side::FromGreater => 2 * slot + 1,
    }
}

/// The side of the other flow of a connection.
pub fn opposite_side(side: Side) -> Side
    ensures { result ≡ opposite side }
{
    match side {
        Side::FromLesser => Side::FromGreater,
        Side::FromGreater => Side::FromLesser,
    }
}

/// The flow between the endpoints of a pair, if this side sends.
pub fn flow_from(pair: EndpointPair, side: Side) -> Flow
    ensures { result ≡ spec_flow_from pair side }
{
    match side {
        Side::FromLesser => Flow {
            from: pair.lesser,
            to: pair.greater,
        },
        Side::FromGreater => Flow {
            from: pair.greater,
            to: pair.lesser,
        },
    }
}
