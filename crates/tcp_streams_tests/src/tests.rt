//! A pair and its flows, and streams in the order in which they began.

use crate::silent::Silent;
use tcp_flow::{CloseCause, Listener, Start};
use tcp_segment::{Address, Endpoint, Flow};
use tcp_streams::{Side, Streams, flow_from, flow_id, opposite_side, pair_of};

/// Endpoints, the lesser first.
const IN_ORDER: [(Address, u16, Address, u16); 4] = [
    (
        Address::V4([10, 0, 0, 1]),
        1000,
        Address::V4([10, 0, 0, 2]),
        2809,
    ),
    (
        Address::V4([10, 0, 0, 1]),
        1000,
        Address::V4([10, 0, 0, 1]),
        2809,
    ),
    (Address::V4([255, 0, 0, 1]), 9, Address::V6([0; 16]), 1),
    (Address::V6([0; 16]), 65535, Address::V6([1; 16]), 0),
];

#[test]
fn a_pair_is_the_same_whoever_sends(rt: HostRuntime) {
    for (address, port, greater, greater_port) in IN_ORDER {
        let from = Endpoint { address, port };
        let to = Endpoint {
            address: greater,
            port: greater_port,
        };
        let flow = Flow { from, to };
        let (pair, side) = pair_of(flow);
        let (same, opposite) = pair_of(flow.opposite());
        assert_eq!(rt; pair, same, "port {port}");
        assert_eq!(rt; pair.lesser, from, "port {port}");
        assert_eq!(rt; side, Side::FromLesser, "port {port}");
        assert_eq!(rt; opposite, opposite_side(side), "port {port}");
        assert_eq!(rt; flow_from(pair, side), flow, "port {port}");
        assert_eq!(rt; flow_from(pair, opposite), flow.opposite(), "port {port}");
    }
}

#[test]
fn the_flows_of_a_slot_have_ids_side_by_side(rt: HostRuntime) {
    for (slot, lesser, greater) in [(0, 0, 1), (7, 14, 15), (65_535, 131_070, 131_071)] {
        assert_eq!(rt; flow_id(slot, Side::FromLesser), lesser, "room {slot}");
        assert_eq!(rt; flow_id(slot, Side::FromGreater), greater, "room {slot}");
    }
}

#[test]
fn streams_stand_in_the_order_of_their_beginnings(rt: HostRuntime) {
    // There are stamps for all flows, for two of them, and for none.
    for connections in [3, 1, 0] {
        let Ok(mut streams) = Streams::new(rt.alloc(), connections, Silent) else {
            return;
        };
        let start = Start {
            number: 1,
            passed: 0,
            is_found: false,
        };
        for flow in [5, 0, 2] {
            assert!(rt; streams.on_begin(flow, start).is_ok(), "flow {flow}");
        }
        assert!(rt; streams.on_close(0, CloseCause::Fin).is_ok());
        assert!(rt; streams.on_begin(0, start).is_ok());
        assert!(rt; streams.on_octets(0, b"GIOP").is_ok());
        // The flow of a stream that a gap closes keeps its place.
        assert!(rt; streams.on_close(5, CloseCause::Gap).is_ok());
        assert_eq!(rt; streams.message_lacks(5), Ok(None));
        streams.on_looked_through(b"MUCH");
        for packed in [false, true] {
            if packed {
                streams.pack();
            }
            assert_eq!(rt; streams.len(), 3);
            assert_eq!(rt; streams.last(), Some(0));
            for (rank, flow) in [(0, Some(5)), (1, Some(2)), (2, Some(0)), (3, None)] {
                assert_eq!(rt; streams.live(rank), flow, "rank {rank}");
            }
        }
        assert_eq!(rt; streams.elder_side(2), Side::FromGreater);
        assert_eq!(rt; streams.elder_side(1), Side::FromLesser);
        // Those that stand last go, one by one.
        for (flow, last) in [(2, Some(0)), (0, Some(5)), (5, None)] {
            assert!(rt; streams.on_close(flow, CloseCause::Fin).is_ok());
            assert_eq!(rt; streams.last(), last, "flow {flow}");
        }
        assert_eq!(rt; streams.len(), 0);
    }
}

#[test]
fn streams_begin_as_often_as_they_may(rt: HostRuntime) {
    let Ok(mut streams) = Streams::new(rt.alloc(), 2, Silent) else {
        return;
    };
    let start = Start {
        number: 1,
        passed: 0,
        is_found: false,
    };
    for turn in 0..300_000u32 {
        assert!(rt; streams.on_begin(turn % 3, start).is_ok(), "turn {turn}");
    }
    assert_eq!(rt; streams.len(), 3);
    for (rank, flow) in [(0, Some(0)), (1, Some(1)), (2, Some(2)), (3, None)] {
        assert_eq!(rt; streams.live(rank), flow, "rank {rank}");
    }
}
