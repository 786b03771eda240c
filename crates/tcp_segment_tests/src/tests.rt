//! Each row of the tables, the other direction of a flow, and the order of endpoints.

use crate::endpoint_rows::ENDPOINTS;
use crate::segment_rows::SEGMENTS;
use crate::spelled::{endpoint_row, is_segment_row};
use tcp_segment::{Address, Endpoint, Flow, endpoint_text};

#[test]
fn a_packet_has_the_segment_of_its_row(rt: HostRuntime) {
    for row in SEGMENTS.split('\n') {
        assert!(rt; is_segment_row(row) == Some(true), "{row}");
    }
}

/// Whether the endpoint of a row has the text of the row.
fn is_endpoint_row(row: &str) -> bool {
    match endpoint_row(row) {
        Some((endpoint, wanted)) => endpoint_text(endpoint).as_slice() == wanted.as_bytes(),
        None => false,
    }
}

#[test]
fn an_endpoint_has_the_text_of_its_row(rt: HostRuntime) {
    for row in ENDPOINTS.split('\n') {
        assert!(rt; is_endpoint_row(row), "{row}");
    }
}

fn endpoint(address: Address, port: u16) -> Endpoint {
    Endpoint { address, port }
}

#[test]
fn the_opposite_flow_goes_back(rt: HostRuntime) {
    let from = endpoint(Address::V4([192, 0, 2, 1]), 1000);
    let to = endpoint(Address::V4([198, 51, 100, 7]), 2809);
    let flow = Flow { from, to };
    assert_eq!(rt; flow.opposite(), Flow { from: to, to: from });
    assert_eq!(rt; flow.opposite().opposite(), flow);
}

#[test]
fn endpoints_order_by_address_and_then_by_port(rt: HostRuntime) {
    let in_order = [
        endpoint(Address::V4([9, 255, 255, 255]), 2),
        endpoint(Address::V4([10, 0, 0, 0]), 1),
        endpoint(Address::V4([10, 0, 0, 0]), 2),
        endpoint(Address::V4([10, 0, 0, 1]), 1),
        endpoint(Address::V6([0; 16]), 0),
        endpoint(Address::V6([1; 16]), 0),
    ];
    for pair in in_order.windows(2) {
        assert!(rt; pair[0] < pair[1]);
    }
}
