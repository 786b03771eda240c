//! Endpoints, as rows have them: `10.0.0.1:2809`, `[2001:db8::1]:2809`.

use std::net::{IpAddr, Ipv4Addr, Ipv6Addr, SocketAddr};
use tcp_segment::{Address, Endpoint};

/// Parses an endpoint.
pub fn endpoint_of(text: &str) -> Option<Endpoint> {
    let parsed = text.parse::<SocketAddr>().ok()?;
    let address = match parsed.ip() {
        IpAddr::V4(address) => Address::V4(address.octets()),
        IpAddr::V6(address) => Address::V6(address.octets()),
    };
    Some(Endpoint {
        address,
        port: parsed.port(),
    })
}

/// An endpoint, to be printed.
pub fn shown(endpoint: Endpoint) -> SocketAddr {
    let address = match endpoint.address {
        Address::V4(octets) => IpAddr::V4(Ipv4Addr::from_octets(octets)),
        Address::V6(octets) => IpAddr::V6(Ipv6Addr::from_octets(octets)),
    };
    SocketAddr::new(address, endpoint.port)
}
