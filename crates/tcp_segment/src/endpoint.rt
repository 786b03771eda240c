//! Endpoints and flows: who sends, and to whom.

ghost use Rattle.std.specs.Prelude.{◌≡◌};

/// The address of a host: its octets in the order of the wire (RFC 791, RFC 8200). IPv4 orders before IPv6.
#[derive(Clone, Copy, Debug, PartialEq, Eq, PartialOrd, Ord, Hash)]
pub enum Address {
    V4([u8; 4]),
    V6([u8; 16]),
}

/// A host and one of its ports. Endpoints order by address, then by port.
#[derive(Clone, Copy, Debug, PartialEq, Eq, PartialOrd, Ord, Hash)]
pub struct Endpoint {
    pub address: Address,
    pub port: u16,
}

/// One direction of a connection: who sends, and to whom.
#[derive(Clone, Copy, Debug, PartialEq, Eq, PartialOrd, Ord, Hash)]
pub struct Flow {
    pub from: Endpoint,
    pub to: Endpoint,
}

impl Flow {
    /// The other direction of the same connection.
    pub fn opposite(&self) -> Flow
        ensures { result ≡ record { from = self.now.to; to = self.now.from } }
    {
        Flow {
            from: self.to,
            to: self.from,
        }
    }
}
