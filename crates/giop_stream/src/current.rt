//! The current message, which is the one that is being read, at one of its octets.

ghost use Rattle.std.specs.Prelude.{◌≡◌, ◌+◌, ◌^◌, ◌<◌, ◌≤◌};

/// The current message, at an octet of its payload or at the last octet of its header.
#[derive(Clone, Copy, Debug)]
pub struct Current {
    pub number: u64,
    pub header: [u8; 12],
    /// The octet's number in the stream, from 1.
    pub place: u64,
    /// How many octets of the payload were read, with this one.
    pub payload_count: u32,
    ghost after_header: { 12 ≤ place },
}

impl Current {
    ghost use Rattle.giop_stream.specs.Further.{current_after};

    /// The same message after n octets more of its payload.
    pub fn after_octets(mut self, n: usize) -> Current
        requires { self.place + n < 2 ^ 64 }
        ensures { result ≡ current_after self n }
    {
        let count = u32::try_from(n).unwrap_or(u32::MAX);
        self.place += n as u64;
        self.payload_count = self.payload_count.saturating_add(count);
        self
    }
}
