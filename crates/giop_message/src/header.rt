//! The fields of a message header by which the message is read (GIOP Message Formats, GIOP Message Header).

ghost use Rattle.std.specs.Prelude.{◌≡◌, length};
ghost use Rattle.giop_message.specs.Headers.{minor, kind, order};

use giop_cdr::Order;

/// The byte order of a message's numbers.
#[tactic(auto, unfolding(crate::specs::Headers::order))]
pub fn order_of(header: &[u8]) -> Order
    requires { length header.now ≡ 12 }
    ensures { result ≡ order header.now }
{
    if header[6] % 2 == 1 {
        Order::Little
    } else {
        Order::Big
    }
}

/// The minor version.
#[tactic(auto, unfolding(crate::specs::Headers::minor))]
pub fn minor_of(header: &[u8]) -> u8
    requires { length header.now ≡ 12 }
    ensures { result ≡ minor header.now }
{
    header[5]
}

/// The message type.
#[tactic(auto, unfolding(crate::specs::Headers::kind))]
pub fn kind_of(header: &[u8]) -> u8
    requires { length header.now ≡ 12 }
    ensures { result ≡ kind header.now }
{
    header[7]
}
