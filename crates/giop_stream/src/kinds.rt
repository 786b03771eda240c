//! The kind of message that a header begins, and what a header alone is faulted for (GIOP Message Formats, Fragment
//! Message).

ghost use Rattle.std.specs.Prelude.{◌≡◌, length};
ghost use Rattle.giop_message.specs.Headers.{may_be_fragmented, is_opener_1_2, is_fragment_1_2, is_cancel_request};
ghost use Rattle.giop_stream.specs.Kinds.{is_opener_1_1, is_fragment_1_1, is_fragmented_1_1, is_any_fragment, may_be_cancelled, header_fault, is_too_short_for_id, is_continued};
ghost use Rattle.giop_stream.specs.Events.{same_order};

use crate::fault::FramingFault;
use crate::header::{has_more, size_of};
use giop_cdr::Order;
use giop_message::{kind_of, minor_of};

/// Whether messages of this type may have fragments.
#[tactic(auto, unfolding(giop_message::specs::Headers::may_be_fragmented))]
pub fn may_be_fragmented(header: &[u8]) -> bool
    requires { length header.now ≡ 12 }
    ensures { result ≡ may_be_fragmented header.now }
{
    let kind = kind_of(header);
    kind == 0 || kind == 1 || kind == 3 || kind == 4
}

/// Whether Fragments of GIOP 1.2 follow a message.
#[tactic(auto, unfolding(giop_message::specs::Headers::is_opener_1_2))]
pub fn is_opener_1_2(header: &[u8]) -> bool
    requires { length header.now ≡ 12 }
    ensures { result ≡ is_opener_1_2 header.now }
{
    minor_of(header) == 2 && has_more(header) && may_be_fragmented(header)
}

/// Whether a message is a Fragment of GIOP 1.2.
#[tactic(auto, unfolding(giop_message::specs::Headers::is_fragment_1_2))]
pub fn is_fragment_1_2(header: &[u8]) -> bool
    requires { length header.now ≡ 12 }
    ensures { result ≡ is_fragment_1_2 header.now }
{
    minor_of(header) == 2 && kind_of(header) == 7
}

/// Whether Fragments of GIOP 1.1 follow a message.
#[tactic(auto, unfolding(crate::specs::Kinds::is_opener_1_1))]
pub fn is_opener_1_1(header: &[u8]) -> bool
    requires { length header.now ≡ 12 }
    ensures { result ≡ is_opener_1_1 header.now }
{
    minor_of(header) == 1 && has_more(header) && kind_of(header) < 2
}

/// Whether a message is a Fragment of GIOP 1.1.
#[tactic(auto, unfolding(crate::specs::Kinds::is_fragment_1_1))]
pub fn is_fragment_1_1(header: &[u8]) -> bool
    requires { length header.now ≡ 12 }
    ensures { result ≡ is_fragment_1_1 header.now }
{
    minor_of(header) == 1 && kind_of(header) == 7
}

/// Whether a message of GIOP 1.1 is fragmented: a Request or a Reply that Fragments continue, or a Fragment. It has
/// no request id in front, so it is looked for among the open messages when its header ends.
#[tactic(auto, unfolding(crate::specs::Kinds::is_fragmented_1_1))]
pub fn is_fragmented_1_1(header: &[u8]) -> bool
    requires { length header.now ≡ 12 }
    ensures { result ≡ is_fragmented_1_1 header.now }
{
    is_opener_1_1(header) || is_fragment_1_1(header)
}

/// Whether a message is a Fragment.
#[tactic(auto, unfolding(crate::specs::Kinds::is_any_fragment))]
pub fn is_any_fragment(header: &[u8]) -> bool
    requires { length header.now ≡ 12 }
    ensures { result ≡ is_any_fragment header.now }
{
    is_fragment_1_2(header) || is_fragment_1_1(header)
}

/// Whether a message is a CancelRequest.
#[tactic(auto, unfolding(giop_message::specs::Headers::is_cancel_request))]
pub fn is_cancel_request(header: &[u8]) -> bool
    requires { length header.now ≡ 12 }
    ensures { result ≡ is_cancel_request header.now }
{
    kind_of(header) == 2
}

/// Whether a Fragment, or a message with fragments, is too short for its request id.
#[tactic(auto, unfolding(crate::specs::Kinds::is_too_short_for_id))]
pub fn is_too_short_for_id(header: &[u8]) -> bool
    requires { length header.now ≡ 12 }
    ensures { result ≡ is_too_short_for_id header.now }
{
    size_of(header) < 4 && (is_opener_1_2(header) || is_fragment_1_2(header))
}

/// Whether Fragments of the same joined message follow.
#[tactic(auto, unfolding(crate::specs::Kinds::is_continued, crate::specs::Kinds::has_fragments))]
pub fn is_continued(header: &[u8]) -> bool
    requires { length header.now ≡ 12 }
    ensures { result ≡ is_continued header.now }
{
    is_opener_1_2(header) || is_opener_1_1(header) || (is_any_fragment(header) && has_more(header))
}

/// Whether a CancelRequest may close a message.
#[tactic(auto, unfolding(crate::specs::Kinds::may_be_cancelled))]
pub fn may_be_cancelled(header: &[u8]) -> bool
    requires { length header.now ≡ 12 }
    ensures { result ≡ may_be_cancelled header.now }
{
    kind_of(header) == 0 || kind_of(header) == 3
}

/// The fault that a message has by its header alone, if it has one.
#[tactic(auto, unfolding(crate::specs::Kinds::header_fault))]
pub fn header_fault(header: &[u8]) -> Option<FramingFault>
    requires { length header.now ≡ 12 }
    ensures { result ≡ header_fault header.now }
{
    let (minor, kind) = (minor_of(header), kind_of(header));
    if 7 < kind || (kind == 7 && minor == 0) {
        Some(FramingFault::MessageType)
    } else if minor == 1 && has_more(header) && (kind == 3 || kind == 4) {
        Some(FramingFault::OldFragment)
    } else {
        None
    }
}

/// Whether two byte orders are the same.
pub fn same_order(a: Order, b: Order) -> bool
    ensures { result ≡ same_order a b }
{
    match (a, b) {
        (Order::Big, Order::Big) | (Order::Little, Order::Little) => true,
        _ => false,
    }
}
