//! Writes the lines of framing: the starts of messages, their framing faults, and stream faults (docs/FORMATS.md, Lines).

ghost use Rattle.std.specs.Prelude.{◌≡◌, length};
ghost use Rattle.giop_print.specs.Output.{Writes};
ghost use Rattle.giop_print.specs.Lines.{fault_line};
ghost use Rattle.giop_stream.specs.Text.{stream_word, start_line, stop_text, truncated_line, framing_fault_word};

use crate::fault::{FramingFault, StreamFault};
use crate::header::{has_more, size_of};
use giop_message::{kind_of, minor_of, order_of};
use giop_print::{MessageHeader, Out, OutFault};

/// The word of a stream fault.
fn stream_word(fault: StreamFault) -> &'static str
    ensures { result.now ≡ stream_word fault }
{
    match fault {
        StreamFault::Magic => "magic",
        StreamFault::Version => "version",
        StreamFault::ByteOrder => "byte-order",
        StreamFault::StreamLimit => "stream-limit",
    }
}

/// Writes the start line of a message.
#[tactic(auto, unfolding(crate::specs::Text::start_line))]
#[inline(always)]
pub fn start_line<O: Out>(out: &mut O, number: u64, header: &[u8]) -> Result<(), OutFault>
    requires { length header.now ≡ 12 }
    ensures { Writes result (O.log out.old) (O.log out.new) (start_line number header.now) }
{
    let header = MessageHeader {
        minor: minor_of(header),
        order: order_of(header),
        kind: kind_of(header),
        size: size_of(header),
        more: has_more(header),
    };
    giop_print::start_line(out, number, header)
}

/// The word of a fault that framing gives to a message.
fn framing_fault_word(fault: FramingFault) -> &'static str
    ensures { result.now ≡ framing_fault_word fault }
{
    match fault {
        FramingFault::MessageType => "message-type",
        FramingFault::OldFragment => "fragment-1.1",
        FramingFault::Short => "short",
        FramingFault::NoOpen => "no-open",
        FramingFault::IdOpen => "id-open",
        FramingFault::TooManyOpen => "too-many-open",
        FramingFault::FragmentOrder => "fragment-order",
    }
}

/// Writes the line of a message's framing fault, at a place.
pub fn framing_fault_line<O: Out>(
    out: &mut O,
    number: u64,
    fault: FramingFault,
    place: u64,
) -> Result<(), OutFault>
    ensures { Writes result (O.log out.old) (O.log out.new)
        (fault_line number (framing_fault_word fault) place) }
{
    giop_print::fault_line(out, number, framing_fault_word(fault), place)
}

/// Writes the line of a stream fault, at a place.
pub fn stream_fault_line<O: Out>(
    out: &mut O,
    fault: StreamFault,
    place: u64,
) -> Result<(), OutFault>
    ensures { Writes result (O.log out.old) (O.log out.new) (stop_text fault place) }
{
    giop_print::stream_fault_line(out, stream_word(fault), place)
}

/// Writes the line of a stream that ends inside a message or a header.
pub fn truncated_line<O: Out>(out: &mut O, place: u64) -> Result<(), OutFault>
    ensures { Writes result (O.log out.old) (O.log out.new) (truncated_line place) }
{
    giop_print::stream_fault_line(out, "truncated", place)
}
