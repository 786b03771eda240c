//! What the correspondent of a stream is told when the header of a message ends, and when the name
//! of an exception ends that a Reply raises.

ghost use Rattle.std.specs.Prelude.{◌≡◌, ◌<◌, length, true, false, None};
ghost use Rattle.std.specs.Option.{option_map};
ghost use Rattle.giop_sig.specs.Table.{Table};
ghost use Rattle.giop_decode.specs.ReadResult.{Read};
ghost use Rattle.giop_print.specs.declared.path.Root.{Root as PathRoot};
ghost use Rattle.giop_decode.specs.Noted.{noted_of, is_header_root};
ghost use Rattle.giop_decode.specs.DecoderState.{KeepsNoted};
ghost use Rattle.giop_message.specs.Messages.{root_of};
ghost use Rattle.giop_message.specs.MessageState.{AreKnown, is_header};
ghost use Rattle.giop_message.specs.HeaderEnds.{IsKnownOperation, after_event, header_event, operation_of, expects_reply, shown_name, request_event, reply_event, raise_event};
ghost use Rattle.giop_message.specs.MessageSteps.{section_event};

use crate::correspondent::Correspondent;
use crate::header::kind_of;
use crate::part::Section;
use crate::word::is_graphic_name;
use giop_decode::Decoder;
use giop_print::Root;
use giop_sig::{Catalogue, OpId};

/// The operation that a Request names, if the section that has ended is its header.
pub fn operation_of(
    catalogue: &Catalogue,
    header: &[u8],
    section: Section,
    decoder: &Decoder,
) -> Option<OpId>
    requires header { length header.now ≡ 12 }
    ensures is { (r : Read) → KeepsNoted catalogue.now (root_of section) decoder.now r →
        is_header section ≡ true →
        result ≡ operation_of catalogue.now header.now (noted_of true r) }
    ensures none { is_header section ≡ false → result ≡ None }
    ensures known { IsKnownOperation catalogue.now result }
{
    match section {
        Section::Header => named_operation(catalogue, header, decoder),
        Section::Exception => None,
        Section::SystemException => None,
        Section::Body => None,
    }
}

/// The operation that a Request names, from the decoder of its header: the operation of the object
/// key's interface, if there is one.
#[tactic(auto, unfolding(crate::specs::HeaderEnds::operation_of))]
fn named_operation(catalogue: &Catalogue, header: &[u8], decoder: &Decoder) -> Option<OpId>
    requires header { length header.now ≡ 12 }
    ensures is { (r : Read) → KeepsNoted catalogue.now Root.Header decoder.now r →
        result ≡ operation_of catalogue.now header.now (noted_of true r) }
    ensures known { IsKnownOperation catalogue.now result }
{
    if kind_of(header) != 0 {
        return None;
    }
    let Some(name) = decoder.name() else {
        return None;
    };
    catalogue.operation_for(name, decoder.interface(catalogue))
}

/// Tells the correspondent of the section of a message that has ended: of a header and the
/// operation that it names, or of the exception that a Reply raises.
pub fn notify_of_section<Q: Correspondent>(
    correspondent: &mut Q,
    number: u64,
    header: &[u8],
    section: Section,
    decoder: &Decoder,
    operation: Option<OpId>,
)
    requires header { length header.now ≡ 12 }
    ensures known { (C : Table) → IsKnownOperation C operation →
        AreKnown C (Q.answer (Q.state correspondent.old)) →
        AreKnown C (Q.answer (Q.state correspondent.new)) }
    ensures told { (C : Table) (r : Read) → KeepsNoted C (root_of section) decoder.now r →
        Q.state correspondent.new ≡ after_event Q.notified (Q.state correspondent.old)
        (section_event section number header.now r operation) }
{
    match section {
        Section::Header => notify_of_header(correspondent, number, header, decoder, operation),
        Section::Exception => notify_of_exception(correspondent, number, decoder),
        Section::SystemException => notify_of_exception(correspondent, number, decoder),
        Section::Body => {}
    }
}

/// Tells the correspondent of a header, depending on the message type.
#[tactic(auto, unfolding(crate::specs::HeaderEnds::header_event))]
fn notify_of_header<Q: Correspondent>(
    correspondent: &mut Q,
    number: u64,
    header: &[u8],
    decoder: &Decoder,
    operation: Option<OpId>,
)
    requires header { length header.now ≡ 12 }
    ensures known { (C : Table) → IsKnownOperation C operation →
        AreKnown C (Q.answer (Q.state correspondent.old)) →
        AreKnown C (Q.answer (Q.state correspondent.new)) }
    ensures told { (C : Table) (r : Read) → KeepsNoted C Root.Header decoder.now r →
        Q.state correspondent.new ≡ after_event Q.notified (Q.state correspondent.old)
        (header_event number header.now (noted_of true r) operation) }
{
    if kind_of(header) == 0 {
        notify_of_request(correspondent, number, decoder, operation);
        return;
    }
    if kind_of(header) == 1 {
        notify_of_reply(correspondent, number, decoder);
    }
}

/// Whether a Request expects a reply. If this wasn't read, it does.
fn expects_reply(decoder: &Decoder) -> bool
    ensures { (C : Table) (r : Read) → KeepsNoted C Root.Header decoder.now r →
        result ≡ expects_reply (noted_of true r).expects_reply }
{
    match decoder.expects_reply() {
        Some(expects_reply) => expects_reply,
        None => true,
    }
}

/// Tells the correspondent of a Request: its id, its name, its operation, and whether it expects a
/// reply.
fn notify_of_request<Q: Correspondent>(
    correspondent: &mut Q,
    number: u64,
    decoder: &Decoder,
    operation: Option<OpId>,
)
    ensures known { (C : Table) → IsKnownOperation C operation →
        AreKnown C (Q.answer (Q.state correspondent.old)) →
        AreKnown C (Q.answer (Q.state correspondent.new)) }
    ensures told { (C : Table) (r : Read) → KeepsNoted C Root.Header decoder.now r →
        Q.state correspondent.new ≡ after_event Q.notified (Q.state correspondent.old)
        (request_event number (noted_of true r).request_id (noted_of true r).name operation
        (noted_of true r).expects_reply) }
{
    let Some(id) = decoder.request_id() else {
        return;
    };
    let expects_reply = expects_reply(decoder);
    correspondent.on_call(
        number,
        id,
        shown_name(decoder.name()),
        operation,
        expects_reply,
    );
}

/// Tells the correspondent of a Reply: the id that it answers.
fn notify_of_reply<Q: Correspondent>(correspondent: &mut Q, number: u64, decoder: &Decoder)
    ensures known { (C : Table) → AreKnown C (Q.answer (Q.state correspondent.old)) →
        AreKnown C (Q.answer (Q.state correspondent.new)) }
    ensures told { (C : Table) (r : Read) → KeepsNoted C Root.Header decoder.now r →
        Q.state correspondent.new ≡ after_event Q.notified (Q.state correspondent.old)
        (reply_event number (noted_of true r).request_id) }
{
    if let Some(id) = decoder.request_id() {
        correspondent.on_answer(number, id);
    }
}

/// Tells the correspondent of the exception that a Reply raises: its name, which is the last string
/// that the decoder has read, if a call line could show it.
fn notify_of_exception<Q: Correspondent>(correspondent: &mut Q, number: u64, decoder: &Decoder)
    ensures known { (C : Table) → AreKnown C (Q.answer (Q.state correspondent.old)) →
        AreKnown C (Q.answer (Q.state correspondent.new)) }
    ensures told { (C : Table) (root : PathRoot) (r : Read) → KeepsNoted C root decoder.now r →
        Q.state correspondent.new ≡ after_event Q.notified (Q.state correspondent.old)
        (raise_event number (noted_of (is_header_root root) r).name) }
{
    if let Some(name) = shown_name(decoder.name()) {
        correspondent.on_exception(number, name);
    }
}

/// The name, if a call line can show it.
fn shown_name(name: Option<&[u8]>) -> Option<&[u8]>
    ensures { option_map (λ x. x.now) result ≡ shown_name (option_map (λ x. x.now) name.entry) }
{
    let Some(name) = name else {
        return None;
    };
    if is_graphic_name(name) {
        return Some(name);
    }
    None
}
