//! Which type a body has (GIOP Message Formats, Request Body, Reply Body).

ghost use Rattle.std.specs.Prelude.{◌≡◌, ◌<◌, length, nat_le, true};
ghost use Rattle.std.specs.Option.{option_map, option_and_then};
ghost use Rattle.giop_sig.specs.Table.{in_version};
ghost use Rattle.giop_sig.specs.HeaderTypes.{fixed_type};
ghost use Rattle.giop_sig.specs.Trees.{tree};
ghost use Rattle.giop_message.specs.Headers.{minor};
ghost use Rattle.giop_message.specs.Phases.{Phase};
ghost use Rattle.giop_message.specs.Signatures.{Answer, body_tree, request_type, signatures_of};
ghost use Rattle.giop_decode.specs.ReadResult.{Read};
ghost use Rattle.giop_decode.specs.Noted.{noted_of, is_header_root};
ghost use Rattle.giop_decode.specs.DecoderState.{KeepsNoted};
ghost use Rattle.giop_message.specs.Messages.{Typed, root_of, body_may_be_missing, members_of, typed_if_some, result_body, reply_body, locate_body};
ghost use Rattle.giop_message.specs.MessageState.{AreKnown, IsKnown, body_type, is_header};
ghost use Rattle.giop_message.specs.HeaderEnds.{IsKnownOperation, operation_of};
ghost use Rattle.giop_message.specs.MessageSteps.{body_type_after};

use crate::correspondent::Correspondent;
use crate::header::{kind_of, minor_of};
use crate::part::Section;
use giop_decode::Decoder;
use giop_print::Root;
use giop_sig::{Catalogue, Fixed, OpId, SeenCatalogue, Shape, TypeId};

/// The type of a body: none, this type, the type of the exception whose repository id comes first,
/// or the type of a system exception.
#[derive(Clone, Copy)]
pub enum BodyTypeId {
    Nothing,
    Type(TypeId),
    Exception,
    SystemException,
}

/// The type of what follows a section, from what its decoder has noted.
pub fn body_type_after<Q: Correspondent>(
    catalogue: &Catalogue,
    correspondent: &Q,
    header: &[u8],
    section: Section,
    decoder: &Decoder,
    operation: Option<OpId>,
) -> BodyTypeId
    requires header { length header.now ≡ 12 }
    requires of { AreKnown catalogue.now (Q.answer (Q.state correspondent.now)) }
    requires operation { IsKnownOperation catalogue.now operation }
    ensures is { (phase : Phase) (r : Read) →
        KeepsNoted catalogue.now (root_of section) decoder.now r →
        (is_header section ≡ true → operation
        ≡ operation_of catalogue.now header.now (noted_of true r)) →
        body_type (in_version (minor header.now) catalogue.now) result ≡ body_type_after
        (signatures_of catalogue.now (Q.answer (Q.state correspondent.now)) phase)
        header.now section (noted_of (is_header_root (root_of section)) r) }
    ensures known { IsKnown catalogue.now result }
{
    match section {
        Section::Header => header_body(catalogue, correspondent, header, decoder, operation),
        Section::Exception => members_body(catalogue, header, decoder.name()),
        Section::SystemException => BodyTypeId::Nothing,
        Section::Body => BodyTypeId::Nothing,
    }
}

/// The type of a message's body, from the message type and from what the decoder of its header has
/// noted.
fn header_body<Q: Correspondent>(
    catalogue: &Catalogue,
    correspondent: &Q,
    header: &[u8],
    decoder: &Decoder,
    operation: Option<OpId>,
) -> BodyTypeId
    requires header { length header.now ≡ 12 }
    requires of { AreKnown catalogue.now (Q.answer (Q.state correspondent.now)) }
    requires operation { IsKnownOperation catalogue.now operation }
    ensures is { (phase : Phase) (r : Read) → KeepsNoted catalogue.now Root.Header decoder.now r →
        operation ≡ operation_of catalogue.now header.now (noted_of true r) →
        body_type (in_version (minor header.now) catalogue.now) result ≡ body_type_after
        (signatures_of catalogue.now (Q.answer (Q.state correspondent.now)) phase)
        header.now Section.Header (noted_of true r) }
    ensures known { IsKnown catalogue.now result }
{
    if kind_of(header) == 0 {
        return request_body(catalogue, header, operation);
    }
    if kind_of(header) == 1 {
        return reply_body(
            catalogue,
            correspondent,
            header,
            decoder.request_id(),
            decoder.status(),
        );
    }
    if kind_of(header) == 4 {
        return locate_body(catalogue, header, decoder.status());
    }
    BodyTypeId::Nothing
}

/// The type of an exception's members, from its repository id.
#[tactic(auto, unfolding(crate::specs::Messages::members_of, crate::specs::Messages::typed_if_some, crate::specs::Signatures::signatures_of))]
fn members_body(catalogue: &Catalogue, header: &[u8], repository: Option<&[u8]>) -> BodyTypeId
    requires { length header.now ≡ 12 }
    ensures is { (answer : Answer) (phase : Phase) →
        body_type (in_version (minor header.now) catalogue.now) result ≡ typed_if_some (members_of
        (signatures_of catalogue.now answer phase) header.now
        (option_map (λ x. x.now) repository.entry)) }
    ensures known { IsKnown catalogue.now result }
{
    let Some(repository) = repository else {
        return BodyTypeId::Nothing;
    };
    match catalogue.exception(repository) {
        Some(of) => body_unless_wide(catalogue, header, of),
        None => BodyTypeId::Nothing,
    }
}

/// The type of a Request's body, from its operation.
#[tactic(auto, unfolding(crate::specs::Messages::typed_if_some))]
fn request_body(catalogue: &Catalogue, header: &[u8], operation: Option<OpId>) -> BodyTypeId
    requires header { length header.now ≡ 12 }
    requires operation { IsKnownOperation catalogue.now operation }
    ensures is { body_type (in_version (minor header.now) catalogue.now) result ≡ typed_if_some
        (option_and_then (request_type (in_version (minor header.now) catalogue.now)) operation) }
    ensures known { IsKnown catalogue.now result }
{
    match operation {
        Some(operation) => body_unless_wide(catalogue, header, catalogue.request_of(operation)),
        None => BodyTypeId::Nothing,
    }
}

/// The type of a Reply's results, from its request id.
#[tactic(auto, unfolding(crate::specs::Messages::result_body, crate::specs::Messages::typed_if_some, crate::specs::Signatures::signatures_of))]
fn result_body<Q: Correspondent>(
    catalogue: &Catalogue,
    correspondent: &Q,
    header: &[u8],
    id: Option<u32>,
) -> BodyTypeId
    requires header { length header.now ≡ 12 }
    requires of { AreKnown catalogue.now (Q.answer (Q.state correspondent.now)) }
    ensures is { (phase : Phase) →
        body_type (in_version (minor header.now) catalogue.now) result ≡ result_body
        (signatures_of catalogue.now (Q.answer (Q.state correspondent.now)) phase) header.now id }
    ensures known { IsKnown catalogue.now result }
{
    let Some(id) = id else {
        return BodyTypeId::Nothing;
    };
    match correspondent.operation(id) {
        Some(operation) => body_unless_wide(catalogue, header, catalogue.reply_of(operation)),
        None => BodyTypeId::Nothing,
    }
}

/// The type of a Reply's body, from its status and its request id.
#[tactic(auto, unfolding(crate::specs::Messages::reply_body, crate::specs::Signatures::signatures_of))]
fn reply_body<Q: Correspondent>(
    catalogue: &Catalogue,
    correspondent: &Q,
    header: &[u8],
    id: Option<u32>,
    status: Option<u32>,
) -> BodyTypeId
    requires header { length header.now ≡ 12 }
    requires of { AreKnown catalogue.now (Q.answer (Q.state correspondent.now)) }
    ensures is { (phase : Phase) →
        body_type (in_version (minor header.now) catalogue.now) result ≡ reply_body
        (signatures_of catalogue.now (Q.answer (Q.state correspondent.now)) phase)
        header.now id status }
    ensures known { IsKnown catalogue.now result }
{
    let Some(status) = status else {
        return BodyTypeId::Nothing;
    };
    match status {
        0 => result_body(catalogue, correspondent, header, id),
        1 => BodyTypeId::Exception,
        2 => BodyTypeId::SystemException,
        3 | 4 => fixed_body(catalogue, header, Fixed::Forward),
        5 => fixed_body(catalogue, header, Fixed::Addressing),
        _ => BodyTypeId::Nothing,
    }
}

/// Whether a LocateReply has a typed body. It has one if the version of the signature file is at
/// least 3.
fn has_locate_bodies(catalogue: &Catalogue) -> bool
    ensures { result ≡ nat_le 3 catalogue.now.version }
{
    catalogue.version() >= 3
}

/// The type of a LocateReply's body, from its status. It has none if the status says so, or if the
/// version of the signature file is below 3.
#[tactic(auto, unfolding(crate::specs::Messages::locate_body, crate::specs::Signatures::signatures_of))]
fn locate_body(catalogue: &Catalogue, header: &[u8], status: Option<u32>) -> BodyTypeId
    requires { length header.now ≡ 12 }
    ensures is { (answer : Answer) (phase : Phase) →
        body_type (in_version (minor header.now) catalogue.now) result
        ≡ locate_body (signatures_of catalogue.now answer phase) status }
    ensures known { IsKnown catalogue.now result }
{
    let Some(status) = status else {
        return BodyTypeId::Nothing;
    };
    if !has_locate_bodies(catalogue) {
        return BodyTypeId::Nothing;
    }
    match status {
        2 | 3 => fixed_body(catalogue, header, Fixed::Forward),
        4 => fixed_body(catalogue, header, Fixed::SystemException),
        5 => fixed_body(catalogue, header, Fixed::Addressing),
        _ => BodyTypeId::Nothing,
    }
}

/// The body with this type, or none if the type has wide text and the message is one of 1.0 or 1.1.
fn body_unless_wide(catalogue: &Catalogue, header: &[u8], of: TypeId) -> BodyTypeId
    requires header { length header.now ≡ 12 }
    requires known { of.0 < length catalogue.now.types }
    ensures is { body_type (in_version (minor header.now) catalogue.now) result
        ≡ typed_if_some (body_tree (in_version (minor header.now) catalogue.now) of.0) }
    ensures known { IsKnown catalogue.now result }
{
    if catalogue.is_narrow(minor_of(header)) && catalogue.has_wide_text(of) {
        return BodyTypeId::Nothing;
    }
    BodyTypeId::Type(of)
}

/// The body with a type that no signature file declares.
fn fixed_body(catalogue: &Catalogue, header: &[u8], fixed: Fixed) -> BodyTypeId
    requires { length header.now ≡ 12 }
    ensures is { body_type (in_version (minor header.now) catalogue.now) result
        ≡ Typed (fixed_type catalogue.now.version fixed) }
    ensures known { IsKnown catalogue.now result }
{
    BodyTypeId::Type(catalogue.in_version(minor_of(header)).fixed(fixed))
}

/// Whether a message may end at the place where this body would begin, for the catalogue in the
/// message's version.
pub fn body_may_be_missing(catalogue: &SeenCatalogue<'_>, body_type_id: BodyTypeId) -> bool
    requires { IsKnown catalogue.now body_type_id }
    ensures { result ≡ body_may_be_missing (body_type catalogue.now body_type_id) }
{
    match body_type_id {
        BodyTypeId::Nothing => true,
        BodyTypeId::Type(of) => is_empty_struct(catalogue, of),
        BodyTypeId::Exception => false,
        BodyTypeId::SystemException => false,
    }
}

/// Whether a type is the struct without members.
pub fn is_empty_struct(catalogue: &SeenCatalogue<'_>, of: TypeId) -> bool
    requires { of.0 < length catalogue.now.types }
    ensures { result ≡ body_may_be_missing (Typed (tree catalogue.now of.0)) }
{
    match catalogue.shape(of) {
        Shape::Members(count) => count == 0,
        _ => false,
    }
}
