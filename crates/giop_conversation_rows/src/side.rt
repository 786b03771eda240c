//! One direction of a conversation, which knows the calls of both.

ghost use Rattle.std.specs.Prelude.{◌≡◌, false};
ghost use Rattle.std.specs.Option.{option_map};
ghost use Rattle.giop_conversation_rows.specs.Sides.{SideState, answered_operation, after_event, requested, kept_name};
ghost use Rattle.giop_conversation_rows.specs.SideLaws.{stays_known};

use arrayvec::ArrayVec;
use giop_calls::{Call, Calls};
use giop_message::Correspondent;
use giop_sig::{Catalogue, OpId};
use std::mem::swap;

/// The correspondent of one direction's stream, by the calls of both directions. Requests of the stream are added to its
/// own calls, and Replies take calls of the other direction. No line is ever due.
#[derive(Drop)]
pub struct Side<'a> {
    pub catalogue: &'a Catalogue,
    pub own: Calls,
    pub theirs: Calls,
}

impl Side<'_> {
    /// Becomes the correspondent of the other direction.
    pub fn turn(&mut self)
        ensures own { self.new.own ≡ self.old.theirs }
        ensures other { self.new.theirs ≡ self.old.own }
    {
        swap(&mut self.own, &mut self.theirs);
    }
}

impl Correspondent for Side<'_> {
    ghost State = { SideState };

    ghost state = { λ s. record { table = s.catalogue.now; own = s.own; theirs = s.theirs } };

    ghost answer = { answered_operation };

    ghost notified = { after_event };

    ghost due = { λ _. false };

    ghost awaits_messages = { false };

    fn operation(&self, id: u32) -> Option<OpId> {
        let call = self.theirs.find(id)?;
        let operation = OpId(call.operation?);
        if self.catalogue.has_operation(operation) {
            Some(operation)
        } else {
            None
        }
    }

    fn on_call(
        &mut self,
        number: u64,
        id: u32,
        name: Option<&[u8]>,
        operation: Option<OpId>,
        expects_reply: bool,
    ) {
        request(&mut self.own, number, id, name, operation, expects_reply);
    }

    fn on_answer(&mut self, _number: u64, id: u32) {
        self.theirs.take(id);
    }

    fn on_exception(&mut self, _number: u64, _name: &[u8]) {}

    fn is_due(&self) -> bool {
        false
    }

    fn awaits_messages(&self) -> bool {
        false
    }

    ghost known = { λ C s event k h. stays_known C s event k };
}

/// Takes a Request. An older call of its id goes. A call is made of it if its call line can be shown and it expects a
/// reply.
fn request(
    calls: &mut Calls,
    number: u64,
    id: u32,
    name: Option<&[u8]>,
    operation: Option<OpId>,
    expects_reply: bool,
)
    ensures { calls.new ≡ requested number id (option_map (λ x. x.now) name.entry) operation
        expects_reply calls.old }
{
    let Some(name) = name else {
        calls.take(id);
        return;
    };
    if !expects_reply {
        calls.take(id);
        return;
    }
    let call = Call {
        name: kept(name),
        operation: number_of(operation),
        stream: 1,
        message: number,
        time: None,
    };
    calls.add(id, call);
}

/// The number of an operation.
fn number_of(operation: Option<OpId>) -> Option<u32>
    ensures { result ≡ option_map (λ o. o.0) operation }
{
    Some(operation?.0)
}

/// The octets of a name. If it is longer than a call has room for, it can't be shown and isn't kept.
fn kept(name: &[u8]) -> ArrayVec<u8, 128>
    ensures { result.items ≡ kept_name name.now }
{
    let mut octets = ArrayVec::new();
    if octets.try_extend_from_slice(name).is_err() {
        return ArrayVec::new();
    }
    octets
}
