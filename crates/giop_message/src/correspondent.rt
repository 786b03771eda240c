//! The correspondent of a stream: the other side of the conversation, which knows the calls that replies answer.

ghost use Rattle.std.specs.Prelude.{◌≡◌, Bool, Option, false};
ghost use Rattle.std.specs.Option.{option_map};
ghost use Rattle.giop_sig.specs.Table.{Table};
ghost use Rattle.giop_sig.specs.RequestList.{kept_operation};
ghost use Rattle.giop_message.specs.Signatures.{RequestTable, Answer};
ghost use Rattle.giop_message.specs.MessageState.{AreKnown};
ghost use Rattle.giop_message.specs.HeaderEnds.{CallEvent, Requested, Replied, Raised, HasKnownOperation};

use giop_sig::{OpId, Requests};

/// What is known of the calls that the replies of a stream answer. When the header of a Reply ends,
/// the correspondent is asked for the operation, if the body has results. Then it is told of that
/// header, and later of the exception that the Reply raises.
pub trait Correspondent {
    /// What the correspondent knows.
    ghost State: { Type 0 };

    ghost state: { Self → State };

    /// The operation that each request id answers, from what is known.
    ghost answer: { State → Answer };

    /// What is known after an event.
    ghost notified: { State → CallEvent → State };

    /// Whether the correspondent is due, from what is known.
    ghost due: { State → Bool };

    /// Whether the correspondent is also due after each octet with which a message begins.
    ghost awaits_messages: { Bool };

    /// The operation of the call with this request id, if it is known.
    fn operation(&self, id: u32) -> Option<OpId>
        ensures { result ≡ answer (state self.now) id };

    /// The header of a Request has ended. The correspondent is told the message's number in its
    /// stream, from 1; the request id; the name of the operation, if a call line can show it; the
    /// operation, if it is known; and whether a reply is expected.
    fn on_call(
        &mut self,
        number: u64,
        id: u32,
        name: Option<&[u8]>,
        operation: Option<OpId>,
        expects_reply: bool,
    )
        ensures { state self.new ≡ notified (state self.old)
            (Requested number id (option_map (λ x. x.now) name.entry) operation expects_reply) };

    /// The header of a Reply has ended. The correspondent is told the message's number in its
    /// stream, from 1, and the id of the request that the Reply answers.
    fn on_answer(&mut self, number: u64, id: u32)
        ensures { state self.new ≡ notified (state self.old) (Replied number id) };

    /// A Reply raises an exception. The correspondent is told the message's number in its stream,
    /// from 1, and the exception's name: 1 to 128 octets, each in 21..7e (hexadecimal). For a
    /// USER_EXCEPTION, the name is the repository id, and it is told when the id has ended; for a
    /// SYSTEM_EXCEPTION, it is the exception_id, and it is told when the body has ended. If the
    /// name is another one, nothing is told (GIOP Message Formats, Reply Body).
    fn on_exception(&mut self, number: u64, name: &[u8])
        ensures { state self.new ≡ notified (state self.old) (Raised number name.now) };

    /// Whether the correspondent has something to write after the octet that was read last. If it
    /// has, the reading stops there, and the caller writes it and makes the correspondent not due.
    /// If a correspondent is already due before a call, the reading may stop after any octet.
    fn is_due(&self) -> bool
        ensures { result ≡ due (state self.now) };

    /// Whether the reading also stops after each octet with which a message begins, the 12th of its
    /// header.
    fn awaits_messages(&self) -> bool
        ensures { result ≡ awaits_messages };

    /// If a correspondent answers only operations of a table, and is told of an operation of that
    /// table, it still answers only such operations.
    ghost known: { (C : Table) (s : State) (event : CallEvent) → AreKnown C (answer s) →
        HasKnownOperation C event → AreKnown C (answer (notified s event)) };
}

/// A request list gives the same answers for each message, no event changes it, and it is never
/// due.
impl<'a> Correspondent for &'a Requests {
    ghost State = { RequestTable };

    ghost state = { λ r. r.now };

    ghost answer = { λ request_table id. kept_operation request_table id };

    ghost notified = { λ request_table _. request_table };

    ghost due = { λ _. false };

    ghost awaits_messages = { false };

    fn operation(&self, id: u32) -> Option<OpId> {
        (**self).operation(id)
    }

    fn on_call(
        &mut self,
        _number: u64,
        _id: u32,
        _name: Option<&[u8]>,
        _operation: Option<OpId>,
        _expects_reply: bool,
    ) {}

    fn on_answer(&mut self, _number: u64, _id: u32) {}

    fn on_exception(&mut self, _number: u64, _name: &[u8]) {}

    fn is_due(&self) -> bool {
        false
    }

    fn awaits_messages(&self) -> bool {
        false
    }

    ghost known = { λ C s event k h. k };
}
