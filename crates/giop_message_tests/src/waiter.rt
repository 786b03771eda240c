//! A correspondent that is due from the first event that it is told of a Reply.

ghost use Rattle.std.specs.Prelude.{Bool, None, false};
ghost use Rattle.giop_message_tests.specs.Waited.{waited};

use giop_message::Correspondent;
use giop_sig::OpId;

/// It is due from the first event that it is told of a Reply. It awaits no messages, and answers no
/// operation.
#[derive(Clone, Copy, Debug, PartialEq, Eq)]
pub struct Waiter {
    pub is_due: bool,
}

impl Correspondent for Waiter {
    ghost State = { Bool };

    ghost state = { λ waiter. waiter.is_due };

    ghost answer = { λ is_due id. None };

    ghost notified = { waited };

    ghost due = { λ is_due. is_due };

    ghost awaits_messages = { false };

    fn operation(&self, _id: u32) -> Option<OpId> {
        None
    }

    fn on_call(
        &mut self,
        _number: u64,
        _id: u32,
        _name: Option<&[u8]>,
        _operation: Option<OpId>,
        _expects_reply: bool,
    ) {}

    fn on_answer(&mut self, _number: u64, _id: u32) {
        self.is_due = true;
    }

    fn on_exception(&mut self, _number: u64, _name: &[u8]) {
        self.is_due = true;
    }

    fn is_due(&self) -> bool {
        self.is_due
    }

    fn awaits_messages(&self) -> bool {
        false
    }

    ghost known = { λ C s event k h id. tt };
}
