//! A correspondent that waits for messages, and gives no operation as an answer.

ghost use Rattle.std.specs.Prelude.{None, true, false};

use giop_message::Correspondent;
use giop_sig::OpId;

/// The correspondent awaits messages, and is due for nothing else.
#[derive(Clone, Copy, Debug, PartialEq, Eq)]
pub struct Timer;

impl Correspondent for Timer {
    ghost State = { Unit {0} };

    ghost state = { λ _. tt };

    ghost answer = { λ _ id. None };

    ghost notified = { λ _ _. tt };

    ghost due = { λ _. false };

    ghost awaits_messages = { true };

    fn operation(&self, _id: u32) -> Option<OpId> {
        None
    }

    fn on_call(
        &mut self,
        _number: u64,
        _id: u32,
        _name: Option<&[u8]>,
        _operation: Option<OpId>,
        _expects_reply: bool,
    ) {}

    fn on_answer(&mut self, _number: u64, _id: u32) {}

    fn on_exception(&mut self, _number: u64, _name: &[u8]) {}

    fn is_due(&self) -> bool {
        false
    }

    fn awaits_messages(&self) -> bool {
        true
    }

    ghost known = { λ C s event k h id. tt };
}
