//! A listener that keeps nothing of what it is told.

ghost use Rattle.std.specs.Prelude.{None};

use tcp_flow::{CloseCause, Listener, ListenerError, Start};
use tcp_segment::Flow;
use tcp_waiting::Arrival;

/// A listener that keeps nothing. Its readers never have a fault, and don't know where a message
/// ends.
#[derive(Drop)]
pub struct Silent;

impl Listener for Silent {
    ghost observed = { λ s events. Unit {0} };

    ghost failed = { λ s. ⊥ };

    ghost reader = { record { faulted = λ events. None; lacking = λ events id. None } };

    fn on_new_flow(&mut self, _flow: u32, _endpoints: Flow) -> Result<(), ListenerError> {
        Ok(())
    }

    fn on_arrival(&mut self, _arrival: Arrival) {}

    fn on_looked_through(&mut self, _octets: &[u8]) {}

    fn on_begin(&mut self, _flow: u32, _start: Start) -> Result<(), ListenerError> {
        Ok(())
    }

    fn on_octets(&mut self, _flow: u32, _octets: &[u8]) -> Result<Option<u64>, ListenerError> {
        Ok(None)
    }

    fn message_lacks(&mut self, _flow: u32) -> Result<Option<u32>, ListenerError> {
        Ok(None)
    }

    fn on_close(&mut self, _flow: u32, _cause: CloseCause) -> Result<(), ListenerError> {
        Ok(())
    }
}
