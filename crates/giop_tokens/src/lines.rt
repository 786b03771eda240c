//! The line number of a refusal.
ghost use Rattle.std.specs.Prelude.{◌≡◌, ◌<◌, ◌^◌, ◌==◌, length, count_by};
ghost use Rattle.giop_tokens.specs.Lines.{line_at, fault_of};

use crate::fault::{SigFault, SigFaultKind, TokenError};

/// How many line feeds a text has.
fn line_feeds(text: &[u8]) -> usize
    ensures { result ≡ count_by (λ b. b == 10) text.now }
{
    text.iter().filter(|b| **b == b'\n').count()
}

/// The line, from 1, of the octet with which the last `left` octets of the text begin, or of the last octet if `left` is 0.
pub fn line_of(text: &[u8], left: usize) -> u32
    requires { length text.now < 2 ^ 32 }
    ensures { result ≡ line_at text.now left }
{
    let before = text.len().saturating_sub(left.max(1));
    1 + line_feeds(&text[..before]) as u32
}

/// The fault that the caller gets for a refusal: its kind and its line.
pub fn fault_in(text: &[u8], refusal: TokenError) -> SigFault
    requires { length text.now < 2 ^ 32 }
    ensures { result ≡ fault_of text.now refusal }
{
    let line = match refusal.kind {
        SigFaultKind::OutOfMemory => 0,
        _ => line_of(text, refusal.left),
    };
    SigFault {
        line,
        kind: refusal.kind,
    }
}
