//! What is done to a single message that has begun and not ended. It is `None` after it is over, which means faulted or
//! ended.

ghost use Rattle.std.specs.Prelude.{◌≡◌, ◌+◌, ◌<◌, ◌≤◌, ◌^◌, ℕ, length, take, true, Option, None, OnOk, IfOk, if◌then◌else◌};
ghost use Rattle.giop_sig.specs.Table.{Table};
ghost use Rattle.giop_message.specs.Signatures.{Answers};
ghost use Rattle.giop_message.specs.ReaderOfTable.{message_reader};
ghost use Rattle.giop_message.specs.MessageState.{AreKnown};
ghost use Rattle.giop_stream.specs.Events.{MessageKey, Seams, Faults, Closes};
ghost use Rattle.giop_stream.specs.Lines.{Kept};
ghost use Rattle.giop_stream.specs.Effects.{message_effect, message_kept_after, lines_of, event};
ghost use Rattle.giop_stream.specs.SlotsRepresent.{RepresentsMessage, IsReady};
ghost use Rattle.giop_stream.specs.DoesEffect.{DoesMessageEffect, WritesLines, count_one_if};
ghost use Rattle.giop_stream.specs.PayloadRuns.{run_message_effect};
ghost use Rattle.giop_stream.specs.HeaderEndsOfStream.{run_header_ends};
ghost use Rattle.giop_message.specs.HeaderEnds.{AgreesAtEnds, after_ends};
ghost use Rattle.giop_message.specs.DueOctets.{TakesFront, StaysUndue};

use crate::fault::FramingFault;
use crate::lines::framing_fault_line;
use giop_message::{Correspondent, Message, kind_of};
use giop_print::{Out, OutFault};
use giop_sig::Catalogue;

/// Drops a message that is over. This is a function of its own, so that the code that runs at every octet needs no stack
/// for it.
fn forget(message: &mut Option<Message>)
    ensures { message.new ≡ None }
{
    *message = None;
}

/// Feeds octets to a message, after `before` octets of the stream, up to the first one after which the correspondent is
/// due. If the message is over, or one of the octets faults it, all octets are taken. Returns how many were taken, and
/// whether one of them faults the message.
pub fn take_octets<O: Out, Q: Correspondent>(
    message: &mut Option<Message>,
    catalogue: &Catalogue,
    correspondent: &mut Q,
    octets: &[u8],
    before: u64,
    out: &mut O,
) -> Result<(usize, bool), OutFault>
    requires ready { IsReady catalogue.now (before + 1) message.old }
    requires known { AreKnown catalogue.now (Q.answer (Q.state correspondent.old)) }
    requires limit { before + length octets.now ≤ 2 ^ 48 }
    ensures known { AreKnown catalogue.now (Q.answer (Q.state correspondent.new)) }
    ensures does { (a : Answers) (w : MessageKey) (o : Option Kept) →
        RepresentsMessage catalogue.now a message.old w o →
        AgreesAtEnds Q.answer Q.notified catalogue.now (Q.state correspondent.old) a
        (run_header_ends w o octets.now) →
        TakesFront (λ r. r.0) (StaysUndue Q.due Q.notified catalogue.now
        (Q.state correspondent.old) (run_header_ends w o))
        (λ xs. DoesMessageEffect catalogue.now a (λ r. count_one_if r.1) result (O.log out.old)
        (O.log out.new)
        message.new w (run_message_effect catalogue.now a before w o xs)) result octets.now }
    ensures told { IfOk result (λ r. (a : Answers) (w : MessageKey) (o : Option Kept) →
        RepresentsMessage catalogue.now a message.old w o →
        AgreesAtEnds Q.answer Q.notified catalogue.now (Q.state correspondent.old) a
        (run_header_ends w o octets.now) →
        Q.state correspondent.new ≡ after_ends Q.notified catalogue.now
        (Q.state correspondent.old) (run_header_ends w o (take r.0 octets.now))) }
    ensures due { IfOk result (λ r. r.0 < length octets.now →
        Q.due (Q.state correspondent.new) ≡ true) }
    ensures some { 0 < length octets.now → IfOk result (λ r. 0 < r.0) }
    ensures within { IfOk result (λ r. r.0 ≤ length octets.now) }
    ensures ready { IfOk result (λ r. IsReady catalogue.now (before + r.0 + 1) message.new) }
{
    let Some(m) = message else {
        return Ok((octets.len(), false));
    };
    let (count, is_over) = m.take(catalogue, correspondent, octets, before, out)?;
    if !is_over {
        return Ok((count, false));
    }
    forget(message);
    Ok((octets.len(), true))
}

/// Notes that the payload of a Fragment of GIOP 1.1 begins at the next octet of a message, unless the message is over.
pub fn seam_message(message: &mut Option<Message>)
    ensures kept { (C : Table) (l : Answers) (w : MessageKey) (o : Option Kept) (place : ℕ) →
        RepresentsMessage C l message.old w o →
        RepresentsMessage C l message.new w
        (message_kept_after (message_reader C l) (event place w Seams) o) }
    ensures ready { (C : Table) (n : ℕ) → IsReady C n message.old → IsReady C n message.new }
{
    if let Some(m) = message {
        m.seam();
    }
}

/// Faults a message of this number, unless it is over. Returns whether it does.
pub fn fault_message<O: Out>(
    message: &mut Option<Message>,
    number: u64,
    fault: FramingFault,
    place: u64,
    out: &mut O,
) -> Result<bool, OutFault>
    ensures does { (C : Table) (l : Answers) (w : MessageKey) (o : Option Kept) →
        RepresentsMessage C l message.old w o → w.number ≡ number →
        DoesMessageEffect C l count_one_if result (O.log out.old) (O.log out.new) message.new w
        (message_effect (message_reader C l) (event place w (Faults fault)) o) }
    ensures ready { (C : Table) (n : ℕ) → IsReady C n message.new }
{
    if message.is_none() {
        return Ok(false);
    }
    forget(message);
    framing_fault_line(out, number, fault, place)?;
    Ok(true)
}

/// Closes a message, unless it is over. Returns whether that faults it.
pub fn close_message<O: Out>(
    message: &Option<Message>,
    catalogue: &Catalogue,
    place: u64,
    out: &mut O,
) -> Result<bool, OutFault>
    requires ready { IsReady catalogue.now (place + 1) message.now }
    ensures { (l : Answers) (w : MessageKey) (o : Option Kept) →
        RepresentsMessage catalogue.now l message.now w o →
        WritesLines count_one_if result (O.log out.old) (O.log out.new)
        (lines_of (message_reader catalogue.now l) (event place w Closes) o) }
{
    match message {
        Some(m) => m.close(catalogue, place, out),
        None => Ok(false),
    }
}
