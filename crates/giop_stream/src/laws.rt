//! Laws of a stream whose messages are joined from their fragments. They hold for any reading of a single message.

ghost use Rattle.std.specs.Prelude.{◌≡◌, ◌+◌, ◌≤◌, ◌<◌, ◌==◌, ◌&&◌, ℕ, suc, List, [], ◌∷◌, ◌++◌, ◌*◌, length, filter, true, Option, Some, None, slice_get, slice_set};
ghost use Rattle.std.specs.List.{remove, AllByRecursion as Each};
ghost use Rattle.giop_checkpoint.specs.declared.fault.StreamFault.{StreamFault};
ghost use Rattle.giop_message.specs.MessageReader.{MessageReader, KeepsEarlierLines, ClosesWithLastLine, IsStreamable};
ghost use Rattle.giop_sig.specs.Table.{Table};
ghost use Rattle.giop_message.specs.Signatures.{Answers};
ghost use Rattle.giop_message.specs.HeaderEnds.{AgreesAtEnds};
ghost use Rattle.giop_stream.specs.AnswersAgree.{AnswersAgree, AgreeAtHeaders};
ghost use Rattle.giop_stream.specs.HeaderEndsOfStream.{header_ends_from};
ghost use Rattle.giop_stream.specs.Rules.{Rules, rules_by};
ghost use Rattle.giop_stream.specs.Framing.{CutMessage, cut, limit, messages};
ghost use Rattle.giop_stream.specs.Kinds.{is_fragment_1_1};
ghost use Rattle.giop_stream.specs.Events.{OpenState, Event, Open, Opens, Continues, Seams, ends_joining, before_by, events, open_after, joined_octets, phase_of, NumbersRise};
ghost use Rattle.giop_stream.specs.Shares.{joined_share, joined_shares};
ghost use Rattle.giop_stream.specs.Lines.{Class, has_class, lines};
ghost use Rattle.giop_stream.specs.Text.{lines_text};
ghost use Rattle.giop_stream.specs.Stream.{text, totals_so_far, final, closing};
ghost use Rattle.giop_stream.specs.Effects.{tracked_after_event, message_kept_after, keeps_open_list, closes_message};
ghost use Rattle.giop_stream.specs.OpenSlots.{Tracked, IsNotOpen, slots_at};
ghost use Rattle.giop_stream.specs.EngineState.{state_of};
ghost use Rattle.giop_stream.specs.EngineView.{EngineView};
ghost use Rattle.giop_stream.specs.EngineHolds.{HoldsBy};
ghost use Rattle.giop_stream.specs.EngineStep.{fresh_state, step, lines_of_run, run_state, text_at_finish, final_totals};

use giop_message::Correspondent;

// The functions here have no body; they are called for their contracts.

/// What an event does to the slots of the open messages, each slot at its index.
pub fn each_slot()
    // An octet, a seam or a fault changes the slot of its message.
    ensures stays { (R : MessageReader) (c : Tracked) (e : Event) (k : ℕ) (o : Open) →
        keeps_open_list e.what ≡ true → NumbersRise c.still_open →
        slice_get c.still_open k ≡ Some o →
        e.subject ≡ o.opener →
        slots_at (tracked_after_event R c e)
        ≡ slice_set (slots_at c) k
        (record { open_as = o; kept = message_kept_after R e (c.known o.opener.number) }) }
    // If the message isn't open, no slot changes.
    ensures own { (R : MessageReader) (c : Tracked) (e : Event) →
        keeps_open_list e.what ≡ true → IsNotOpen e.subject.number c.still_open →
        slots_at (tracked_after_event R c e) ≡ slots_at c }
    // A close or a cancel takes the slot of its message away.
    ensures goes { (R : MessageReader) (c : Tracked) (e : Event) (k : ℕ) (o : Open) →
        closes_message e.what ≡ true → NumbersRise c.still_open →
        slice_get c.still_open k ≡ Some o →
        e.subject ≡ o.opener →
        slots_at (tracked_after_event R c e) ≡ remove (slots_at c) k }
    // If the message isn't open, no slot goes.
    ensures closes { (R : MessageReader) (c : Tracked) (e : Event) →
        closes_message e.what ≡ true → IsNotOpen e.subject.number c.still_open →
        slots_at (tracked_after_event R c e) ≡ slots_at c }
    // A message that becomes open gets the last slot.
    ensures opens { (R : MessageReader) (c : Tracked) (e : Event) (k : Option ℕ) →
        e.what ≡ Opens k → IsNotOpen e.subject.number c.still_open →
        (let o : Open = record { key = k; opener = e.subject } in
        slots_at (tracked_after_event R c e)
        ≡ slots_at c ++ record { open_as = o; kept = c.known e.subject.number } ∷ []) }
    // A Fragment that continues a message changes nothing.
    ensures continues { (R : MessageReader) (c : Tracked) (e : Event) (n : ℕ) →
        e.what ≡ Continues n → tracked_after_event R c e ≡ c }
    // What is kept of the event's message changes as `known_then` says. What is kept of other messages stays.
    ensures kept { (R : MessageReader) (c : Tracked) (e : Event) →
        (tracked_after_event R c e).known e.subject.number ≡ message_kept_after R e
        (c.known e.subject.number) }
    ensures others { (R : MessageReader) (c : Tracked) (e : Event) (i : ℕ) →
        (i ≡ e.subject.number → ⊥) →
        (tracked_after_event R c e).known i ≡ c.known i }
    // The numbers of a stream's open messages rise.
    ensures rising { (R : Rules) (p : List ℕ) → NumbersRise (open_after R p) }
{}

/// The octets of a joined message are its own, and then, of each message that continues it, those after the request id,
/// or all of them in 1.1.
pub fn each_joined()
    ensures { (R : Rules) (p : List ℕ) (i : ℕ) →
        joined_octets i (events R p) ≡ joined_shares R i [] (messages (cut p)) }
{}

/// A stream is mixed after it has refused a message of GIOP 1.1 that Fragments may follow: nobody can tell then to which
/// message a Fragment of 1.1 belongs. None is joined from there on.
pub fn mixed_streams()
    // It is mixed after such a message was refused.
    ensures mixes { (R : Rules) (past : List Event) (e : Event) → ends_joining e ≡ true →
        (before_by R (past ++ e ∷ [])).mixed ≡ true }
    // It stays mixed.
    ensures stays { (R : Rules) (past more : List Event) → (before_by R past).mixed ≡ true →
        (before_by R (past ++ more)).mixed ≡ true }
    // No joined message has octets of a Fragment of 1.1 that comes then.
    ensures shares { (b : OpenState) (m : CutMessage) (i : ℕ) → b.mixed ≡ true →
        is_fragment_1_1 m.header ≡ true → joined_share i b m ≡ [] }
{}

/// Padding in the payload of a Fragment of GIOP 1.1 counts from the first octet of the Fragment's own header. Let the event
/// of this seam stand after `past`, and let no other seam stand in `between`. Then the octets in `between` are of this
/// payload; before the octet number k of them, from 0, padding is counted by 12 + k.
pub fn fragment_padding()
    ensures { (i : ℕ) (past between rest : List Event) (e : Event) (k : ℕ) →
        e.subject.number ≡ i → e.what ≡ Seams →
        Each (λ f. f.what ≡ Seams → ⊥) between → k < length (joined_octets i between) →
        phase_of i (past ++ e ∷ (between ++ rest)) (12 + length (joined_octets i past) + k)
        ≡ 12 + k }
{}

/// At most as many messages are open as may be.
pub fn open_messages()
    ensures { (R : Rules) (p : List ℕ) → length (open_after R p) ≤ R.most }
{}

/// After a stream fault no octet adds a line, and no octet is counted.
pub fn after_a_stop()
    ensures text { (R : Rules) (p q : List ℕ) (found : ℕ × StreamFault) →
        (cut p).stop ≡ Some found →
        text R (p ++ q) ≡ text R p }
    ensures totals { (R : Rules) (p q : List ℕ) (found : ℕ × StreamFault) →
        (cut p).stop ≡ Some found →
        totals_so_far R (p ++ q) ≡ totals_so_far R p }
{}

/// No octet has two lines of the same class.
pub fn one_of_each()
    ensures { (R : Rules) → KeepsEarlierLines R.reading → IsStreamable R.reading →
        (p : List ℕ) (k : ℕ) (c : Class) →
        length (filter (λ l. (l.place == k) && has_class c l) (lines R p)) ≤ 1 }
{}

/// What an engine holds of a stream changes by one step at each octet.
pub fn each_step()
    ensures start { (R : Rules) → state_of R [] ≡ fresh_state R }
    ensures state { (R : Rules) → KeepsEarlierLines R.reading → IsStreamable R.reading →
        (p : List ℕ) (x : ℕ) →
        state_of R (p ++ x ∷ []) ≡ (step R (state_of R p) x).state }
    ensures lines { (R : Rules) → KeepsEarlierLines R.reading → IsStreamable R.reading →
        (p : List ℕ) (x : ℕ) →
        lines R (p ++ x ∷ []) ≡ lines R p ++ (step R (state_of R p) x).lines }
    ensures text { (R : Rules) → KeepsEarlierLines R.reading → IsStreamable R.reading →
        (p q : List ℕ) →
        text R (p ++ q) ≡ text R p ++ lines_text (lines_of_run R (state_of R p) q) }
    ensures rest { (R : Rules) → KeepsEarlierLines R.reading → IsStreamable R.reading →
        (p q : List ℕ) →
        state_of R (p ++ q) ≡ run_state R (state_of R p) q }
    ensures closing { (R : Rules) → KeepsEarlierLines R.reading → IsStreamable R.reading →
        ClosesWithLastLine R.reading →
        (p : List ℕ) →
        closing R p ≡ text_at_finish (state_of R p) }
    ensures totals { (R : Rules) → KeepsEarlierLines R.reading → IsStreamable R.reading →
        (p : List ℕ) →
        final R p ≡ final_totals (state_of R p) }
{}

/// How many octets, messages and faults of a stream can be counted.
pub fn counts_are_bounded()
    // At most one octet is read beyond the limit, the octet of the stream fault.
    ensures octets { (R : Rules) (p : List ℕ) → (totals_so_far R p).octets ≤ suc limit }
    // If the stream has no fault, no octet is read beyond the limit.
    ensures free { (R : Rules) (p : List ℕ) → (cut p).stop ≡ None →
        (totals_so_far R p).octets ≤ limit }
    // Each message has a header of 12 octets.
    ensures messages { (R : Rules) → KeepsEarlierLines R.reading → IsStreamable R.reading →
        (p : List ℕ) →
        12 * (totals_so_far R p).messages ≤ (totals_so_far R p).octets }
    // Each message has at most one fault.
    ensures faults { (R : Rules) → KeepsEarlierLines R.reading → IsStreamable R.reading →
        (p : List ℕ) → (cut p).stop ≡ None →
        (totals_so_far R p).faults ≤ (totals_so_far R p).messages }
    // The stream itself has at most one: its stream fault, or its truncated end.
    ensures all_faults { (R : Rules) → KeepsEarlierLines R.reading → IsStreamable R.reading →
        (p : List ℕ) →
        (final R p).faults ≤ suc (final R p).messages }
{}

/// What the ids of a message answer makes no difference before the message's header ends. If two `Answers` agree for all
/// messages whose header has ended, a stream has the same text and the same state by both, and an engine that holds the
/// stream by one of them holds it by the other.
pub fn answers_agree()
    ensures text { (C : Table) (a b : Answers) (n : ℕ) (p : List ℕ) → AnswersAgree C n p a b →
        text (rules_by C a n) p ≡ text (rules_by C b n) p }
    ensures state { (C : Table) (a b : Answers) (n : ℕ) (p : List ℕ) → AnswersAgree C n p a b →
        state_of (rules_by C a n) p ≡ state_of (rules_by C b n) p }
    ensures held { (e : EngineView) (a b : Answers) (p : List ℕ) →
        AnswersAgree e.table e.most p a b →
        HoldsBy e a p → HoldsBy e b p }
{}

/// For any correspondent, and any octets after a stream, there are answers that agree with the correspondent at each header
/// that ends in these octets, and with the answers by which the stream was read. So it is known what an engine does with a
/// piece, whatever the correspondent answers. And an engine that holds a stream by the old answers holds it by the new
/// ones, piece by piece.
pub fn answers_go_on<Q: Correspondent>()
    ensures { (C : Table) (a : Answers) (n : ℕ) (p q : List ℕ) (st : Q.State) → (b : Answers)
        × AnswersAgree C n p a b
        × AgreesAtEnds Q.answer Q.notified C st b (header_ends_from (rules_by C b n) p q) }
{}

/// What the ids of a message answer makes a difference only if the message's header ends before the message is over. So
/// whatever a correspondent answers, two readings of a stream have the same text if the answers of both agree with it. Each
/// reading goes on from answers by which the octets before were read, and both agree at each header that ends.
pub fn answers_at_headers<Q: Correspondent>()
    ensures text { (C : Table) (a b : Answers) (n : ℕ) (p : List ℕ) → AgreeAtHeaders C n p a b →
        text (rules_by C a n) p ≡ text (rules_by C b n) p }
    ensures state { (C : Table) (a b : Answers) (n : ℕ) (p : List ℕ) → AgreeAtHeaders C n p a b →
        state_of (rules_by C a n) p ≡ state_of (rules_by C b n) p }
    // Answers that agree for each message whose header has ended agree at the headers.
    ensures agree { (C : Table) (a b : Answers) (n : ℕ) (p : List ℕ) → AnswersAgree C n p a b →
        AgreeAtHeaders C n p a b }
    // Answers that agree at the headers, and both agree with one correspondent, agree at the headers after more octets have
    // come.
    ensures one { (C : Table) (a b : Answers) (n : ℕ) (p q : List ℕ) (st : Q.State) →
        AgreeAtHeaders C n p a b →
        AgreesAtEnds Q.answer Q.notified C st a (header_ends_from (rules_by C a n) p q) →
        AgreesAtEnds Q.answer Q.notified C st b (header_ends_from (rules_by C b n) p q) →
        AgreeAtHeaders C n (p ++ q) a b }
{}
