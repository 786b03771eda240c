//! What holds of lines with tags, and of the text of a capture.

ghost use Rattle.std.specs.Prelude.{◌≡◌, ◌<◌, ◌/◌, ◌++◌, List, ℕ, [], true, false, length, Some};
ghost use Rattle.std.specs.List.{AllByRecursion as Each};
ghost use Rattle.giop_print.specs.Output.{Wrote, WroteFront};
ghost use Rattle.tcp_flow.specs.Flow.{Event, flow_of};
ghost use Rattle.giop_conversation.specs.Captured.{Setup, Dump, Leads, start, next_stream_number, without_answers};
ghost use Rattle.giop_conversation.specs.StreamTexts.{no_history, history, AreGapless, AreWhole, IsUnique, ShowsStreams};
ghost use Rattle.giop_conversation.specs.Tags.{with_tags, without_tags};
ghost use Rattle.giop_conversation.specs.TaggedText.{is_tag_due};
ghost use Rattle.giop_conversation.specs.TaggedState.{Tagging, tagging_log, IsReady, WroteTaggedFront};

use giop_stream::answers_agree;

/// What the out below has after whole lines were written to an out with tags.
pub fn lines_stand_below()
    // At first, and each time after a tag is set, the next octet begins a line.
    ensures start { (w : List ℕ)
        (below : ℕ) → IsReady (record {
          whole = Some w;
          below = below;
          tag = [];
          due = 0;
          since = 0;
          refused = false;
          puts = 0;
          failures = 0;
        }) w }
    ensures again { (t : Tagging) (w tag : List ℕ) → IsReady t w →
        IsReady (record t { tag = tag; due = length tag; since = 0 }) w }
    // If lines are written, they stand in the text below, each with the tag in front.
    ensures writes { (t after : Tagging) (w lines : List ℕ) → IsReady t w →
        Wrote (tagging_log t) (tagging_log after) lines → is_tag_due lines ≡ true →
        IsReady after (w ++ with_tags t.tag lines) × (after.tag ≡ t.tag) }
    // If a put fails, a front of them does, and maybe the beginning of a tag.
    ensures front { (t after : Tagging) (w lines : List ℕ) → IsReady t w →
        WroteFront (tagging_log t) (tagging_log after) lines →
        WroteTaggedFront after w t.tag lines }
{}

/// If the tags are taken away from lines with tags, the lines remain. If a text of whole lines comes before another text,
/// the lines with tags of both are those of the first text, and then those of the second.
pub fn lines_with_tags()
    ensures taken { (tag text : List ℕ) → without_tags (length tag) (with_tags tag text) ≡ text }
    ensures more { (tag first more : List ℕ) → is_tag_due first ≡ true →
        with_tags tag (first ++ more) ≡ with_tags tag first ++ with_tags tag more }
{}

/// In the text of a capture, take the lines of one stream without their tags, and leave out the lines `stream`, `time`,
/// `answers`, `raises` and `closed`. What remains is what `giopdump` writes of the octets that were delivered of the
/// stream, and of its end if it has closed. This holds after any events, for each stream whose number is from 1 to 2^64 -
/// 2.
pub fn each_stream_is_dumped()
    // The text is a row of parts. Each part is lines that giopdump writes of a stream, or a line of the five kinds, or the
    // fault of the capture.
    ensures shows { (S : Setup) (written : List ℕ) (events : List Event) (d : Dump)
        (leads : Leads S (start S written) events d) →
        ShowsStreams S written (history S no_history (start S written) events d leads) d.text }
    // If in each flow octets come and streams close only while a stream lives there, no stream goes on after its close.
    ensures ends { (S : Setup) (written : List ℕ) (events : List Event) (d : Dump)
        (leads : Leads S (start S written) events d) → AreGapless events →
        (number : ℕ) → IsUnique number →
        ((history S no_history (start S written) events d leads).stream number).goes_on ≡ false }
    // If each stream has closed in the end, each stream whose connection has a slot is closed in its history.
    ensures closes { (S : Setup) (written : List ℕ) (events : List Event) (d : Dump)
        (leads : Leads S (start S written) events d) → AreWhole events → (number : ℕ) →
        (history S no_history (start S written) events d leads).has_slot number ≡ true →
        ((history S no_history (start S written) events d leads).stream number).is_closed ≡ true }
    // If each event of a flow is of a connection with a slot, each stream that began has a slot.
    ensures slots { (S : Setup) (written : List ℕ) (events : List Event) (d : Dump)
        (leads : Leads S (start S written) events d) →
        Each (λ e. (id : ℕ) → flow_of e ≡ Some id → id / 2 < S.connections) events → (k : ℕ) →
        k < (history S no_history (start S written) events d leads).begun →
        (history S no_history (start S written) events d leads).has_slot (next_stream_number S k)
        ≡ true }
{
    answers_agree();
}

/// The same events lead to one text. `Leads` fixes the operations that the ids of a message answer only at the end of the
/// message's header. All else makes no difference: two dumps to which the same events lead differ at most in the answers of
/// their streams.
pub fn events_lead_to_one_text()
    ensures text { (S : Setup) (d : Dump) (events : List Event) (a b : Dump) →
        Leads S d events a → Leads S d events b →
        a.text ≡ b.text }
    ensures rest { (S : Setup) (d : Dump) (events : List Event) (a b : Dump) →
        Leads S d events a → Leads S d events b →
        without_answers a ≡ without_answers b }
{}
