//! What the stream uses of a message: its calls write and return what its reading has, octet by
//! octet.

ghost use Rattle.std.specs.Prelude.{◌≡◌, ℕ, suc, false, List, [], ◌∷◌, ◌++◌};
ghost use Rattle.std.specs.List.{list_any};
ghost use Rattle.giop_sig.specs.Table.{Table};
ghost use Rattle.giop_message.specs.declared.message.Message.{Message};
ghost use Rattle.giop_message.specs.MessageReader.{next_lines, is_fault_class};
ghost use Rattle.giop_message.specs.Text.{numbered_lines};
ghost use Rattle.giop_message.specs.Phases.{Phase};
ghost use Rattle.giop_message.specs.Signatures.{Answers, signatures_of};
ghost use Rattle.giop_message.specs.Messages.{read_message, stage_of, lines_of_close};
ghost use Rattle.giop_message.specs.ReaderOfTable.{message_reader, is_over};
ghost use Rattle.giop_message.specs.MessageState.{Follows, more_lines_text, is_short_close};

/// The text of an octet and of a close, and whether they fault a message, follow from the reading
/// alone. The function has no body; it is called for its contract.
pub fn message_reader_laws()
    // The text of an octet is the text of its lines in the reading.
    ensures text { (C : Table) (answers : Answers) (phase : Phase)
        (number place : ℕ) (header s : List ℕ) (x : ℕ) →
        more_lines_text (signatures_of C (answers number) phase) number place header s (x ∷ [])
        ≡ numbered_lines (suc place) number
        (next_lines (message_reader C answers) phase number header s x) }
    // If a message isn't over, it is over after an octet exactly if the octet adds the line of a
    // fault.
    ensures over { (C : Table) (answers : Answers) (phase : Phase)
        (number : ℕ) (header s : List ℕ) (x : ℕ) →
        is_over (stage_of (read_message (signatures_of C (answers number) phase) header s))
        ≡ false →
        is_over (stage_of (read_message (signatures_of C (answers number) phase) header (s ++ x
        ∷ [])))
        ≡ list_any (λ r. is_fault_class r.line_class)
        (next_lines (message_reader C answers) phase number header s x) }
    // If a message follows a list of octets, it isn't over.
    ensures running { (C : Table) (answers : Answers) (phase : Phase)
        (number : ℕ) (header : List ℕ) (m : Message)
        (s : List ℕ) → Follows C answers phase number header m s →
        is_over (stage_of (read_message (signatures_of C (answers number) phase) header s))
        ≡ false }
    // A close is short exactly if it has the line of a fault.
    ensures short { (C : Table) (answers : Answers) (phase : Phase)
        (number : ℕ) (header s : List ℕ) →
        is_short_close (lines_of_close (stage_of (read_message (signatures_of C
        (answers number) phase) header s)))
        ≡ list_any (λ l. is_fault_class l.0) ((message_reader C answers).closes phase number header
        s) }
{}
