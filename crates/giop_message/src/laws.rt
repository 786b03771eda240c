//! The laws of the reading of a message: what one more octet, or many more, do to it, and what the
//! stream needs of it.

ghost use Rattle.std.specs.Prelude.{◌≡◌, ℕ, ◌+◌, ◌%◌, List, [], ◌∷◌, ◌++◌, length, map, drop, Some};
ghost use Rattle.std.specs.List.{list_any};
ghost use Rattle.giop_cdr.specs.Numbers.{num};
ghost use Rattle.giop_sig.specs.Types.{Ty};
ghost use Rattle.giop_sig.specs.Table.{Table};
ghost use Rattle.giop_sig.specs.HeaderTypes.{BeginsWithId, header_type};
ghost use Rattle.giop_message.specs.Headers.{minor, kind, order};
ghost use Rattle.giop_message.specs.Phases.{Phase, AgreeBefore};
ghost use Rattle.giop_message.specs.Apart.{HasDistinctClasses};
ghost use Rattle.giop_message.specs.MessageReader.{KeepsEarlierLines, UsesPhaseBeforeEnd, ClosesWithLastLine, HasOnlyValuesInId, GivesLinesInOrder, ClosesOnce};
ghost use Rattle.giop_message.specs.Signatures.{Answer, Answers, signatures_of};
ghost use Rattle.giop_message.specs.Messages.{read_message, message_lines, message_marks, stage_of, lines_of_close};
ghost use Rattle.giop_message.specs.HeaderEnds.{header_end_at, header_ends};
ghost use Rattle.giop_message.specs.MessageState.{more_lines_text, timed_lines_text, closing_text, closes_text};
ghost use Rattle.giop_message.specs.StageSteps.{read_one_more, read_more};
ghost use Rattle.giop_message.specs.ReaderOfTable.{message_reader, first_request_id, is_over, is_fault_line};

/// A message of any header is read as its octets come, with each table and whatever the ids answer.
/// The function has no body; it is called for its contract.
pub fn message_laws()
    // One more octet is one step from the stage of the message.
    ensures step { (C : Table) (answer : Answer) (phase : Phase) (header s : List ℕ) (b : ℕ) →
        (let S = signatures_of C answer phase in read_message S header (s ++ b ∷ [])
        ≡ read_one_more S header (read_message S header s) b) }
    // Many more octets are as many steps: the reading of a message may stop and go on at any octet.
    ensures more { (C : Table) (answer : Answer) (phase : Phase) (header s t : List ℕ) →
        (let S = signatures_of C answer phase in read_message S header (s ++ t)
        ≡ read_more S header (read_message S header s) t) }
    // It is the same by phases that agree before its end, and what ends in octets is so too.
    ensures phased { (C : Table) (answer : Answer) (phase other : Phase) (header s : List ℕ) →
        AgreeBefore (12 + length s) phase other →
        read_message (signatures_of C answer phase) header s
        ≡ read_message (signatures_of C answer other) header s }
    ensures phased_ends { (phase other : Phase) (number : ℕ) (header s more : List ℕ) →
        AgreeBefore (12 + length (s ++ more)) phase other →
        header_ends phase number header s more ≡ header_ends other number header s more }
    // A message is over exactly if its lines have a fault.
    ensures over { (C : Table) (answer : Answer) (phase : Phase) (header s : List ℕ) →
        is_over (stage_of (read_message (signatures_of C answer phase) header s))
        ≡ list_any is_fault_line (message_lines (read_message
        (signatures_of C answer phase) header s)) }
    // What the stream needs of a reading: more octets don't change the lines of the octets before
    // them;
    ensures stays { (C : Table) (answers : Answers) → KeepsEarlierLines (message_reader C answers) }
    // nor do phases that agree before the end of the octets;
    ensures lines { (C : Table) (answers : Answers) → UsesPhaseBeforeEnd
        (message_reader C answers) }
    // a close ends a message;
    ensures ends { (C : Table) (answers : Answers) → ClosesWithLastLine (message_reader C answers) }
    // if a message begins with its request id, its first four octets have only lines of values;
    ensures named { (C : Table) (answers : Answers) → HasOnlyValuesInId (message_reader C answers) }
    // the lines of one octet come in their order, and if a message is faulted at its last octet,
    // nothing of the rest is left.
    ensures order { (C : Table) (answers : Answers) → GivesLinesInOrder (message_reader C answers) }
    ensures closing { (C : Table) (answers : Answers) → ClosesOnce (message_reader C answers) }
    // If a header begins with its request id, the id is the number of the first four octets. If the
    // header begins with it in version 1, it does so with each table.
    ensures id { (C : Table) (answer : Answer) (phase : Phase) (header : List ℕ) (T : Ty) →
        header_type 1 (minor header) (kind header) ≡ Some T → BeginsWithId T → phase 12 % 4 ≡ 0 →
        (a b c d : ℕ) (xs : List ℕ) →
        first_request_id (message_lines (read_message (signatures_of C answer phase) header
        (a ∷ b ∷ c ∷ d ∷ xs)))
        ≡ Some (num (order header) (a ∷ b ∷ c ∷ d ∷ [])) }
    // What a message writes for more octets, and at its close, are the lines of the reading: each
    // with the message's number, and a fault with its place in the stream.
    ensures writes { (C : Table) (answers : Answers) (phase : Phase)
        (number place : ℕ) (header s more : List ℕ) →
        more_lines_text (signatures_of C (answers number) phase) number place header s more
        ≡ timed_lines_text number place (length s)
        (drop (length ((message_reader C answers).reads phase number header s))
        ((message_reader C answers).reads phase number header (s ++ more))) }
    ensures closes { (C : Table) (answers : Answers) (phase : Phase)
        (number place : ℕ) (header s : List ℕ) →
        closing_text number place (lines_of_close (stage_of
        (read_message (signatures_of C (answers number) phase) header s)))
        ≡ closes_text number place ((message_reader C answers).closes phase number header s) }
    // The correspondent is told of what ends in octets: these ends are the marks that the octets
    // add to the message, with each table and whatever the ids answer.
    ensures told { (C : Table) (answer : Answer) (phase : Phase)
        (number : ℕ) (header s more : List ℕ) →
        header_ends phase number header s more ≡ map (header_end_at number header)
        (drop (length (message_marks (read_message (signatures_of C answer phase) header s)))
        (message_marks (read_message (signatures_of C answer phase) header (s ++ more)))) }
{}

/// No two lines of one octet of a message, with those of a close at it, have the same class. The
/// function has no body; it is called for its contract.
pub fn apart_laws()
    ensures { (C : Table) (answers : Answers) → HasDistinctClasses (message_reader C answers) }
{}
