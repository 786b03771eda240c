//! The laws of reading: what one or more octets do to the reading of a list, and what is noted of a
//! reading.

ghost use Rattle.std.specs.Prelude.{◌≡◌, ℕ, ◌+◌, ◌<◌, Bool, List, [], ◌∷◌, ◌++◌, length, flat_map};
ghost use Rattle.giop_sig.specs.Types.{Ty};
ghost use Rattle.giop_sig.specs.Fits.{IsFit};
ghost use Rattle.giop_decode.specs.ReadResult.{Coding, PathSegment, ValueAt, OpenPart, Leaf, Read, Short, lines_of, with_front};
ghost use Rattle.giop_decode.specs.Reading.{read, reading};
ghost use Rattle.giop_decode.specs.Begins.{start_outer, start_leaf};
ghost use Rattle.giop_decode.specs.ReadingSteps.{step, read_after_octet, resume_outer, root_step, root_after_octet, root_after_octets, read_after_octets, parts_after_lines, IsOctetResult};
ghost use Rattle.giop_decode.specs.Fits.{FitsIn, IsSoundReading, AllHoldOffset};
ghost use Rattle.giop_decode.specs.Noted.{noted_of};
ghost use Rattle.giop_decode.specs.NotedFromLines.{TextPiece, pieces_of, AreUnended, IsNotedOfReading};

/// The reading of a list depends on the parts that the reading of a front of it has begun and not
/// ended, and on the octets after that front. This function has no body and is called for its
/// contract.
pub fn reading_laws()
    // One more octet is one step on those parts.
    ensures step { (coding : Coding) (path : List PathSegment) (T : Ty) (at : ℕ)
        (s : List ℕ) (b : ℕ) →
        read coding path T at (s ++ b ∷ [])
        ≡ read_after_octet coding path (read coding path T at s) b }
    // More octets are as many steps: a reading may be left and resumed anywhere.
    ensures more { (coding : Coding) (path : List PathSegment) (T : Ty) (at : ℕ)
        (s t : List ℕ) →
        read coding path T at (s ++ t) ≡ read_after_octets coding path (read coding path T at s) t }
    // The lines of a longer list begin with those of a shorter one.
    ensures lines { (coding : Coding) (path : List PathSegment) (T : Ty) (at : ℕ) (s t : List ℕ) →
        (more : List ValueAt)
        × (lines_of (read coding path T at (s ++ t)) ≡ lines_of (read coding path T at s) ++ more) }
    // A step has at most one line, which is at its octet. It has none if the octet breaks a rule of
    // its own value; an octet that only ends an encapsulation too soon has the line of what it
    // completes.
    ensures octet { (coding : Coding) (path : List PathSegment) (outer : List OpenPart)
        (leaf : Leaf)
        (at b : ℕ) →
        IsOctetResult (at + 1) (step coding path outer leaf at b) }
    // If each part takes an octet, the parts that have begun before the first octet are the first
    // ones of their types.
    ensures begins { (d : ℕ) (coding : Coding) (path : List PathSegment) (T : Ty) (at : ℕ) →
        IsFit d T →
        read coding path T at [] ≡ Short [] at (start_outer T) (start_leaf T) }
    // The parts that have begun and not ended fit the type, each within the one before, and none of
    // their encapsulations has ended.
    ensures sound { (d : ℕ) (coding : Coding) (path : List PathSegment) (T : Ty) (at : ℕ)
        (s : List ℕ) →
        IsFit d T →
        IsSoundReading T (at + length s) (read coding path T at s) }
    // A step from any parts that fit, none of whose encapsulations has ended, leaves such parts.
    ensures kept { (d : ℕ) (coding : Coding) (path : List PathSegment) (T : Ty)
        (outer : List OpenPart)
        (leaf : Leaf) (at b : ℕ) → IsFit d T →
        FitsIn T outer leaf → AllHoldOffset at outer →
        IsSoundReading T (at + 1) (step coding path outer leaf at b) }
{}

/// What is noted of a reading depends on its lines: the first request id of a header, the last
/// enum, and the last string that is whole. This function has no body and is called for its
/// contract.
pub fn noting_laws()
    ensures left { (is_header : Bool) (coding : Coding) (path : List PathSegment) (T : Ty) (at : ℕ)
        (s : List ℕ) →
        IsNotedOfReading is_header (read coding path T at s)
        (noted_of is_header (read coding path T at s)) }
    // Lines have the pieces of at most one list of contents.
    ensures same { (contents others : List (List ℕ)) (begun other : List TextPiece) →
        AreUnended begun → AreUnended other →
        flat_map pieces_of contents ++ begun ≡ flat_map pieces_of others ++ other →
        contents ≡ others }
{}

/// What is true of a whole value, which ends before octets of no known type. This function has no
/// body and is called for its contract.
pub fn whole_laws()
    // One more octet is one step on the parts that have begun.
    ensures step { (coding : Coding) (path : List PathSegment) (T : Ty) (at : ℕ)
        (s : List ℕ) (b : ℕ) →
        reading coding path T at (s ++ b ∷ [])
        ≡ root_after_octet coding path (reading coding path T at s) b }
    // More octets are as many steps.
    ensures more { (coding : Coding) (path : List PathSegment) (T : Ty) (at : ℕ)
        (s t : List ℕ) →
        reading coding path T at (s ++ t)
        ≡ root_after_octets coding path (reading coding path T at s) t }
    // The lines of a longer list begin with those of a shorter one.
    ensures lines { (coding : Coding) (path : List PathSegment) (T : Ty) (at : ℕ) (s t : List ℕ) →
        (more : List ValueAt)
        × (lines_of (reading coding path T at (s ++ t))
        ≡ lines_of (reading coding path T at s) ++ more) }
    // A step has at most one line, which is at its octet.
    ensures octet { (coding : Coding) (path : List PathSegment) (outer : List OpenPart)
        (leaf : Leaf)
        (at b : ℕ) →
        IsOctetResult (at + 1) (root_step coding path outer leaf at b) }
    ensures begins { (d : ℕ) (coding : Coding) (path : List PathSegment) (T : Ty) (at : ℕ) →
        IsFit d T →
        reading coding path T at [] ≡ Short [] at (start_outer T) (start_leaf T) }
    ensures sound { (d : ℕ) (coding : Coding) (path : List PathSegment) (T : Ty) (at : ℕ)
        (s : List ℕ) →
        IsFit d T →
        IsSoundReading T (at + length s) (reading coding path T at s) }
    ensures kept { (d : ℕ) (coding : Coding) (path : List PathSegment) (T : Ty)
        (outer : List OpenPart)
        (leaf : Leaf) (at b : ℕ) → IsFit d T →
        FitsIn T outer leaf → AllHoldOffset at outer →
        IsSoundReading T (at + 1) (root_step coding path outer leaf at b) }
    // Readings of a list by two codings are the same if the orders are, and the phases at the octets
    // of the list.
    ensures same { (coding other : Coding) (path : List PathSegment) (T : Ty) (at : ℕ)
        (s : List ℕ) → coding.order ≡ other.order →
        ((here : ℕ) → here < at + length s → coding.phase here ≡ other.phase here) →
        reading coding path T at s ≡ reading other path T at s }
    // The lines of a part are heard by each part around it that tells what comes after it, and come
    // before what is read next.
    ensures heard { (coding : Coding) (path : List PathSegment) (outer : List OpenPart)
        (lines : List ValueAt) (r : Read) →
        resume_outer coding path outer (with_front lines r)
        ≡ with_front lines (resume_outer coding path (parts_after_lines lines outer) r) }
{}
