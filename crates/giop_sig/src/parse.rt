//! Reads a signature file (docs/FORMATS.md).
ghost use Rattle.std.specs.Prelude.{◌≡◌, ℕ, List, ◌+◌, ◌<◌, ◌≤◌, ◌↔◌, length, not, position, slice_index_or, IfOk, IfErr, OnOk};
ghost use Rattle.std.specs.Option.{is_some};
ghost use Rattle.giop_sig.specs.Builtin.{builtin_types};
ghost use Rattle.giop_sig.specs.AnyTypes.{first_types};
ghost use Rattle.giop_sig.specs.Grammar.{SignatureFile};
ghost use Rattle.giop_sig.specs.Scopes.{table};
ghost use Rattle.giop_sig.specs.Trees.{AreResolved};
ghost use Rattle.giop_sig.specs.Validity.{IsValid, Spells, SpellsUpTo, Refuses};
ghost use Rattle.giop_sig.specs.Outcomes.{Gives};
ghost use Rattle.giop_sig.specs.Repeats.{in_steps};
ghost use Rattle.giop_sig.specs.FileReading.{announcement_count, declaration_at, with_announced_left, resolved_if_declared, declarations_step, misplaced_after, version_at, version_line_at, file_at, text_too_long, IsFirstRefusal, IsFirstRefusalUpTo};

use crate::catalogue::Catalogue;
use crate::draft::{Draft, THIRD_VERSION};
use crate::parse_stop::ParseError;
use crate::read_calls::{key_at, operation_at};
use crate::read_enums::enumeration;
use crate::read_items::{exception_at, structure_at};
use crate::read_unions::union;
use crate::types::TypeId;
use giop_tokens::{
    Mark, SigFault, SigFaultKind, TokenError, fault_in, is_at_end, keyword, mark, misplaced,
    number, octets_left_at_token, word,
};
use std::alloc::Global;

/// How many octets a text may have.
const TEXT_MAX: usize = 1_048_576;
/// The versions of the format.
const FIRST_VERSION: u64 = 1;

const SECOND_VERSION: u8 = 2;

/// A declaration, of the kind that its first word says.
#[tactic(auto, unfolding(crate::specs::FileReading::declaration_at))]
fn declaration_at<'a>(
    alloc: Global,
    draft: &mut Draft,
    text: &'a [u8],
) -> Result<&'a [u8], ParseError>
    ensures { Gives (λ x. (draft.new, x.now)) result (declaration_at draft.old text.now) }
{
    let (name, rest) = word(text)?;
    if name == b"enum".as_slice() {
        enumeration(alloc, draft, rest)
    } else if name == b"struct".as_slice() {
        structure_at(alloc, draft, rest)
    } else if name == b"union".as_slice() {
        union(alloc, draft, rest)
    } else if name == b"exception".as_slice() {
        exception_at(alloc, draft, rest)
    } else if name == b"operation".as_slice() {
        operation_at(alloc, draft, rest)
    } else if draft.is_version_3() && name == b"key".as_slice() {
        key_at(draft, rest)
    } else {
        Err(ParseError::Refused(misplaced(text)))
    }
}

/// Adds how many octets are left from the name on in the declaration that a text begins with, if
/// the declaration announced it. `before` names were announced before it.
#[tactic(auto, unfolding(crate::specs::FileReading::with_announced_left))]
fn add_left_if_announced(
    before: usize,
    draft: &Draft,
    lefts: &mut Vec<usize>,
    text: &[u8],
) -> Result<(), ParseError>
    ensures { Gives (λ x. lefts.new.items) result
        (with_announced_left before (announcement_count draft.now) lefts.old.items text.now) }
{
    let (_, rest) = word(text)?;
    if before < draft.announcement_count() {
        lefts.push(octets_left_at_token(rest))?;
    }
    Ok(())
}

/// The end of the text, or one more declaration. Answers whether it was the end, and what comes
/// after.
#[tactic(auto, unfolding(crate::specs::FileReading::declarations_step))]
fn declarations_step<'a>(
    alloc: Global,
    draft: &mut Draft,
    lefts: &mut Vec<usize>,
    text: &'a [u8],
) -> Result<(bool, &'a [u8]), ParseError>
    ensures { Gives (λ x. (x.0, (draft.new, lefts.new.items, x.1.now))) result
        (declarations_step (draft.old, lefts.old.items, text.now)) }
{
    if is_at_end(text)? {
        return Ok((true, text));
    }
    let before = draft.announcement_count();
    let rest = declaration_at(alloc, draft, text)?;
    add_left_if_announced(before, draft, lefts, text)?;
    Ok((false, rest))
}

/// Declarations up to the end of the text, in at most this many steps. How many octets are left
/// from each name that they announce is added. Answers what comes after them.
fn declarations<'a>(
    alloc: Global,
    draft: &mut Draft,
    lefts: &mut Vec<usize>,
    steps: usize,
    text: &'a [u8],
) -> Result<&'a [u8], ParseError>
    ensures { Gives (λ x. (draft.new, lefts.new.items, x.now)) result
        (in_steps declarations_step misplaced_after steps
        (draft.old, lefts.old.items, text.now)) }
{
    let mut rest = text;
    for _ in 0..steps {
        let (over, after) = declarations_step(alloc, draft, lefts, rest)?;
        if over {
            return Ok(after);
        }
        rest = after;
    }
    Err(ParseError::Refused(misplaced(rest)))
}

/// The version of the format, which is at most `latest`.
#[tactic(auto, unfolding(crate::specs::FileReading::version_at))]
fn version_at(latest: u8, text: &[u8]) -> Result<(u8, &[u8]), ParseError>
    ensures { Gives (λ x. (x.0, x.1.now)) result (version_at latest text.now) }
{
    let (n, rest) = number(text)?;
    if n >= FIRST_VERSION && n <= u64::from(latest) {
        Ok((n as u8, rest))
    } else {
        Err(ParseError::Refused(misplaced(text)))
    }
}

/// What comes before the declarations: the version.
#[tactic(auto, unfolding(crate::specs::FileReading::version_line_at))]
fn version_line_at(latest: u8, text: &[u8]) -> Result<(u8, &[u8]), ParseError>
    ensures { Gives (λ x. (x.0, x.1.now)) result (version_line_at latest text.now) }
{
    let rest = keyword(text, b"signatures")?;
    let (version, rest) = version_at(latest, rest)?;
    let rest = mark(rest, Mark::Semicolon)?;
    Ok((version, rest))
}

/// The draft of a file whose version is at most `latest`.
#[tactic(auto, unfolding(crate::specs::FileReading::file_at))]
fn draft_of(alloc: Global, latest: u8, text: &[u8]) -> Result<Draft, ParseError>
    ensures gives { Gives (λ x. x) result (file_at latest text.now) }
    ensures settled { IfOk result (λ draft. AreResolved draft.table.types) }
{
    let (version, rest) = version_line_at(latest, text)?;
    let mut draft = Draft::new(alloc, version)?;
    let mut lefts = Vec::new(alloc);
    declarations(alloc, &mut draft, &mut lefts, text.len(), rest)?;
    resolve_sequences(alloc, &mut draft, lefts.as_slice())?;
    Ok(draft)
}

/// The end of the text. Each name that is announced must be declared.
#[tactic(auto, unfolding(crate::specs::FileReading::resolved_if_declared))]
fn resolve_sequences(alloc: Global, draft: &mut Draft, lefts: &[usize]) -> Result<(), ParseError>
    ensures gives { Gives (λ x. draft.new) result (resolved_if_declared draft.old lefts.now) }
    ensures settled { OnOk result (AreResolved draft.new.table.types) }
{
    let targets = draft.types_of_announced(alloc)?;
    match first_none(targets.as_slice()) {
        None => {
            draft.resolve_sequences(targets.as_slice());
            Ok(())
        }
        Some(i) => Err(ParseError::Refused(TokenError {
            kind: SigFaultKind::UnknownType,
            left: left_at(lefts, i),
        })),
    }
}

/// The index of the first type that isn't there.
fn first_none(types: &[Option<TypeId>]) -> Option<usize>
    ensures { result ≡ position (λ t. not (is_some t)) types.now }
{
    types.iter().position(|t| t.is_none())
}

/// How many octets are left from the name of an announcement on.
fn left_at(lefts: &[usize], i: usize) -> usize
    ensures { result ≡ slice_index_or lefts.now i 0 }
{
    match lefts.get(i) {
        Some(index) => *index,
        None => 0,
    }
}

/// A text has at most one table: whatever files it spells, if one of them is valid they all have
/// its table.
pub fn one_table()
    ensures { (latest : ℕ) (text : List ℕ) (f g : SignatureFile)
        → SpellsUpTo latest text f → IsValid f → SpellsUpTo latest text g → table f ≡ table g }
{}

impl Catalogue {
    /// The catalogue of a signature file: the types, operations and exceptions that its text
    /// declares, and the built-in types. A refusal has the first rule that is broken, and its line.
    /// No catalogue is made then.
    pub fn parse(alloc: Global, text: &[u8]) -> Result<Catalogue, SigFault>
        // The text spells a valid file, and this is its table.
        ensures ok { IfOk result (λ c.
            (file : SignatureFile) × Spells text.now file × IsValid file × (c ≡ table file)) }
        // It has at most as many types more than the built-in ones as the text has octets.
        ensures few { IfOk result (λ c. length c.types ≤ length builtin_types + length text.now) }
        // If the text spells a file, the refusal is that of a rule which one of its declarations
        // breaks, unless memory was refused.
        ensures err { (file : SignatureFile) → Spells text.now file
            → IfErr result (λ f. Refuses f.kind file) }
        // A text that is too long isn't read. Any other is refused at the first token that is
        // wrong, with its line. A refusal for memory alone has no line.
        ensures long { 1048576 < length text.now → result ≡ Err text_too_long }
        ensures first { length text.now ≤ 1048576 → IfErr result (λ f. IsFirstRefusal text.now f) }
        ensures memory { IfErr result (λ f. (f.line ≡ 0) ↔ (f.kind ≡ SigFaultKind.OutOfMemory)) }
    {
        Catalogue::parse_up_to(alloc, SECOND_VERSION, text)
    }

    /// The same for a file of version 1, 2 or 3. A file of version 3 may have what one of version 2
    /// has, and has more reserved words.
    pub fn parse_types(alloc: Global, text: &[u8]) -> Result<Catalogue, SigFault>
        ensures ok { IfOk result (λ c.
            (file : SignatureFile) × SpellsUpTo 3 text.now file × IsValid file
            × (c ≡ table file)) }
        ensures few { IfOk result (λ c. length c.types ≤ length (first_types 3) + length text.now) }
        ensures err { (file : SignatureFile) → SpellsUpTo 3 text.now file
            → IfErr result (λ f. Refuses f.kind file) }
        ensures long { 1048576 < length text.now → result ≡ Err text_too_long }
        ensures first { length text.now ≤ 1048576
            → IfErr result (λ f. IsFirstRefusalUpTo 3 text.now f) }
        ensures memory { IfErr result (λ f. (f.line ≡ 0) ↔ (f.kind ≡ SigFaultKind.OutOfMemory)) }
    {
        Catalogue::parse_up_to(alloc, THIRD_VERSION, text)
    }

    /// The same for a file whose version is at most `latest`.
    fn parse_up_to(alloc: Global, latest: u8, text: &[u8]) -> Result<Catalogue, SigFault>
        requires { latest ≤ 3 }
        ensures ok { IfOk result (λ c.
            (file : SignatureFile) × SpellsUpTo latest text.now file × IsValid file
            × (c ≡ table file)) }
        ensures few { IfOk result (λ c.
            length c.types ≤ length (first_types latest) + length text.now) }
        ensures err { (file : SignatureFile) → SpellsUpTo latest text.now file
            → IfErr result (λ f. Refuses f.kind file) }
        ensures long { 1048576 < length text.now → result ≡ Err text_too_long }
        ensures first { length text.now ≤ 1048576
            → IfErr result (λ f. IsFirstRefusalUpTo latest text.now f) }
        ensures memory { IfErr result (λ f. (f.line ≡ 0) ↔ (f.kind ≡ SigFaultKind.OutOfMemory)) }
    {
        if text.len() > TEXT_MAX {
            return Err(SigFault {
                line: 1,
                kind: SigFaultKind::Limit,
            });
        }
        match draft_of(alloc, latest, text) {
            Ok(draft) => {
                let catalogue = draft.into_catalogue();
                catalogue.laws();
                Ok(catalogue)
            }
            Err(ParseError::Memory) => Err(SigFault {
                line: 0,
                kind: SigFaultKind::OutOfMemory,
            }),
            Err(ParseError::Refused(refusal)) => Err(fault_in(text, refusal)),
        }
    }
}
