//! Request lists: which operation the replies with an id answer (docs/FORMATS.md).
ghost use Rattle.std.specs.Prelude.{◌≡◌, ℕ, Bool, ◌<◌, ◌≤◌, ◌^◌, List, length, map, Option, IsTrue, ◌↔◌, MatchOption, option_and_then, IfOk, IfErr, IfSome, ◌∷◌, [], nat_eq};
ghost use Rattle.std.specs.HashMap.{IsUnique};
ghost use Rattle.std.specs.Option.{option_copied, option_map};
ghost use Rattle.std.specs.Fmt.{decimal};
ghost use Rattle.giop_sig.specs.Table.{asked_number};
ghost use Rattle.giop_sig.specs.RequestList.{lines, words, IsName, IsAsked, IsEntry, IsEntryLine, line_of, Lists, IsRefusedAs, AgreesWithList, operations_by_id, kept_operation, with_found_operation, allows_third_word, same_asked, common_asked_by_id, Entry, merged_asked};
ghost use Rattle.giop_sig.specs.RequestViews.{words_view, asked_view};

use crate::catalogue::Catalogue;
use crate::draft::THIRD_VERSION;
use crate::fault::{ListFault, ListFaultKind};
use crate::types::OpId;
use indexmap::IndexMap;
use std::alloc::Global;
use std::marker::Model;

/// How many octets a name may have.
const NAME_MAX: usize = 128;
/// How many octets a text may have.
const TEXT_MAX: usize = 16_777_216;
/// How many entries a list may have.
const ENTRIES_MAX: u32 = 65_536;

/// The first line, and the rest.
fn first_line(text: &[u8]) -> Option<(&[u8], &[u8])>
    ensures lines { MatchOption result (text.now ≡ [])
        (λ x. lines text.now ≡ x.0.now ∷ lines x.1.now) }
    ensures shorter { IfSome result (λ x. length x.1.now < length text.now) }
{
    if text.is_empty() {
        return None;
    }
    match text.iter().position(|b| *b == b'\n') {
        None => Some((text, &[])),
        Some(end) => Some((&text[..end], &text[end + 1..])),
    }
}

/// The number below 2^32 that is spelled like this in decimal.
fn decimal_number(digits: &[u8]) -> Option<u32>
    ensures { MatchOption result
        ((n : ℕ) → n < 2 ^ 32 → digits.now ≡ decimal n → ⊥)
        (λ n. digits.now ≡ decimal n) }
{
    if digits.is_empty() || digits.len() > 10 {
        return None;
    }
    if digits.len() > 1 && digits[0] == b'0' {
        return None;
    }
    let mut n: u64 = 0;
    for d in digits {
        if !d.is_ascii_digit() {
            return None;
        }
        n = n * 10 + u64::from(*d - b'0');
    }
    u32::try_from(n).ok()
}

/// Whether this can be a name or a repository id: 1 to 128 printable octets of ASCII without a
/// space.
fn is_name(name: &[u8]) -> bool
    ensures { IsTrue result ↔ IsName name.now }
{
    !name.is_empty() && name.len() <= NAME_MAX && name.iter().all(|b| *b >= 33 && *b <= 126)
}

/// The words of an entry after its id: the name of an operation, and perhaps the repository id of
/// an interface.
#[derive(Clone, Copy)]
struct Words<'a> {
    name: &'a [u8],
    interface: Option<&'a [u8]>,
}

/// The words of a text, with a space between two of them. `third_word` says whether there may be two.
fn words_of(text: &[u8], third_word: bool) -> Option<Words<'_>>
    ensures { MatchOption result
        ((name : List ℕ) (id : Option (List ℕ)) → text.now ≡ words name id
        → IsAsked third_word (record { name = name; interface = id }) → ⊥)
        (λ w. IsAsked third_word (words_view w)
        × (text.now ≡ words (words_view w).name (words_view w).interface)) }
{
    match text.iter().position(|b| *b == b' ') {
        None => {
            if !is_name(text) {
                return None;
            }
            Some(Words {
                name: text,
                interface: None,
            })
        }
        Some(space) => {
            let (name, id) = (&text[..space], &text[space + 1..]);
            if !(third_word && is_name(name) && is_name(id)) {
                return None;
            }
            Some(Words {
                name,
                interface: Some(id),
            })
        }
    }
}

/// The id and the words of the entry in a line. `third_word` says whether there may be an interface.
fn line_entry(line: &[u8], third_word: bool) -> Option<(u32, Words<'_>)>
    ensures { MatchOption result
        (¬ (IsEntryLine third_word line.now))
        (λ x. IsEntry third_word (record { id = x.0; asked = words_view x.1 })
        × (line.now ≡ line_of (record { id = x.0; asked = words_view x.1 }))) }
{
    let space = line.iter().position(|b| *b == b' ')?;
    let id = decimal_number(&line[..space])?;
    Some((id, words_of(&line[space + 1..], third_word)?))
}

/// Whether these are the same words.
fn have_same_words(a: &Words<'_>, b: &Words<'_>) -> bool
    ensures { result ≡ same_asked (words_view a.now) (words_view b.now) }
{
    match (a.interface, b.interface) {
        (None, None) => a.name == b.name,
        (Some(x), Some(y)) => a.name == b.name && x == y,
        _ => false,
    }
}

/// The words that all entries of an id have, after one more entry. None if they differ.
fn merged_asked<'a>(kept: Option<&Option<Words<'a>>>, words: Words<'a>) -> Option<Words<'a>>
    ensures { option_map words_view result
        ≡ merged_asked (option_map (option_map words_view) (option_copied kept.entry))
        (words_view words.entry) }
{
    match kept {
        None => Some(words),
        Some(None) => None,
        Some(Some(kept)) => {
            if have_same_words(kept, &words) {
                Some(*kept)
            } else {
                None
            }
        }
    }
}

/// A text is at most one list.
pub fn one_list()
    ensures { (third_word : Bool) (text : List ℕ) (es fs : List Entry)
        → Lists third_word text es → Lists third_word text fs → es ≡ fs }
{}

/// Which operation the replies with an id answer.
#[derive(Drop)]
pub struct Requests {
    table: IndexMap<u32, Option<OpId>>,
}

impl Model for Requests {
    ghost use Rattle.std.specs.Prelude.{List, ℕ, Option};
    ghost use Rattle.giop_sig.specs.declared.types.OpId.{OpId};

    ghost Value = { List (ℕ × Option OpId) };

    ghost view = { λ a. a.table.entries };

    ghost use Rattle.std.specs.Prelude.{◌≤◌, length};

    ghost invariant = { λ a. length a.table.entries ≤ 65536 };
}

impl Requests {
    /// Reads a list. The operations and interfaces are looked up in `catalogue`; the list may name
    /// others. A line may have a third word if the version of the catalogue is 3.
    pub fn parse(alloc: Global, text: &[u8], catalogue: &Catalogue) -> Result<Requests, ListFault>
        // The operations are those of the list in the text.
        ensures ok { IfOk result (λ kept.
            (es : List Entry) × Lists (allows_third_word catalogue.now) text.now es
            × AgreesWithList (asked_number catalogue.now) es kept) }
        // A refusal is at the first line that is wrong, unless memory was refused.
        ensures err { IfErr result (λ f.
            IsRefusedAs (allows_third_word catalogue.now) text.now f.line f.kind) }
        // The operations depend on the entries alone, so that a list that is read again gives the
        // same.
        ensures same { (es : List Entry) → Lists (allows_third_word catalogue.now) text.now es
            → IfOk result (λ kept. kept ≡ operations_by_id (asked_number catalogue.now) es) }
        // A list is refused only if memory is.
        ensures only { (es : List Entry) → Lists (allows_third_word catalogue.now) text.now es
            → IfErr result (λ f. f.kind ≡ ListFaultKind.OutOfMemory) }
    {
        read_list(alloc, text, catalogue)
    }

    /// The operation of an id: all entries of the id have the same name and the same interface or
    /// none, and the catalogue has this operation.
    pub fn operation(&self, id: u32) -> Option<OpId>
        ensures { result ≡ kept_operation self.now id }
    {
        *self.table.get(&id)?
    }

    /// How many different ids there are.
    pub fn count(&self) -> u32
        ensures { result ≡ length self.now }
    {
        self.table.len() as u32
    }
}

/// Reads a list.
fn read_list(alloc: Global, text: &[u8], catalogue: &Catalogue) -> Result<Requests, ListFault>
    ensures ok { IfOk result (λ kept.
        (es : List Entry) × Lists (allows_third_word catalogue.now) text.now es
        × AgreesWithList (asked_number catalogue.now) es kept
        × (kept ≡ operations_by_id (asked_number catalogue.now) es)) }
    ensures err { IfErr result (λ f. IsRefusedAs
        (allows_third_word catalogue.now) text.now f.line f.kind) }
{
    let asked = read_lines(alloc, text, catalogue.version() == THIRD_VERSION)?;
    let table = operations_of_ids(alloc, &asked, catalogue)?;
    Ok(Requests { table })
}

/// Reads a list line by line. Answers the words for each id.
fn read_lines(
    alloc: Global,
    text: &[u8],
    third_word: bool,
) -> Result<IndexMap<u32, Option<Words<'_>>>, ListFault>
    ensures ok { IfOk result (λ asked. (es : List Entry) × Lists third_word text.now es
        × (map asked_view asked.entries ≡ common_asked_by_id es)) }
    ensures unique { IfOk result (λ asked. IsUnique nat_eq asked) }
    ensures err { IfErr result (λ f. IsRefusedAs third_word text.now f.line f.kind) }
{
    if text.len() > TEXT_MAX {
        return Err(ListFault {
            line: 1,
            kind: ListFaultKind::Limit,
        });
    }
    let mut asked: IndexMap<u32, Option<Words<'_>>> = IndexMap::new(alloc);
    let mut rest = text;
    let mut count: u32 = 0;
    while let Some((line, after)) = first_line(rest) {
        let Some((id, words)) = line_entry(line, third_word) else {
            return Err(ListFault {
                line: count + 1,
                kind: ListFaultKind::Syntax,
            });
        };
        if count == ENTRIES_MAX {
            return Err(ListFault {
                line: count + 1,
                kind: ListFaultKind::Limit,
            });
        }
        let one = merged_asked(asked.get(&id), words);
        asked.insert(id, one)?;
        count += 1;
        rest = after;
    }
    Ok(asked)
}

/// The operation with these words, if there are words.
fn operation_with_words(catalogue: &Catalogue, words: Option<Words<'_>>) -> Option<OpId>
    ensures { option_map (λ o. o.0) result
        ≡ option_and_then (λ a. asked_number catalogue.now a.name a.interface)
        (option_map words_view words.entry) }
{
    let words = words?;
    let interface = match words.interface {
        None => None,
        Some(id) => catalogue.named_interface(id),
    };
    catalogue.operation_for(words.name, interface)
}

/// Looks up the operation of each id.
fn operations_of_ids(
    alloc: Global,
    asked: &IndexMap<u32, Option<Words<'_>>>,
    catalogue: &Catalogue,
) -> Result<IndexMap<u32, Option<OpId>>, ListFault>
    ensures ok { IfOk result (λ table. table.entries
        ≡ map (with_found_operation (asked_number catalogue.now))
        (map asked_view asked.now.entries)) }
    ensures err { IfErr result (λ f. (f.line ≡ 0) × (f.kind ≡ ListFaultKind.OutOfMemory)) }
{
    let mut table = IndexMap::new(alloc);
    for (id, words) in asked.iter() {
        table.insert(*id, operation_with_words(catalogue, *words))?;
    }
    Ok(table)
}
