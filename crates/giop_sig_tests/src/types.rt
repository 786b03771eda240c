//! What a catalogue tells of its types and operations, as rows of a text: what is asked, `|`, and what is told.
//!
//! A type is named by what has it: `header MINOR KIND`, `fixed NAME`, `request OPERATION`, `reply OPERATION` or
//! `exception ID`. After each `/` stands the place of one of its parts, or `switch` for the type of its discriminator.
//! Told of it are its members, cases or tagged parts in order, each with the outermost form of its type, and with `wide`
//! in front if that has wide text; `none` where there is no such type. With a word in front, a type is asked what a
//! discriminator selects (`signed NUMBER` or `unsigned NUMBER`), what an enum's number is called (`name NUMBER`), and
//! whether the anys of a message have room for it (`minor NUMBER`: `room` or `none`). `operation NAME` asks for an
//! operation's number, and `version` for that of the file.
ghost use Rattle.std.specs.Prelude.{ℕ, ◌<◌, length};
ghost use Rattle.giop_sig.specs.Types.{shape_in, HasMember, HasIndex};
ghost use Rattle.giop_sig.specs.Trees.{tree};

use crate::expecting::expect;
use crate::rows::are_numbers;
use giop_cdr::{Number, Prim};
use giop_print::{OutFault, Sheet, put_all};
use giop_sig::{Catalogue, Fixed, OpId, Selected, Shape, TypeId};
use std::process::Abort;

/// The word of a primitive in a signature file.
fn word_of(prim: Prim) -> &'static [u8] {
    match prim {
        Prim::Octet => b"octet",
        Prim::Char => b"char",
        Prim::Boolean => b"boolean",
        Prim::Short => b"short",
        Prim::UShort => b"ushort",
        Prim::Long => b"long",
        Prim::ULong => b"ulong",
        Prim::LongLong => b"longlong",
        Prim::ULongLong => b"ulonglong",
        Prim::Float => b"float",
        Prim::Double => b"double",
    }
}

/// How a number with a mark reads.
fn mark_word(mark: u32) -> &'static [u8] {
    match mark {
        3 => b"context-id",
        4 => b"profile-tag",
        5 => b"code-set",
        6 => b"minor-code",
        _ => b"marked",
    }
}

/// Adds the names of an enum.
fn add_names(catalogue: &Catalogue, t: TypeId, count: u32, row: &mut Sheet) -> Result<(), OutFault>
    requires { t.0 < length catalogue.now.types }
{
    put_all(row, b"enum")?;
    for number in 0..count {
        put_all(row, b" ")?;
        put_all(row, catalogue.enum_name(t, number).unwrap_or(b"?"))?;
    }
    Ok(())
}

/// Adds how a type reads by its outermost form; an enum by its names.
fn add_kind(catalogue: &Catalogue, t: TypeId, row: &mut Sheet) -> Result<(), OutFault>
    requires { t.0 < length catalogue.now.types }
{
    let word: &[u8] = match catalogue.shape(t) {
        Shape::Enumeration(count) => return add_names(catalogue, t, count, row),
        Shape::Prim(prim) => word_of(prim),
        Shape::Text(_) => b"string",
        Shape::Octets(_) => b"octets",
        Shape::Members(_) => b"struct",
        Shape::Union(_) => b"union",
        Shape::Sequence(Some(3)) => b"sequence of at most 3",
        Shape::Sequence(_) => b"sequence",
        Shape::Array(2) => b"array of 2",
        Shape::Array(3) => b"array of 3",
        Shape::Array(_) => b"array",
        Shape::Encapsulation => b"encapsulation",
        Shape::Tagged => b"tagged",
        Shape::Marked(mark) => mark_word(mark),
        Shape::Led => b"led",
        Shape::Recursive(Some(3)) => b"recursive sequence of at most 3",
        Shape::Recursive(_) => b"recursive sequence",
        Shape::WideText => b"string",
        Shape::WideChar => b"char",
    };
    if catalogue.has_wide_text(t) {
        put_all(row, b"wide ")?;
    }
    put_all(row, word)
}

fn add_parts(catalogue: &Catalogue, t: TypeId, count: u32, row: &mut Sheet) -> Result<(), OutFault>
    requires known { t.0 < length catalogue.now.types }
    requires named { (i : ℕ) → i < count → HasMember (shape_in (tree catalogue.now t.0)) i }
    requires place { (i : ℕ) → i < count → HasIndex (shape_in (tree catalogue.now t.0)) i }
{
    for place in 0..count {
        if place > 0 {
            put_all(row, b", ")?;
        }
        let name = catalogue.part_name(t, place);
        put_all(row, name)?;
        put_all(row, b" ")?;
        let dotted = catalogue.dotted_name(t, place);
        if dotted[15] != b'.' || &dotted[16..] != name {
            put_all(row, b"not dotted ")?;
        }
        add_kind(catalogue, catalogue.part(t, place), row)?;
    }
    Ok(())
}

/// Adds the members, cases or tagged parts of a type.
fn add_row(catalogue: &Catalogue, t: TypeId, row: &mut Sheet) -> Result<(), OutFault>
    requires { t.0 < length catalogue.now.types }
{
    match catalogue.shape(t) {
        Shape::Members(count) => add_parts(catalogue, t, count, row),
        Shape::Union(count) => add_parts(catalogue, t, count, row),
        Shape::Tagged => add_parts(catalogue, t, 3, row),
        _ => add_kind(catalogue, t, row),
    }
}

/// Whether a type has these members, cases or tagged parts.
fn is_row(catalogue: &Catalogue, t: TypeId, want: &str) -> bool
    requires { t.0 < length catalogue.now.types }
{
    let mut room = [0; 512];
    let mut row = Sheet::new(&mut room);
    let is_added = add_row(catalogue, t, &mut row).is_ok();
    is_added && row.held() == want.as_bytes()
}

/// The type of a header, by its minor version and its message type.
fn header_of(catalogue: &Catalogue, numbers: &str) -> Option<TypeId> {
    let (minor, kind) = numbers.split_once(' ')?;
    let minor = u8::from_str_radix(minor, 10).ok()?;
    let kind = u8::from_str_radix(kind, 10).ok()?;
    catalogue.header(minor, kind)
}

fn fixed_of(name: &str) -> Option<Fixed> {
    match name {
        "exception-id" => Some(Fixed::ExceptionId),
        "system-exception" => Some(Fixed::SystemException),
        "forward" => Some(Fixed::Forward),
        "addressing" => Some(Fixed::Addressing),
        _ => None,
    }
}

/// The type that is named by what has it.
fn root_of(catalogue: &Catalogue, words: &str) -> Option<TypeId> {
    let (form, name) = words.split_once(' ')?;
    match form {
        "header" => header_of(catalogue, name),
        "fixed" => Some(catalogue.fixed(fixed_of(name)?)),
        "request" => Some(catalogue.request_of(catalogue.operation(name.as_bytes())?)),
        "reply" => Some(catalogue.reply_of(catalogue.operation(name.as_bytes())?)),
        "exception" => catalogue.exception(name.as_bytes()),
        _ => None,
    }
}

/// The type of a discriminator.
fn switch_of(catalogue: &Catalogue, t: TypeId) -> Option<TypeId>
    requires { t.0 < length catalogue.now.types }
{
    match catalogue.shape(t) {
        Shape::Union(_) => Some(catalogue.switch_type(t)),
        Shape::Tagged => Some(catalogue.switch_type(t)),
        _ => None,
    }
}

/// The part at a place.
fn part_of(catalogue: &Catalogue, t: TypeId, place: u32) -> Option<TypeId>
    requires { t.0 < length catalogue.now.types }
{
    let is_placed = match catalogue.shape(t) {
        Shape::Members(count) => place < count,
        Shape::Union(count) => place < count,
        Shape::Tagged => place < 3,
        Shape::Sequence(_) => true,
        Shape::Recursive(_) => true,
        Shape::Array(_) => true,
        Shape::Encapsulation => true,
        _ => false,
    };
    if is_placed {
        Some(catalogue.part(t, place))
    } else {
        None
    }
}

/// The type at a step from another one.
fn step_of(catalogue: &Catalogue, t: TypeId, step: &str) -> Option<TypeId> {
    if !catalogue.has(t) {
        return None;
    }
    match u32::from_str_radix(step, 10) {
        Ok(place) => part_of(catalogue, t, place),
        Err(_) if step == "switch" => switch_of(catalogue, t),
        Err(_) => None,
    }
}

/// The type that is named by what has it and by the steps from there.
fn type_of(catalogue: &Catalogue, words: &str) -> Option<TypeId> {
    let mut steps = words.split('/');
    let mut t = root_of(catalogue, steps.next()?)?;
    for step in steps {
        t = step_of(catalogue, t, step)?;
    }
    Some(t)
}

fn is_type(catalogue: &Catalogue, words: &str, want: &str) -> bool {
    match type_of(catalogue, words) {
        Some(t) => catalogue.has(t) && is_row(catalogue, t, want),
        None => want == "none",
    }
}

fn is_operation(operation: Option<OpId>, want: &str) -> bool {
    match operation {
        Some(id) => are_numbers(&[id.0], want),
        None => want == "none",
    }
}

/// Whether a type's discriminator selects this: `case PLACE`, `refused` or `nothing`.
fn selects(catalogue: &Catalogue, words: &str, number: Number, want: &str) -> bool {
    let Some(t) = type_of(catalogue, words) else {
        return false;
    };
    if !catalogue.has(t) {
        return false;
    }
    match catalogue.select(t, number) {
        Selected::Case(place) => are_numbers(&[place], want.strip_prefix("case ").unwrap_or("")),
        Selected::Refused => want == "refused",
        Selected::Nothing => want == "nothing",
    }
}

/// Whether a number of an enum is called so.
fn is_called(catalogue: &Catalogue, words: &str, number: u32, want: &str) -> bool {
    match type_of(catalogue, words) {
        Some(t) if catalogue.has(t) => {
            catalogue.enum_name(t, number).unwrap_or(b"none") == want.as_bytes()
        }
        _ => false,
    }
}

/// Whether a type has room in the anys of a message of this minor version.
fn has_room(catalogue: &Catalogue, words: &str, minor: u32, want: &str) -> bool {
    match type_of(catalogue, words) {
        Some(t) => catalogue.seen(minor < 2).can_be_value(t, 24) == (want == "room"),
        None => false,
    }
}

/// Whether the elements of a sequence have room, if so much is left for them.
fn elements_fit(catalogue: &Catalogue, words: &str, left: u32, want: &str) -> bool {
    match type_of(catalogue, words) {
        Some(t) if catalogue.has(t) => {
            catalogue.seen(false).elements_fit(t, left.min(24) as u8) == (want == "room")
        }
        _ => false,
    }
}

/// Whether a catalogue tells this of what is asked with a number in front of a type.
fn is_told_by_number(catalogue: &Catalogue, form: &str, asked: &str, want: &str) -> Option<bool> {
    let (number, words) = asked.split_once(' ')?;
    match form {
        "signed" => {
            let number = Number::Signed(i64::from_str_radix(number, 10).ok()?);
            Some(selects(catalogue, words, number, want))
        }
        "unsigned" => {
            let number = Number::Unsigned(u64::from_str_radix(number, 10).ok()?);
            Some(selects(catalogue, words, number, want))
        }
        "name" => {
            let number = u32::from_str_radix(number, 10).ok()?;
            Some(is_called(catalogue, words, number, want))
        }
        "minor" => {
            let minor = u32::from_str_radix(number, 10).ok()?;
            Some(has_room(catalogue, words, minor, want))
        }
        "left" => {
            let left = u32::from_str_radix(number, 10).ok()?;
            Some(elements_fit(catalogue, words, left, want))
        }
        _ => None,
    }
}

/// Whether a catalogue tells this of what is asked.
fn is_told(catalogue: &Catalogue, asked: &str, want: &str) -> bool {
    let (form, words) = asked.split_once(' ').unwrap_or(("", asked));
    if asked == "version" {
        return are_numbers(&[u32::from(catalogue.version())], want);
    }
    if form == "operation" {
        return is_operation(catalogue.operation(words.as_bytes()), want);
    }
    match is_told_by_number(catalogue, form, words, want) {
        Some(is_right) => is_right,
        None => is_type(catalogue, asked, want),
    }
}

/// Expects of a catalogue what the rows say.
pub fn expect_rows(rt: &impl Abort, catalogue: &Catalogue, rows: &str) {
    for row in rows.split('\n') {
        let is_wanted = match row.split_once('|') {
            Some((asked, want)) => is_told(catalogue, asked, want),
            None => false,
        };
        expect(rt, is_wanted, row);
    }
}
