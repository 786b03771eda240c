//! Paths: a root, and then a piece for each part on the way (docs/FORMATS.md, Values).

ghost use Rattle.std.specs.Prelude.{◌≡◌, ◌≤◌, ◌++◌, codes, true, length, IfSome};
ghost use Rattle.std.specs.List.{list_all, prefix_len};
ghost use Rattle.giop_lines.specs.Names.{is_name_octet};
ghost use Rattle.giop_lines.specs.Paths.{is_part_border, part_text, IsRoot, IsPartAfterRoot, IsFirstPart, IsPath};

use crate::names::{is_member_name_of_octets, is_name_octet};
use crate::numbers::ulong;
use crate::words::after;

/// The greatest number of parts after the root of a path.
const PARTS_MAX: u32 = 24;

/// A part of a path.
#[derive(Clone, Copy)]
pub enum PathPart<'a> {
    /// `header`, `exception` or `body`. A path begins with one of these.
    Root(&'a [u8]),
    /// The name of a member, without its dot.
    Name(&'a [u8]),
    /// The number of an element, from 0.
    Index(u32),
}

/// How many octets at the front are letters, digits or `_`.
fn name_len(text: &[u8]) -> usize
    ensures len { result ≡ prefix_len is_name_octet text.now }
    ensures bound { result ≤ length text.now }
{
    for (i, b) in text.iter().enumerate() {
        if !is_name_octet(*b) {
            return i;
        }
    }
    text.len()
}

/// The letters, digits and `_` at the front of a text, and what follows them.
fn name_octets_and_rest(text: &[u8]) -> (&[u8], &[u8])
    ensures spelled { text.now ≡ result.0.now ++ result.1.now }
    ensures letters { list_all is_name_octet result.0.now ≡ true }
{
    text.split_at(name_len(text))
}

/// Whether a path ends here, or its next part begins here.
fn is_part_border(text: &[u8]) -> bool
    ensures { result ≡ is_part_border text.now }
{
    match text {
        [] => true,
        [first, ..] => *first == b'.' || *first == b'[',
    }
}

/// The first part of a path, or of what follows another part; and what follows it.
pub fn first_part(path: &[u8]) -> Option<(PathPart<'_>, &[u8])>
    ensures { IsFirstPart path.now result }
{
    let (part, rest) = match split_root(path) {
        Some((word, rest)) => (PathPart::Root(word), rest),
        None => part_after_root(path)?,
    };
    if is_part_border(rest) {
        Some((part, rest))
    } else {
        None
    }
}

/// The part at the front of a text, if that isn't a root, and what follows it.
fn part_after_root(text: &[u8]) -> Option<(PathPart<'_>, &[u8])>
    ensures { IfSome result (λ f. IsPartAfterRoot f.0 × (text.now ≡ part_text f.0 ++ f.1.now)) }
{
    match text {
        [b'.', behind @ ..] => member_part(behind),
        [b'[', behind @ ..] => element_part(behind),
        _ => None,
    }
}

/// The name of a member, after its dot.
fn member_part(text: &[u8]) -> Option<(PathPart<'_>, &[u8])>
    ensures { IfSome result (λ f. IsPartAfterRoot f.0
        × (codes "." ++ text.now ≡ part_text f.0 ++ f.1.now)) }
{
    let (name, rest) = name_octets_and_rest(text);
    if is_member_name_of_octets(name) {
        Some((PathPart::Name(name), rest))
    } else {
        None
    }
}

/// The number of an element, after its bracket.
fn element_part(text: &[u8]) -> Option<(PathPart<'_>, &[u8])>
    ensures { IfSome result (λ f. IsPartAfterRoot f.0
        × (codes "[" ++ text.now ≡ part_text f.0 ++ f.1.now)) }
{
    let (digits, behind) = name_octets_and_rest(text);
    let rest = after(behind, b"]")?;
    Some((PathPart::Index(ulong(digits)?), rest))
}

/// The root at the front of a text, and what follows it.
fn split_root(text: &[u8]) -> Option<(&[u8], &[u8])>
    ensures root { IfSome result (λ r. IsRoot r.0.now) }
    ensures spelled { IfSome result (λ r. text.now ≡ r.0.now ++ r.1.now) }
{
    if let Some(rest) = after(text, b"header") {
        return Some((b"header", rest));
    }
    if let Some(rest) = after(text, b"body") {
        return Some((b"body", rest));
    }
    Some((b"exception", after(text, b"exception")?))
}

/// The path before the first space of a text, and what follows the space.
pub fn path_before_space(text: &[u8]) -> Option<(&[u8], &[u8])>
    ensures path { IfSome result (λ p. IsPath p.0.now) }
    ensures spelled { IfSome result (λ p. text.now ≡ p.0.now ++ (codes " " ++ p.1.now)) }
{
    let (_, mut rest) = split_root(text)?;
    for _part in 0..=PARTS_MAX {
        if let [b' ', behind @ ..] = rest {
            return Some((&text[..text.len() - rest.len()], behind));
        }
        let (_, next) = part_after_root(rest)?;
        rest = next;
    }
    None
}
