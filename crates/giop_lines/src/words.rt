//! The front, the end and the words of a text.

ghost use Rattle.std.specs.Prelude.{◌≡◌, List, ℕ, ◌++◌, codes, MatchOption, IfSome};
ghost use Rattle.giop_print.specs.Lines.{more_word};

/// What follows these octets, if they are at the front of a text.
pub fn after<'a>(text: &'a [u8], front: &[u8]) -> Option<&'a [u8]>
    ensures { MatchOption result ((rest : List ℕ) → text.now ≡ front.now ++ rest → ⊥)
        (λ rest. text.now ≡ front.now ++ rest.now) }
{
    text.strip_prefix(front)
}

/// What comes before these octets, if they are at the end of a text.
pub fn before<'a>(text: &'a [u8], end: &[u8]) -> Option<&'a [u8]>
    ensures { MatchOption result ((rest : List ℕ) → text.now ≡ rest ++ end.now → ⊥)
        (λ rest. text.now ≡ rest.now ++ end.now) }
{
    text.strip_suffix(end)
}

/// What comes before the first space of a text, and what follows the space.
pub fn split_at_space(text: &[u8]) -> Option<(&[u8], &[u8])>
    ensures { IfSome result (λ w. text.now ≡ w.0.now ++ (codes " " ++ w.1.now)) }
{
    for i in 0..text.len() {
        if text[i] == b' ' {
            return Some((&text[..i], &text[i + 1..]));
        }
    }
    None
}

/// What comes before the first space of a text, and what follows the space; or the whole text if it has no space.
pub fn split_at_space_if_any(text: &[u8]) -> (&[u8], Option<&[u8]>)
    ensures { MatchOption result.1 (text.now ≡ result.0.now)
        (λ rest. text.now ≡ result.0.now ++ (codes " " ++ rest.now)) }
{
    match split_at_space(text) {
        Some((front, rest)) => (front, Some(rest)),
        None => (text, None),
    }
}

/// A text without the ` more` that it may end with, and whether it does.
pub fn without_more(text: &[u8]) -> (&[u8], bool)
    ensures { text.now ≡ result.0.now ++ more_word result.1 }
{
    match before(text, b" more") {
        Some(rest) => (rest, true),
        None => (text, false),
    }
}
