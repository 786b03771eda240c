//! The earlier line that declares the same name as a line.

ghost use Rattle.std.specs.Prelude.{◌≡◌, ◌<◌, ◌≤◌, ℕ, [], IfSome, IfNone, option_map};
ghost use Rattle.giop_sig_files.specs.Names.{first_line, after_line, line_at, word_before, name_after_word, declared_type, declared_name, is_operation, declare_same_name, DeclareSameName};

/// The first line of a text, and what follows it.
fn first_line(text: &[u8]) -> (&[u8], &[u8])
    ensures line { result.0.now ≡ first_line text.now }
    ensures after { result.1.now ≡ after_line text.now }
{
    match text.iter().position(|octet| *octet == b'\n') {
        None => (text, &[]),
        Some(end) => (&text[..end], &text[end + 1..]),
    }
}

/// The line of a text with this number, from 1.
fn line_at(text: &[u8], line: u32) -> &[u8]
    ensures { result.now ≡ line_at text.now line }
{
    let mut rest = text;
    for _ in 0..line.saturating_sub(1) {
        (_, rest) = first_line(rest);
    }
    first_line(rest).0
}

/// The word before the first octet that is `stop`.
#[tactic(auto, unfolding(crate::specs::Names::word_before))]
fn word_before(text: &[u8], stop: u8) -> Option<&[u8]>
    ensures { option_map (λ w. w.now) result ≡ word_before stop [] text.now }
{
    let mut start = 0;
    for end in 0..text.len() {
        if text[end] == stop {
            return Some(&text[start..end]);
        }
        if text[end] == b' ' {
            start = end + 1;
        }
    }
    None
}

/// The name in a line that begins with this word: what comes before the first octet that is `stop`.
#[tactic(auto, unfolding(crate::specs::Names::name_after_word))]
fn name_after_word<'a>(line: &'a [u8], word: &[u8], stop: u8) -> Option<&'a [u8]>
    ensures { option_map (λ w. w.now) result ≡ name_after_word word.now stop line.now }
{
    match line.strip_prefix(word) {
        None => None,
        Some(rest) => word_before(rest, stop),
    }
}

/// The name of the type that a line declares, if it declares one.
fn declared_type(line: &[u8]) -> Option<&[u8]>
    ensures { option_map (λ w. w.now) result ≡ declared_type line.now }
{
    name_after_word(line, b"struct ", b' ')
        .or(name_after_word(line, b"union ", b' '))
        .or(name_after_word(line, b"enum ", b' '))
}

/// The name that a line declares, if it declares one.
fn declared_name(line: &[u8]) -> Option<&[u8]>
    ensures { option_map (λ w. w.now) result ≡ declared_name line.now }
{
    name_after_word(line, b"operation ", b'(')
        .or(name_after_word(line, b"exception ", b' '))
        .or(declared_type(line))
        .or(name_after_word(line, b"key ", b' '))
}

/// Whether a line declares an operation.
fn is_operation(line: &[u8]) -> bool
    ensures { result ≡ is_operation line.now }
{
    line.starts_with(b"operation ")
}

/// Whether two lines declare the same name.
#[tactic(auto, unfolding(crate::specs::Names::declare_same_name))]
fn declare_same_name(above: &[u8], line: &[u8]) -> bool
    ensures { result ≡ declare_same_name above.now line.now }
{
    if is_operation(above) != is_operation(line) {
        return false;
    }
    match (declared_name(above), declared_name(line)) {
        (Some(one), Some(other)) => one == other,
        _ => false,
    }
}

/// The number of the first line before a line that declares the same name.
pub fn declared_above(text: &[u8], line: u32) -> Option<u32>
    ensures same { IfSome result (λ above. DeclareSameName text.now above line) }
    ensures above { IfSome result (λ above. (1 ≤ above) × (above < line)) }
    ensures first { IfSome result (λ above. (k : ℕ) → 1 ≤ k → k < above
        → DeclareSameName text.now k line → ⊥) }
    ensures none { IfNone result
        ((k : ℕ) → 1 ≤ k → k < line → DeclareSameName text.now k line → ⊥) }
{
    let declared = line_at(text, line);
    let mut rest = text;
    for above in 1..line {
        let (first, after) = first_line(rest);
        if declare_same_name(first, declared) {
            return Some(above);
        }
        rest = after;
    }
    None
}
