//! Numbers with a mark that are kinds of a TypeCode, and their words.

ghost use Rattle.std.specs.Prelude.{◌≡◌, ◌≤◌, length, map, slice_get, IfSome};
ghost use Rattle.std.specs.Option.{option_map};
ghost use Rattle.giop_sig.specs.Kinds.{is_kind, kind_word, marked_word};

/// The kind of a TypeCode that refers to an earlier one.
const INDIRECTION: u32 = u32::MAX;

/// The words of the kinds, from kind 0 on (CDR Transfer Syntax, TypeCode).
const WORDS: [&[u8]; 37] = [
    b"tk_null",
    b"tk_void",
    b"tk_short",
    b"tk_long",
    b"tk_ushort",
    b"tk_ulong",
    b"tk_float",
    b"tk_double",
    b"tk_boolean",
    b"tk_char",
    b"tk_octet",
    b"tk_any",
    b"tk_TypeCode",
    b"tk_Principal",
    b"tk_objref",
    b"tk_struct",
    b"tk_union",
    b"tk_enum",
    b"tk_string",
    b"tk_sequence",
    b"tk_array",
    b"tk_alias",
    b"tk_except",
    b"tk_longlong",
    b"tk_ulonglong",
    b"tk_longdouble",
    b"tk_wchar",
    b"tk_wstring",
    b"tk_fixed",
    b"tk_value",
    b"tk_value_box",
    b"tk_native",
    b"tk_abstract_interface",
    b"tk_local_interface",
    b"tk_component",
    b"tk_home",
    b"tk_event",
];

/// Whether a number with this mark is a kind. Mark 0 is that of a kind that tells the type of a
/// value, and mark 2 of any other kind. A number with mark 1 is the bound of a sequence, and one
/// with mark 3 to 6 may have a name.
pub fn is_kind(mark: u32) -> bool
    ensures { result ≡ is_kind mark }
{
    mark == 0 || mark == 2
}

/// The word of a number with this mark. None if it isn't a kind, or a kind without a word.
pub fn kind_word(mark: u32, n: u32) -> Option<&'static [u8]>
    ensures word { option_map (λ x. x.now) result ≡ marked_word mark n }
    ensures short { IfSome result (λ x. length x.now ≤ 64) }
{
    if is_kind(mark) { word_of_kind(n) } else { None }
}

/// The word of a kind.
fn word_of_kind(n: u32) -> Option<&'static [u8]>
    ensures { option_map (λ x. x.now) result ≡ kind_word n }
{
    if n == INDIRECTION {
        Some(b"indirection")
    } else {
        word_at_index(&WORDS, n)
    }
}

/// The word at an index, if there is one.
fn word_at_index(words: &[&'static [u8]], index: u32) -> Option<&'static [u8]>
    ensures { option_map (λ x. x.now) result ≡ slice_get (map (λ w. w.now) words.now) index }
{
    let index = index as usize;
    if index < words.len() {
        Some(words[index])
    } else {
        None
    }
}
