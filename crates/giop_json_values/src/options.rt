//! What a user may choose about how values are written.

/// How an octet of a text is written if it isn't printable ASCII.
#[derive(Clone, Copy, Debug, Drop, PartialEq, Eq)]
pub enum Characters {
    /// As the line has it: `\xHH`.
    Escapes,
    /// As the character that it is in ISO 8859-1.
    Latin1,
    /// As a part of a character in UTF-8.
    Utf8,
}

/// What a user may choose about how values are written.
#[derive(Clone, Copy, Debug, Drop)]
pub struct Options {
    /// How texts are written.
    pub characters: Characters,
    /// Whether a number of eight octets is written as text.
    pub are_strings: bool,
    /// Whether all parameters of a TypeCode are written, or only its id and its name.
    pub has_types: bool,
}
