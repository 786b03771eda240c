//! The marks of a signature file.
ghost use Rattle.std.specs.Prelude.{◌≡◌};
ghost use Rattle.giop_tokens.specs.Marks.{octet_of, mark_of};

/// A mark: a token of one octet.
#[derive(Clone, Copy, Debug, PartialEq, Eq, Drop)]
pub enum Mark {
    /// `{`
    OpenBrace,
    /// `}`
    CloseBrace,
    /// `(`
    OpenParenthesis,
    /// `)`
    CloseParenthesis,
    /// `<`
    OpenAngle,
    /// `>`
    CloseAngle,
    /// `[`
    OpenBracket,
    /// `]`
    CloseBracket,
    /// `,`
    Comma,
    /// `;`
    Semicolon,
    /// `:`
    Colon,
}

impl Mark {
    /// The octet that the mark is written as.
    pub fn octet(self) -> u8
        ensures { result ≡ octet_of self }
    {
        match self {
            Mark::OpenBrace => b'{',
            Mark::CloseBrace => b'}',
            Mark::OpenParenthesis => b'(',
            Mark::CloseParenthesis => b')',
            Mark::OpenAngle => b'<',
            Mark::CloseAngle => b'>',
            Mark::OpenBracket => b'[',
            Mark::CloseBracket => b']',
            Mark::Comma => b',',
            Mark::Semicolon => b';',
            Mark::Colon => b':',
        }
    }
}

/// The mark that is written as this octet.
#[tactic(auto, unfolding(crate::specs::Marks::mark_of))]
pub fn mark_of(octet: u8) -> Option<Mark>
    ensures { result ≡ mark_of octet }
{
    Some(match octet {
        b'{' => Mark::OpenBrace,
        b'}' => Mark::CloseBrace,
        b'(' => Mark::OpenParenthesis,
        b')' => Mark::CloseParenthesis,
        b'<' => Mark::OpenAngle,
        b'>' => Mark::CloseAngle,
        b'[' => Mark::OpenBracket,
        b']' => Mark::CloseBracket,
        b',' => Mark::Comma,
        b';' => Mark::Semicolon,
        b':' => Mark::Colon,
        _ => return None,
    })
}
