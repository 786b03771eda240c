//! What a user may choose.

use crate::window::Window;

/// What calls are counted by, in addition to their operation.
#[derive(Clone, Copy, Debug, Drop, PartialEq, Eq)]
pub enum Grouping<'a> {
    /// The client's address.
    Client,
    /// The server's address and port.
    Server,
    /// The object key.
    Object,
    /// The value at this path of the request.
    Path(&'a str),
}

impl<'a> Grouping<'a> {
    /// What a word of the command line stands for: a path below `header` or `body`, or one of three words.
    pub fn of_word(word: &'a str) -> Option<Grouping<'a>> {
        match word {
            "client" => Some(Grouping::Client),
            "server" => Some(Grouping::Server),
            "object" => Some(Grouping::Object),
            path => {
                if is_path_below(path.as_bytes()) {
                    Some(Grouping::Path(path))
                } else {
                    None
                }
            }
        }
    }

    /// The title of the column for it.
    pub(crate) fn column_title(self) -> &'a str {
        match self {
            Grouping::Client => "client",
            Grouping::Server => "server",
            Grouping::Object => "object",
            Grouping::Path(path) => path,
        }
    }
}

/// Whether a text is a path of a value below `header` or `body`.
fn is_path_below(path: &[u8]) -> bool {
    let rest = match path {
        [b'h', b'e', b'a', b'd', b'e', b'r', rest @ ..] => rest,
        [b'b', b'o', b'd', b'y', rest @ ..] => rest,
        _ => return false,
    };
    if rest.is_empty() {
        return false;
    }
    let mut rest = rest;
    for _ in 0..path.len() {
        match giop_lines::first_part(rest) {
            Some((_, next)) => rest = next,
            None => return rest.is_empty(),
        }
    }
    rest.is_empty()
}

/// What a user may choose.
#[derive(Clone, Copy, Debug, Drop)]
pub struct Settings<'a> {
    /// What calls are counted by in addition to their operation, if by anything.
    pub by: Option<Grouping<'a>>,
    /// The times of the messages that are counted.
    pub window: Window<'a>,
    /// Whether one JSON object is written.
    pub is_json: bool,
    /// Whether the table of connections is written as text. In JSON it is always written.
    pub has_connections: bool,
}
