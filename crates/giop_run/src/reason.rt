//! Why a file can't be read, and what a text looks like that is refused as a signature file. `giopcap` prints this after a
//! fault (docs/FORMATS.md, The program giopcap).

ghost use Rattle.std.specs.Prelude.{◌≡◌};
ghost use Rattle.giop_run.specs.Looks.{HasReason, begins_with, begins_as_capture, begins_as_idl, looks_of, look_words, reason_words};

use giop_tokens::octets_left_at_token;
use std::io::ErrorKind;

/// Why a file can't be read.
#[derive(Clone, Copy, Debug, Drop, PartialEq, Eq)]
pub enum Reason {
    /// There is no file of this name.
    NoSuchFile,
    /// The program has no permission to read the file.
    NoPermission,
    /// The name is the name of a folder.
    Folder,
    /// Any other reason.
    Other,
}

impl Reason {
    /// The reason that an error of this kind gives.
    pub fn of(kind: ErrorKind) -> Reason
        ensures { HasReason kind result }
    {
        if kind == ErrorKind::NotFound {
            Reason::NoSuchFile
        } else if kind == ErrorKind::PermissionDenied {
            Reason::NoPermission
        } else if kind == ErrorKind::IsADirectory {
            Reason::Folder
        } else {
            Reason::Other
        }
    }

    /// The words for the reason, which follow `cannot read` and the name.
    pub fn words(&self) -> &'static str
        ensures { result.now ≡ reason_words self.now }
    {
        match self {
            Reason::NoSuchFile => ": no such file",
            Reason::NoPermission => ": no permission",
            Reason::Folder => ": a folder",
            Reason::Other => "",
        }
    }
}

/// What a text looks like that is refused as a signature file.
#[derive(Clone, Copy, Debug, Drop, PartialEq, Eq)]
pub enum Look<'a> {
    /// The text begins as a capture does.
    Capture,
    /// The text begins as IDL does.
    Idl,
    /// The refused line declares a name that this line of this file declares before.
    Declared { name: &'a str, line: u32 },
    /// Any other text.
    Other,
}

impl<'a> Look<'a> {
    /// What this text looks like.
    #[tactic(auto, unfolding(crate::specs::Looks::looks_of))]
    pub fn of(text: &[u8]) -> Look<'a>
        ensures { result ≡ looks_of text.now }
    {
        if begins_as_capture(text) {
            return Look::Capture;
        }
        let before = text.len().saturating_sub(octets_left_at_token(text));
        if begins_as_idl(&text[before..]) {
            Look::Idl
        } else {
            Look::Other
        }
    }

    /// The words for the look, which follow the refusal.
    pub fn words(&self) -> &'static str
        ensures { result.now ≡ look_words self.now }
    {
        match self {
            Look::Capture => ": a capture",
            Look::Idl => ": IDL: omniidl -bgiopdump_signatures",
            Look::Declared { .. } | Look::Other => "",
        }
    }
}

/// Whether a text begins with these octets.
#[tactic(auto, unfolding(crate::specs::Looks::begins_with))]
fn begins_with(text: &[u8], octets: &[u8]) -> bool
    ensures { result ≡ begins_with octets.now text.now }
{
    text.starts_with(octets)
}

/// Whether a text begins as a capture does: as a pcap file of any byte order and unit of time, or as a pcapng file.
fn begins_as_capture(text: &[u8]) -> bool
    ensures { result ≡ begins_as_capture text.now }
{
    begins_with(text, &[0xa1, 0xb2, 0xc3, 0xd4])
        || begins_with(text, &[0xd4, 0xc3, 0xb2, 0xa1])
        || begins_with(text, &[0xa1, 0xb2, 0x3c, 0x4d])
        || begins_with(text, &[0x4d, 0x3c, 0xb2, 0xa1])
        || begins_with(text, &[0x0a, 0x0d, 0x0d, 0x0a])
}

/// Whether a text begins with a word or sign that IDL has there and no signature file has.
fn begins_as_idl(text: &[u8]) -> bool
    ensures { result ≡ begins_as_idl text.now }
{
    begins_with(text, b"#")
        || begins_with(text, b"/*")
        || begins_with(text, b"module")
        || begins_with(text, b"interface")
        || begins_with(text, b"typedef")
        || begins_with(text, b"const")
        || begins_with(text, b"abstract")
        || begins_with(text, b"local")
        || begins_with(text, b"valuetype")
        || begins_with(text, b"native")
}
