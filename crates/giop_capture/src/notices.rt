//! The notices that are given of a capture, beside its lines.

ghost use Rattle.std.specs.Prelude.{◌≡◌, Bool, List, [], ◌∷◌, ◌++◌};
ghost use Rattle.giop_capture.specs.Notices.{notice_if_new, new_notices, begins_as_tls, begins_as_ziop};
ghost use Rattle.giop_capture.specs.declared.notices.Notice.{Notice};

/// A notice beside the lines. If it can't be shown, it is lost.
#[derive(Clone, Copy, Debug, PartialEq, Eq)]
pub enum Notice {
    /// A packet has this link type, which isn't read.
    UnreadLink(u16),
    /// A stream closed because its connection made room for another one: there are more connections at once than can be
    /// known.
    NoRoom,
    /// A payload in which no stream begins starts with a record of TLS.
    Tls,
    /// A payload in which no stream begins starts with a message of ZIOP.
    Ziop,
}

/// What was seen until now that needs a notice. Each notice is given once.
#[derive(Clone, Copy, Debug, PartialEq, Eq)]
pub struct Seen {
    /// A stream closed because its connection made room for another one.
    pub room: bool,
    /// A payload in which no stream begins started with a record of TLS.
    pub tls: bool,
    /// A payload in which no stream begins started with a message of ZIOP.
    pub ziop: bool,
}

/// Something that is told what isn't read, and what there is no room for.
pub trait Notices {
    /// It was told these notices, in this order. It is a relation, so that it may forget notices.
    ghost told: { Self → List Notice → Type 0 };

    /// Gives a notice.
    fn tell(&mut self, notice: Notice)
        ensures { (notices : List Notice) → told self.old notices
            → told self.new (notices ++ notice ∷ []) };
}

/// Whether octets begin as a record of TLS does, by the type of its content and by its version (RFC 8446, 5.1).
pub fn begins_as_tls(octets: &[u8]) -> bool
    ensures { result ≡ begins_as_tls octets.now }
{
    octets.len() >= 3 && 20 <= octets[0] && octets[0] <= 23 && octets[1] == 3 && octets[2] <= 4
}

/// Whether octets begin as a message of ZIOP does (CORBA, Compression).
pub fn begins_as_ziop(octets: &[u8]) -> bool
    ensures { result ≡ begins_as_ziop octets.now }
{
    octets.len() >= 4
        && octets[0] == b'Z'
        && octets[1] == b'I'
        && octets[2] == b'O'
        && octets[3] == b'P'
}

/// Gives a notice of each thing that has been seen now and had not been seen before.
pub fn tell_new<N: Notices>(before: Seen, after: Seen, notices: &mut N)
    ensures { (told : List Notice) → N.told notices.old told
        → N.told notices.new (told ++ new_notices before after) }
{
    tell_once(Notice::NoRoom, before.room, after.room, notices);
    tell_once(Notice::Tls, before.tls, after.tls, notices);
    tell_once(Notice::Ziop, before.ziop, after.ziop, notices);
}

/// Gives a notice if its cause has been seen now and had not been seen before.
fn tell_once<N: Notices>(notice: Notice, before: bool, after: bool, notices: &mut N)
    ensures { (told : List Notice) → N.told notices.old told
        → N.told notices.new (told ++ notice_if_new notice before after) }
{
    if after && !before {
        notices.tell(notice);
    }
}
