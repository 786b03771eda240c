//! Structs and unions that are announced and declared later.

ghost use Rattle.std.specs.Prelude.{◌≡◌};
ghost use Rattle.std.specs.Option.{option_map};
ghost use Rattle.giop_sig.specs.ScopeViews.{announcement_view};
ghost use Rattle.giop_sig.specs.Validity.{matches_announcement};

use crate::types::TypeId;

/// The word that a struct or union begins with.
#[derive(Clone, Copy, Debug, PartialEq, Eq)]
pub(crate) enum TypeWord {
    Struct,
    Union,
}

/// How a struct or union is announced: with which word, and the type that stands for it until it is
/// declared.
#[derive(Clone, Copy)]
pub(crate) struct Announcement {
    pub(crate) word: TypeWord,
    pub(crate) type_id: TypeId,
}

/// Whether a declaration can be of a name that is announced like this. `word` is its first word, if
/// that is a struct's or a union's.
pub(crate) fn matches_announcement(word: Option<TypeWord>, announced: Option<Announcement>) -> bool
    ensures { result ≡ matches_announcement word (option_map announcement_view announced) }
{
    match announced {
        None => true,
        Some(announcement) => word == Some(announcement.word),
    }
}
