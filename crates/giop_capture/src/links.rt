//! The link types in a capture whose packets aren't read.

ghost use Rattle.std.specs.Prelude.{◌≡◌, []};
ghost use Rattle.giop_capture.specs.Links.{is_new_link, noted_after};

use arrayvec::ArrayVec;

/// The link types that were noted: the first 16 of those in a capture whose packets aren't read.
#[derive(Drop)]
pub struct UnreadLinks {
    noted: ArrayVec<u16, 16>,
}

impl UnreadLinks {
    /// Makes a list in which no link type is noted.
    pub fn new() -> UnreadLinks
        ensures { result.noted.items ≡ [] }
    {
        UnreadLinks {
            noted: ArrayVec::new(),
        }
    }

    /// Notes a link type if it wasn't noted before and there is room for one more. Returns whether it was noted now.
    pub fn note_new(&mut self, link: u16) -> bool
        ensures new { result ≡ is_new_link 16 self.old.noted.items link }
        ensures noted { self.new.noted.items ≡ noted_after 16 self.old.noted.items link }
    {
        if self.noted.contains(&link) {
            return false;
        }
        self.noted.try_push(link).is_ok()
    }
}
