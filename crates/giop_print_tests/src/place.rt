//! A position that knows its message and its path.

ghost use Rattle.std.specs.Prelude.{◌≡◌};

use giop_print::{Line, Path, Position};

/// The message and the path of a value.
#[derive(Clone, Copy)]
pub struct Place<'a> {
    pub message: u64,
    pub path: &'a Path,
}

impl Position for Place<'_> {
    ghost use Rattle.giop_print.specs.Paths.{path_text_of};

    ghost message = { λ place. place.message };

    ghost spelled = { λ place. path_text_of place.path.now };

    fn spell(&self, line: &mut Line) -> bool {
        let text = self.path.text();
        if line.room() < 22 || text.len() > line.room() - 22 {
            return false;
        }
        line.put_octets(text);
        line.put(b' ');
        line.put_number(self.message);
        line.put(b'm');
        true
    }

    fn message(&self) -> u64 {
        self.message
    }

    fn path(&self) -> Path {
        self.path.copied()
    }
}

/// The place of a value in a message, at a path.
pub fn placed(message: u64, path: &Path) -> Place<'_>
    ensures message { result.message ≡ message }
    ensures kept { result.path.now ≡ path.now }
{
    Place { message, path }
}
