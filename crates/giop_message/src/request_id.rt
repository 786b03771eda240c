//! The request id with which the header of a message begins: what its octets add, and its line.

ghost use Rattle.std.specs.Prelude.{◌≡◌, ◌<◌, ◌%◌, ℕ, List, [], ◌∷◌, length, Some};
ghost use Rattle.giop_cdr.specs.Numbers.{num};
ghost use Rattle.giop_print.specs.Output.{Writes};
ghost use Rattle.giop_sig.specs.Types.{Ty};
ghost use Rattle.giop_sig.specs.Table.{Table};
ghost use Rattle.giop_sig.specs.HeaderTypes.{BeginsWithId, header_type};
ghost use Rattle.giop_message.specs.Headers.{minor, kind, order};
ghost use Rattle.giop_message.specs.Text.{numbered_line};
ghost use Rattle.giop_message.specs.Phases.{Phase};
ghost use Rattle.giop_message.specs.Signatures.{Answers};
ghost use Rattle.giop_message.specs.ReaderOfTable.{message_reader};
ghost use Rattle.giop_message.specs.RequestId.{request_id_text, request_id_timed_line};

use giop_cdr::{Number, Prim};
use giop_print::{Line, Out, OutFault, Path, Position, Root, Value, value_line};

/// If a header begins with its request id, its first four octets add the line of the id, and no
/// other line. If the header begins with the id in version 1, it does so with each table. The
/// function has no body; it is called for its contract.
pub fn request_id_laws()
    ensures few { (C : Table) (answers : Answers) (phase : Phase)
        (number : ℕ) (header : List ℕ) (T : Ty) →
        header_type 1 (minor header) (kind header) ≡ Some T → BeginsWithId T → phase 12 % 4 ≡ 0 →
        (xs : List ℕ) → length xs < 4 →
        (message_reader C answers).reads phase number header xs ≡ [] }
    ensures value { (C : Table) (answers : Answers) (phase : Phase)
        (number : ℕ) (header : List ℕ) (T : Ty) →
        header_type 1 (minor header) (kind header) ≡ Some T → BeginsWithId T → phase 12 % 4 ≡ 0 →
        (a b c d : ℕ) → (message_reader C answers).reads phase number header (a ∷ b ∷ c ∷ d ∷ [])
        ≡ request_id_timed_line (num (order header) (a ∷ b ∷ c ∷ d ∷ [])) ∷ [] }
{}

/// Where the request id of a message stands.
#[derive(Drop)]
struct RequestIdPlace {
    message: u64,
}

impl Position for RequestIdPlace {
    ghost use Rattle.giop_message.specs.RequestId.{request_id_path};

    ghost message = { λ here. here.message };

    ghost spelled = { λ _. request_id_path };

    fn spell(&self, line: &mut Line) -> bool {
        if line.room() < 39 {
            return false;
        }
        line.put_octets(b" header.request_id");
        line.put_number(self.message);
        line.put(b'm');
        true
    }

    fn message(&self) -> u64 {
        self.message
    }

    fn path(&self) -> Path {
        let mut path = Path::new(Root::Header);
        path.push_name(b"request_id");
        path
    }
}

/// The line of the request id of the message with this number.
pub fn request_id_line<O: Out>(out: &mut O, number: u64, id: u32) -> Result<(), OutFault>
    ensures { Writes result (O.log out.old) (O.log out.new)
        (numbered_line number (request_id_text id)) }
{
    let value = Value::Primitive(Prim::ULong, Number::Unsigned(u64::from(id)));
    value_line(out, &RequestIdPlace { message: number }, value)
}
