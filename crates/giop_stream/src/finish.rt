//! The end of a stream: its totals, and the lines of what is left.

ghost use Rattle.std.specs.Prelude.{◌≡◌, ◌++◌, [], Some, None, flat_map, nat_lt, if◌then◌else◌};

use crate::framing::Framing;
use crate::kinds::is_any_fragment;
use crate::lines::truncated_line;
use crate::status::{Status, Totals};
use giop_print::{Out, OutFault, total_line, unfinished_line};

impl Framing {
    ghost use Rattle.giop_print.specs.Output.{Writes};
    ghost use Rattle.giop_print.specs.Lines.{unfinished_line, total_line};
    ghost use Rattle.giop_sig.specs.Table.{Table};
    ghost use Rattle.giop_message.specs.Signatures.{Answers};
    ghost use Rattle.giop_stream.specs.Text.{truncated_line};
    ghost use Rattle.giop_stream.specs.EngineState.{State};
    ghost use Rattle.giop_stream.specs.EngineStep as one;
    ghost use Rattle.giop_stream.specs.FramingView.{framing_view};
    ghost use Rattle.giop_stream.specs.ViewOfState.{Shows};
    ghost use Rattle.giop_stream.specs.EngineHolds.{status_of};
    ghost use Rattle.giop_stream.specs.FramingSteps.{is_cut_short, final_totals};

    /// Whether the stream goes on, or which fault it has.
    pub fn status(&self) -> Status
        ensures { result ≡ status_of self.now.stopped }
    {
        match self.stopped {
            Some(fault) => Status::Stopped(fault),
            None => Status::Running,
        }
    }

    /// The number of the last message that has begun, if it is greater than this number.
    pub fn begun_since(&self, number: u64) -> Option<u64>
        ensures { result ≡ (if nat_lt number self.now.totals.messages
            then Some self.now.totals.messages else None) }
    {
        let now = self.totals.messages;
        if number < now { Some(now) } else { None }
    }

    /// Whether the stream ends inside a message or a header.
    #[tactic(auto, unfolding(crate::specs::FramingSteps::is_cut_short))]
    fn is_cut_short(&self) -> bool
        ensures { result ≡ is_cut_short (framing_view self.now) }
    {
        self.stopped.is_none() && !self.header.is_empty()
    }

    /// The totals at the end of the stream.
    #[tactic(auto, unfolding(crate::specs::FramingSteps::final_totals))]
    pub fn final_totals(&self) -> Totals
        ensures state { result ≡ final_totals (framing_view self.now) }
        ensures value { (C : Table) (l : Answers) (s : State) →
            Shows C l (framing_view self.now) s →
            result ≡ one.final_totals s }
    {
        let mut totals = self.totals;
        if self.is_cut_short() {
            totals.faults += 1;
        }
        totals
    }

    /// Writes the line that says that the stream ends inside a message or a header, if it does.
    fn write_truncated_line<O: Out>(&self, out: &mut O) -> Result<(), OutFault>
        ensures { (C : Table) (l : Answers) (s : State) → Shows C l (framing_view self.now) s →
            Writes result (O.log out.old) (O.log out.new)
            (if one.is_cut_short s then truncated_line s.totals.octets else []) }
    {
        if self.is_cut_short() {
            return truncated_line(out, self.totals.octets);
        }
        Ok(())
    }

    /// Writes the line of the current message if it is unfinished, unless it is open or a Fragment.
    fn write_current_unfinished<O: Out>(&self, out: &mut O) -> Result<(), OutFault>
        ensures { (C : Table) (l : Answers) (s : State) → Shows C l (framing_view self.now) s →
            Writes result (O.log out.old) (O.log out.new)
            (flat_map unfinished_line (one.unfinished_current s.tracked s.owner)) }
    {
        let Some(message) = self.slots.current() else {
            return Ok(());
        };
        if is_any_fragment(&message.header()) {
            return Ok(());
        }
        unfinished_line(out, message.number())
    }

    /// Writes the lines of the messages that have neither ended nor been faulted, in the order of their numbers.
    fn write_unfinished<O: Out>(&self, out: &mut O) -> Result<(), OutFault>
        ensures { (C : Table) (l : Answers) (s : State) → Shows C l (framing_view self.now) s →
            Writes result (O.log out.old) (O.log out.new)
            (flat_map unfinished_line (one.unfinished_numbers s)) }
    {
        self.slots.write_unfinished(out)?;
        self.write_current_unfinished(out)
    }

    /// Writes what follows the line of a truncated end.
    #[tactic(auto, using(giop_print::proofs::Writing::writes_then, giop_print::proofs::Writing::writes_err))]
    fn write_unfinished_and_totals<O: Out>(&self, out: &mut O) -> Result<(), OutFault>
        ensures { (C : Table) (l : Answers) (s : State) → Shows C l (framing_view self.now) s →
            (let t = one.final_totals s in
            Writes result (O.log out.old) (O.log out.new)
            (flat_map unfinished_line (one.unfinished_numbers s)
            ++ total_line t.messages t.faults t.octets)) }
    {
        self.write_unfinished(out)?;
        let totals = self.final_totals();
        total_line(out, totals.messages, totals.faults, totals.octets)
    }

    /// Writes the lines of the end of the stream.
    #[tactic(auto, using(giop_print::proofs::Writing::writes_then, giop_print::proofs::Writing::writes_err))]
    pub fn finish<O: Out>(&self, out: &mut O) -> Result<(), OutFault>
        ensures { (C : Table) (l : Answers) (s : State) → Shows C l (framing_view self.now) s →
            Writes result (O.log out.old) (O.log out.new) (one.text_at_finish s) }
    {
        self.write_truncated_line(out)?;
        self.write_unfinished_and_totals(out)
    }
}
