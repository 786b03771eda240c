//! The program's steps: it reads the arguments, the signatures, the requests and the checkpoint, opens the stream, runs,
//! and saves. The first step that fails decides the status.

ghost use Rattle.std.specs.Prelude.{◌≡◌, ◌≢◌, ◌≤◌, ◌⊎◌, ℕ, List, [], false, Option, None, Some, IfSome, IfOk, IfErr, OnOk, option_map};
ghost use Rattle.giop_stream.specs.Checkpoint.{counts_of};
ghost use Rattle.giop_stream.specs.EngineHolds.{IsRequestTableOf, Holds};
ghost use Rattle.giop_run.specs.SourceLog.{unread_source};
ghost use Rattle.giop_run.specs.Running.{HasKept, setup_of};
ghost use Rattle.giop_run.specs.Console.{Dumped, exit_status, run_result};
ghost use Rattle.giop_run.specs.Files.{CatalogueOf, HoldsOfResumed, NoCheckpoint, NoStream, ReadsBy, ending_by_save, stream_octets, setup_by};
ghost use Rattle.giop_run.specs.Performing.{HasPerformed, HasSaved, task_of};
ghost use Rattle.giop_program.specs.Words.{asked_of};

use super::arguments::Arguments;
use giop_print::Flush;
use giop_run::{
    Disk, Ending, Inputs, Lines, ProgramError, Report, Retrying, RunFault, Saves, Source,
    catalogue, command_line_words, dump, open_file, print_clap_error, print_fault, requests,
    resume, status,
};
use giop_sig::{Catalogue, Requests};
use giop_stream::{Engine, Totals};

/// The program's name, with which each message on standard error begins.
const PROGRAM: &str = "giopdump";

/// Runs the program, and returns its status.
pub fn program(rt: &HostRuntime) -> u8
    ensures { result ≤ 5 }
{
    let words = match command_line_words(rt) {
        Ok(words) => words,
        Err(fault) => return print_fault(rt, PROGRAM, &fault),
    };
    match Arguments::read(rt.alloc(), words.as_slice()) {
        Err(error) => print_clap_error(rt, PROGRAM, &error),
        Ok(asked) => print_run(rt, asked),
    }
}

/// Takes the steps after the arguments, with the lines on standard output. Returns the program's status.
fn print_run(rt: &HostRuntime, asked: Arguments) -> u8
    ensures { result ≤ 5 }
{
    let Ok(mut lines) = Lines::new(rt.alloc(), Retrying::new(rt.stdout())) else {
        return print_fault(rt, PROGRAM, &ProgramError::OutOfMemory);
    };
    let mut files = Disk::new(rt, [asked.signatures, asked.requests, asked.stream]);
    report_outcome(rt, &perform_run(rt, asked, &mut lines, &mut files))
}

/// Takes the steps after the arguments.
pub fn perform_run<'a, R: Inputs + AllocGlobal, O: Flush, F: Saves>(
    rt: &R,
    asked: Arguments<'a>,
    out: &mut O,
    files: &mut F,
) -> Result<Totals, ProgramError<'a>>
    ensures did { HasPerformed (task_of (R.held rt.now) (R.refuses rt.now) (R.given rt.now)
        (asked_of asked.entry)) result (O.log out.old) (O.log out.new) (F.saved files.old)
        (F.saved files.new) }
    ensures flushed { OnOk result (O.kept out.new ≡ []) }
{
    let catalogue = catalogue(rt, asked.signatures, asked.version_3)?;
    run_by_catalogue(rt, asked, out, files, &catalogue)
}

/// Takes the steps after the signature file.
fn run_by_catalogue<'a, R: Inputs + AllocGlobal, O: Flush, F: Saves>(
    rt: &R,
    asked: Arguments<'a>,
    out: &mut O,
    files: &mut F,
    catalogue: &Catalogue,
) -> Result<Totals, ProgramError<'a>>
    requires read { CatalogueOf (R.held rt.now) (asked_of asked).latest_version
        (asked_of asked).signatures catalogue.now }
    ensures did { HasPerformed (task_of (R.held rt.now) (R.refuses rt.now) (R.given rt.now)
        (asked_of asked.entry)) result (O.log out.old) (O.log out.new) (F.saved files.old)
        (F.saved files.new) }
    ensures flushed { OnOk result (O.kept out.new ≡ []) }
{
    let requests = requests(rt, asked.requests, catalogue)?;
    run_and_save(rt, asked, out, files, catalogue, &requests)
}

/// Takes the steps after the request list, up to saving the engine that the run has kept.
fn run_and_save<'a, R: Inputs + AllocGlobal, O: Flush, F: Saves>(
    rt: &R,
    asked: Arguments<'a>,
    out: &mut O,
    files: &mut F,
    catalogue: &Catalogue,
    requests: &Requests,
) -> Result<Totals, ProgramError<'a>>
    requires of { IsRequestTableOf catalogue.now requests.now }
    requires read { ReadsBy (R.held rt.now) (asked_of asked) catalogue.now requests.now }
    ensures did { HasPerformed (task_of (R.held rt.now) (R.refuses rt.now) (R.given rt.now)
        (asked_of asked.entry)) result (O.log out.old) (O.log out.new) (F.saved files.old)
        (F.saved files.new) }
    ensures flushed { OnOk result (O.kept out.new ≡ []) }
{
    let report = resume_and_run(rt, asked, out, catalogue, requests)?;
    save_kept_engine(files, asked.save, &report)
}

/// Loads the checkpoint, opens the stream, and runs.
fn resume_and_run<'a, 'c, R: Inputs + AllocGlobal, O: Flush>(
    rt: &R,
    asked: Arguments<'a>,
    out: &mut O,
    catalogue: &'c Catalogue,
    requests: &'c Requests,
) -> Result<Report<'c>, ProgramError<'a>>
    requires of { IsRequestTableOf catalogue.now requests.now }
    ensures dumped { let asked = asked_of asked.entry in let held = R.held rt.now in
        IfSome (run_result result) (λ ran.
        HoldsOfResumed held asked.resume asked.most catalogue.now requests.now (λ n p. Dumped
        (setup_by catalogue.now requests.now n asked) ran p
        (stream_octets held (R.given rt.now) asked.stream) (O.log out.old) (O.log out.new))) }
    ensures refused { let held = R.held rt.now in let asked = asked_of asked.entry in
        run_result result ≡ None → IfErr result (λ fault.
        NoCheckpoint held (R.refuses rt.now) asked.resume
        (counts_of catalogue.now requests.now) fault
        ⊎ NoStream (R.refuses rt.now) asked.stream fault) }
    ensures unwritten { run_result result ≡ None → O.log out.new ≡ O.log out.old }
    ensures sound { run_result result ≢ Some (Err RunFault.Failed) }
    ensures kept { IfOk result (λ report.
        HasKept (ending_by_save (asked_of asked.entry).save) report.kept) }
    ensures flushed { OnOk result (O.kept out.new ≡ []) }
{
    let engine = resume(rt, asked.resume, asked.most, catalogue, requests)?;
    let ending = ending_by_save(asked.save);
    match asked.stream {
        None => run_on_source(rt.standard_input(), out, engine, ending),
        Some(name) => open_and_run(rt, name, out, engine, ending),
    }
}

/// How a run ends: its engine is kept if a file for its checkpoint is named.
fn ending_by_save(save: Option<&str>) -> Ending
    ensures { result ≡ ending_by_save (option_map (λ name. name.now) save.entry) }
{
    match save {
        None => Ending::Finish,
        Some(_) => Ending::Keep,
    }
}

/// Opens the file of the stream, and runs the engine on it.
fn open_and_run<'a, 'c, R: Inputs, O: Flush>(
    rt: &R,
    name: &'a str,
    out: &mut O,
    engine: Engine<'c>,
    ending: Ending,
) -> Result<Report<'c>, ProgramError<'a>>
    requires sound { engine.failed ≡ false }
    ensures dumped { IfSome (run_result result) (λ ran. (p : List ℕ) → Holds engine.entry p
        → Dumped (setup_of engine.entry ending) ran p
        (R.held rt.now name.entry.now) (O.log out.old) (O.log out.new)) }
    ensures refused { run_result result ≡ None → IfErr result
        (NoStream (R.refuses rt.now) (Some name.entry.now)) }
    ensures unwritten { run_result result ≡ None → O.log out.new ≡ O.log out.old }
    ensures sound { run_result result ≢ Some (Err RunFault.Failed) }
    ensures kept { IfOk result (λ report. HasKept ending report.kept) }
    ensures flushed { OnOk result (O.kept out.new ≡ []) }
{
    match open_file(rt, name) {
        Ok(file) => run_on_source(file, out, engine, ending),
        Err(fault) => Err(fault),
    }
}

/// Runs the engine on the octets of a source, from the source's beginning.
fn run_on_source<'a, 'c, S: Source + Drop, O: Flush>(
    source: S,
    out: &mut O,
    engine: Engine<'c>,
    ending: Ending,
) -> Result<Report<'c>, ProgramError<'a>>
    requires sound { engine.failed ≡ false }
    ensures dumped { (told : Option (List ℕ)) → S.log source ≡ unread_source told
        → IfSome (run_result result) (λ ran. (p : List ℕ) → Holds engine.entry p
        → Dumped (setup_of engine.entry ending) ran p told (O.log out.old) (O.log out.new)) }
    ensures some { run_result result ≢ None }
    ensures sound { run_result result ≢ Some (Err RunFault.Failed) }
    ensures kept { IfOk result (λ report. HasKept ending report.kept) }
    ensures flushed { OnOk result (O.kept out.new ≡ []) }
{
    let mut source = source;
    match dump(&mut source, out, engine, ending) {
        Ok(report) => Ok(report),
        Err(fault) => Err(ProgramError::Run(fault)),
    }
}

/// Saves the checkpoint of the engine that a run has kept, in the file that the arguments name.
fn save_kept_engine<'a, F: Saves>(
    files: &mut F,
    save: Option<&'a str>,
    report: &Report,
) -> Result<Totals, ProgramError<'a>>
    requires kept { HasKept (ending_by_save (option_map (λ n. n.now) save)) report.now.kept }
    ensures { HasSaved (option_map (λ n. n.now) save.entry) (Ok report.now) result
        (F.saved files.old) (F.saved files.new) }
{
    let (Some(name), Some(engine)) = (save, &report.kept) else {
        return Ok(report.totals);
    };
    match files.save(name, engine) {
        Ok(()) => Ok(report.totals),
        Err(_) => Err(ProgramError::Unwritable { name }),
    }
}

/// Prints why the program failed, if it did, and returns its status.
fn report_outcome(rt: &HostRuntime, ended: &Result<Totals, ProgramError>) -> u8
    ensures { result ≡ exit_status ended.now }
{
    if let Err(fault) = ended {
        return print_fault(rt, PROGRAM, fault);
    }
    status(ended)
}
