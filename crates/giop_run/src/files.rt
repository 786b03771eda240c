//! The files that are read as a whole: the signature file and the request list (docs/FORMATS.md).

ghost use Rattle.std.specs.Prelude.{◌≡◌, ◌≢◌, ◌<◌, ◌≤◌, ◌⊎◌, Some, length, IfOk, IfErr, option_map};
ghost use Rattle.std.specs.IoError.{error_kind};
ghost use Rattle.std.specs.declared.io.ErrorKind.{ErrorKind as Kind};
ghost use Rattle.giop_sig.specs.FileReading.{text_too_long, IsFirstRefusalUpTo};
ghost use Rattle.giop_sig.specs.RequestList.{IsRefusedAs, allows_third_word};
ghost use Rattle.giop_stream.specs.EngineHolds.{IsRequestTableOf};
ghost use Rattle.giop_run.specs.Console.{run_fault};
ghost use Rattle.giop_run.specs.Looks.{HasReason, looks_of};
ghost use Rattle.giop_run.specs.Fronts.{AppendedOneRead};
ghost use Rattle.giop_run.specs.Files.{signatures_most, latest_version, CannotRead, IsReadToOneOver, Declares, ListsRequests, CatalogueOf, RequestsOf, NoCatalogue, NoRequests, NoStream};
ghost use Rattle.giop_run.specs.SourceLog.{unread_source};

use super::fault::ProgramError;
use super::inputs::Inputs;
use super::reason::Reason;
use super::source::{Source, saturating_add_one};
use giop_sig::{Catalogue, ListFault, Requests, SigFault};
use std::alloc::Global;
use std::io;
use std::io::ErrorKind;

/// The greatest size of a signature file, in octets. The parser refuses a longer text.
pub(crate) const SIGNATURES_MOST: u64 = 1_048_576;

/// The greatest size of a request list, in octets. The parser refuses a longer text.
const REQUESTS_MOST: u64 = 16_777_216;

/// The greatest number of octets that a read may give.
const ROOM: usize = 4096;

/// Reads once, and appends the octets that the read gave. Returns whether it gave any.
fn append_one_read<S: Source>(
    source: &mut S,
    into: &mut [u8],
    octets: &mut Vec<u8>,
) -> io::Result<bool>
    ensures ok { IfOk result (λ some. AppendedOneRead (S.log source.old) (S.log source.new)
        octets.old.items octets.new.items (length into.old) some) }
    ensures err { IfErr result (λ error. (error_kind error ≡ ErrorKind.OutOfMemory)
        ⊎ S.fails source.old (error_kind error)) }
    ensures fewer { (kind : Kind) → S.fails source.new kind → S.fails source.old kind }
{
    let given = match source.read(into) {
        Ok(given) => given,
        Err(fault) => return Err(io::Error::from(fault.kind)),
    };
    match octets.extend_from_slice(&into[..given]) {
        Ok(()) => Ok(given > 0),
        Err(_) => Err(io::Error::from(ErrorKind::OutOfMemory)),
    }
}

/// All octets that a source gives, or, if there are more than `most`, the first `most` + 1 of them.
pub fn read_to_one_over<S: Source>(alloc: Global, source: &mut S, most: u64) -> io::Result<Vec<u8>>
    ensures ok { IfOk result (λ octets. IsReadToOneOver most (S.log source.old).left octets.items) }
    ensures err { IfErr result (λ error. (error_kind error ≡ ErrorKind.OutOfMemory)
        ⊎ S.fails source.old (error_kind error)) }
{
    // There is room for one read from the start. So how often the vector grows depends only on what the file holds.
    let Ok(mut octets) = Vec::with_capacity(alloc, ROOM) else {
        return Err(io::Error::from(ErrorKind::OutOfMemory));
    };
    let mut buffer = [0; ROOM];
    let limit = saturating_add_one(most);
    for _turn in 0..limit {
        let left = limit.saturating_sub(octets.len() as u64);
        let room = left.min(ROOM as u64) as usize;
        if !append_one_read(source, &mut buffer[..room], &mut octets)? {
            return Ok(octets);
        }
    }
    Ok(octets)
}

/// The fault for a file of this name that can't be read.
fn unreadable_file_fault<'a>(name: &'a str, error: &io::Error) -> ProgramError<'a>
    ensures memory { error_kind error.now ≡ ErrorKind.OutOfMemory →
        result ≡ ProgramError.OutOfMemory }
    ensures named { error_kind error.now ≢ ErrorKind.OutOfMemory
        → (why : Reason) × (result ≡ ProgramError.Unreadable name.entry why)
        × HasReason (error_kind error.now) why }
    ensures either { (result ≡ ProgramError.OutOfMemory)
        ⊎ ((why : Reason) × (result ≡ ProgramError.Unreadable name.entry why)
        × HasReason (error_kind error.now) why) }
{
    if error.kind() == ErrorKind::OutOfMemory {
        ProgramError::OutOfMemory
    } else {
        ProgramError::Unreadable {
            name,
            why: Reason::of(error.kind()),
        }
    }
}

/// Opens a file. Nothing of it has been read.
pub fn open_file<'a, R: Inputs>(rt: &R, name: &'a str) -> Result<R::File, ProgramError<'a>>
    ensures ok { IfOk result
        (λ file. R.File.log file ≡ unread_source (R.held rt.now name.entry.now)) }
    ensures err { IfErr result (NoStream (R.refuses rt.now) (Some name.entry.now)) }
{
    match rt.open(name) {
        Ok(file) => Ok(file),
        Err(error) => Err(unreadable_file_fault(name, &error)),
    }
}

/// All octets of a file, or the first `most` + 1 of them if there are more, or the error for which it can't be read.
fn open_and_read_to_one_over<R: Inputs + AllocGlobal>(
    rt: &R,
    name: &str,
    most: u64,
) -> io::Result<Vec<u8>>
    ensures ok { IfOk result
        (λ octets. IsReadToOneOver most (R.held rt.now name.now) octets.items) }
    ensures err { IfErr result (λ error. (error_kind error ≡ ErrorKind.OutOfMemory)
        ⊎ R.refuses rt.now name.now (error_kind error)) }
{
    match rt.open(name) {
        Ok(mut file) => read_to_one_over(rt.alloc(), &mut file, most),
        Err(error) => Err(error),
    }
}

/// All octets of a file, or the first `most` + 1 of them if there are more.
pub(crate) fn read_file_to_one_over<'a, R: Inputs + AllocGlobal>(
    rt: &R,
    name: &'a str,
    most: u64,
) -> Result<Vec<u8>, ProgramError<'a>>
    ensures ok { IfOk result
        (λ octets. IsReadToOneOver most (R.held rt.now name.entry.now) octets.items) }
    ensures err { IfErr result (λ fault.
        (fault ≡ ProgramError.OutOfMemory)
        ⊎ ((why : Reason) × (fault ≡ ProgramError.Unreadable name.entry why)
        × CannotRead (R.refuses rt.now) name.entry.now why)) }
{
    match open_and_read_to_one_over(rt, name, most) {
        Ok(octets) => Ok(octets),
        Err(error) => Err(unreadable_file_fault(name, &error)),
    }
}

/// The catalogue of the text of a signature file. Version 3 is read only if `version_3` says so.
fn parse_signatures(alloc: Global, text: &[u8], version_3: bool) -> Result<Catalogue, SigFault>
    ensures ok { IfOk result (Declares (latest_version version_3) text.now) }
    ensures long { IfErr result
        (λ why. signatures_most < length text.now → why ≡ text_too_long) }
    ensures first { IfErr result (λ why. length text.now ≤ signatures_most →
        IsFirstRefusalUpTo (latest_version version_3) text.now why) }
{
    if version_3 {
        Catalogue::parse_types(alloc, text)
    } else {
        Catalogue::parse(alloc, text)
    }
}

/// The catalogue of the signature file of this name, which has this text. Version 3 is read only if `version_3` says so.
fn catalogue_of<'a>(
    alloc: Global,
    name: &'a str,
    text: &[u8],
    version_3: bool,
) -> Result<Catalogue, ProgramError<'a>>
    ensures ok { IfOk result (Declares (latest_version version_3) text.now) }
    // If the file is refused, the fault has its name, and the refusal is the refusal of the text.
    ensures err { IfErr result (λ fault. (fault ≡ ProgramError.OutOfMemory)
        ⊎ ((why : SigFault)
        × (fault ≡ ProgramError.Signatures name.entry why (looks_of text.now))
        × (signatures_most < length text.now → why ≡ text_too_long)
        × (length text.now ≤ signatures_most →
        IsFirstRefusalUpTo (latest_version version_3) text.now why))) }
{
    match parse_signatures(alloc, text, version_3) {
        Ok(catalogue) => Ok(catalogue),
        Err(fault) => Err(ProgramError::of_signatures(name, fault, text)),
    }
}

/// The catalogue of a signature file, or of the built-in types if there is no file. Version 3 is read only if `version_3`
/// says so.
pub fn catalogue<'a, R: Inputs + AllocGlobal>(
    rt: &R,
    name: Option<&'a str>,
    version_3: bool,
) -> Result<Catalogue, ProgramError<'a>>
    ensures ok { IfOk result
        (CatalogueOf (R.held rt.now) (latest_version version_3)
        (option_map (λ n. n.now) name.entry)) }
    ensures err { IfErr result (NoCatalogue (R.held rt.now) (R.refuses rt.now)
        (latest_version version_3)
        (option_map (λ n. n.now) name.entry)) }
    ensures file { IfErr result (λ fault. run_fault fault ≡ None) }
{
    let alloc = rt.alloc();
    let Some(name) = name else {
        return match Catalogue::builtin(alloc) {
            Ok(catalogue) => Ok(catalogue),
            Err(_) => Err(ProgramError::OutOfMemory),
        };
    };
    let text = read_file_to_one_over(rt, name, SIGNATURES_MOST)?;
    catalogue_of(alloc, name, &text, version_3)
}

/// The request list of the file of this name, which has this text.
fn requests_of<'a>(
    alloc: Global,
    name: &'a str,
    text: &[u8],
    catalogue: &Catalogue,
) -> Result<Requests, ProgramError<'a>>
    ensures ok { IfOk result (λ kept. ListsRequests text.now catalogue.now kept) }
    // If the file is refused, the fault has its name, and the refusal is the refusal of the text.
    ensures err { IfErr result (λ fault. (fault ≡ ProgramError.OutOfMemory)
        ⊎ ((why : ListFault) × (fault ≡ ProgramError.Requests name.entry why)
        × IsRefusedAs (allows_third_word catalogue.now) text.now why.line why.kind)) }
{
    match Requests::parse(alloc, text, catalogue) {
        Ok(requests) => Ok(requests),
        Err(fault) => Err(ProgramError::of_requests(name, fault)),
    }
}

/// The request list of a file, or the empty list if there is no file.
pub fn requests<'a, R: Inputs + AllocGlobal>(
    rt: &R,
    name: Option<&'a str>,
    catalogue: &Catalogue,
) -> Result<Requests, ProgramError<'a>>
    ensures of { IfOk result (λ kept. IsRequestTableOf catalogue.now kept) }
    ensures ok { IfOk result
        (RequestsOf (R.held rt.now) (option_map (λ n. n.now) name.entry) catalogue.now) }
    ensures err { IfErr result (NoRequests (R.held rt.now) (R.refuses rt.now) catalogue.now
        (option_map (λ n. n.now) name.entry)) }
    ensures file { IfErr result (λ fault. run_fault fault ≡ None) }
{
    let alloc = rt.alloc();
    let Some(name) = name else {
        return match Requests::parse(alloc, &[], catalogue) {
            Ok(requests) => Ok(requests),
            Err(_) => Err(ProgramError::OutOfMemory),
        };
    };
    let text = read_file_to_one_over(rt, name, REQUESTS_MOST)?;
    requests_of(alloc, name, &text, catalogue)
}
