//! The catalogue of several signature files that are read as one text (docs/FORMATS.md, Several signature files).

ghost use Rattle.std.specs.Prelude.{◌≡◌, ◌≢◌, ◌<◌, ◌≤◌, ◌⊎◌, ◌∷◌, [], length, map, None, IfOk, IfErr};
ghost use Rattle.std.specs.List.{Contains};
ghost use Rattle.giop_sig.specs.Builtin.{builtin_table};
ghost use Rattle.giop_sig.specs.FileReading.{text_too_long, IsFirstRefusalUpTo};
ghost use Rattle.giop_run.specs.Console.{run_fault};
ghost use Rattle.giop_run.specs.Files.{signatures_most, Declares};
ghost use Rattle.giop_run.specs.Joint.{AreRead, joint_text, CataloguesOf, IsLookOfRefusal, IsRefusal, IsRefused, IsUnreadable, NoCatalogues};

use super::fault::ProgramError;
use super::files::{SIGNATURES_MOST, read_file_to_one_over};
use super::inputs::Inputs;
use super::reason::Look;
use giop_sig::{Catalogue, SigFault, SigFaultKind};
use giop_sig_files::{SignatureText, declared_above, joined, place};
use std::alloc::Global;

/// Reads the signature files of these names: all octets of each, or, if it has more than a signature file may have, one
/// more than that.
fn read_signature_files<'a, R: Inputs + AllocGlobal>(
    rt: &R,
    names: &[&'a str],
) -> Result<Vec<SignatureText<'a>>, ProgramError<'a>>
    ensures ok { IfOk result (λ files.
        AreRead (R.held rt.now) (map (λ name. name.now) names.now) files.items) }
    ensures err { IfErr result (λ fault. (fault ≡ ProgramError.OutOfMemory)
        ⊎ IsUnreadable (R.refuses rt.now) (map (λ name. name.now) names.now) fault) }
{
    let mut files = Vec::new(rt.alloc());
    for name in names {
        let text = read_file_to_one_over(rt, name, SIGNATURES_MOST)?;
        if files.push(SignatureText { name, text }).is_err() {
            return Err(ProgramError::OutOfMemory);
        }
    }
    Ok(files)
}

/// What the program prints after the refusal of a line in the text of these files together.
fn look_of_refused_line<'a>(
    first: &SignatureText<'a>,
    others: &[SignatureText<'a>],
    text: &[u8],
    fault: SigFault,
) -> Look<'a>
    requires { text.now ≡ joint_text (first.now ∷ others.now) }
    ensures { IsLookOfRefusal first.now others.now fault result }
{
    let is_twice = fault.kind == SigFaultKind::Duplicate && !others.is_empty();
    if is_twice && let Some(above) = declared_above(text, fault.line) {
        let (file, line) = place(first, others, above);
        return Look::Declared {
            name: file.name,
            line,
        };
    }
    let (file, _) = place(first, others, fault.line);
    Look::of(file.text.as_slice())
}

/// The refusal of the text of these files together, as one of a line of a file.
fn refusal_of_file_line<'a>(
    first: &SignatureText<'a>,
    others: &[SignatureText<'a>],
    text: &[u8],
    fault: SigFault,
) -> ProgramError<'a>
    requires text { text.now ≡ joint_text (first.now ∷ others.now) }
    requires long { signatures_most < length text.now → fault ≡ text_too_long }
    requires refused { length text.now ≤ signatures_most → IsFirstRefusalUpTo 3 text.now fault }
    ensures { (result ≡ ProgramError.OutOfMemory) ⊎ IsRefused (first.now ∷ others.now) result }
{
    if fault.kind == SigFaultKind::OutOfMemory {
        return ProgramError::OutOfMemory;
    }
    let (file, line) = place(first, others, fault.line);
    ProgramError::Signatures {
        name: file.name,
        fault: SigFault {
            line,
            kind: fault.kind,
        },
        look: look_of_refused_line(first, others, text, fault),
    }
}

/// The catalogue of the text of these files together, or of the built-in types if there is no file.
fn catalogue_of_files<'a>(
    alloc: Global,
    files: &[SignatureText<'a>],
) -> Result<Catalogue, ProgramError<'a>>
    ensures builtin { files.now ≡ [] → IfOk result (λ C. C ≡ builtin_table) }
    ensures ok { files.now ≢ [] → IfOk result (Declares 3 (joint_text files.now)) }
    ensures err { IfErr result (λ fault. (fault ≡ ProgramError.OutOfMemory)
        ⊎ IsRefused files.now fault) }
{
    let Some((first, others)) = files.split_first() else {
        return match Catalogue::builtin(alloc) {
            Ok(catalogue) => Ok(catalogue),
            Err(_) => Err(ProgramError::OutOfMemory),
        };
    };
    let Ok(text) = joined(alloc, files) else {
        return Err(ProgramError::OutOfMemory);
    };
    match Catalogue::parse_types(alloc, text.as_slice()) {
        Ok(catalogue) => Ok(catalogue),
        Err(fault) => Err(refusal_of_file_line(first, others, text.as_slice(), fault)),
    }
}

/// The catalogue of the signature files of these names, which are read as one text, or of the built-in types if there is no
/// name.
pub fn joint_catalogue<'a, R: Inputs + AllocGlobal>(
    rt: &R,
    names: &[&'a str],
) -> Result<Catalogue, ProgramError<'a>>
    ensures ok { IfOk result (CataloguesOf (R.held rt.now) (map (λ name. name.now) names.now)) }
    ensures err { IfErr result (NoCatalogues (R.held rt.now) (R.refuses rt.now)
        (map (λ name. name.now) names.now)) }
    ensures file { IfErr result (λ fault. run_fault fault ≡ None) }
{
    let files = read_signature_files(rt, names)?;
    catalogue_of_files(rt.alloc(), files.as_slice())
}
