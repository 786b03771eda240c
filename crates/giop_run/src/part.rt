//! The part: the file that a checkpoint is written to. It stands beside the file that is saved, and replaces it after it is
//! whole.

ghost use Rattle.std.specs.Prelude.{◌≡◌, ◌≤◌, IfSome};
ghost use Rattle.giop_run.specs.Saving.{inherited_mode as mode_by};

use super::retrying::Retrying;
use giop_print::Written;
use giop_stream::Engine;
use std::fs::{File, Metadata, OpenOptions, Permissions};
use std::io::{ErrorKind, Write};
use std::os::unix::fs::{MetadataExt, OpenOptionsExt, PermissionsExt};
use std::{fs, io, process};

/// The greatest length of a file's name in the system, in octets, with the zero at its end.
const NAME_ROOM: usize = 4096;

/// What is added to a file's name to get the name of its part. The program's process id and the number of the try follow,
/// as decimal numbers, each after a point.
const SUFFIX: &str = ".giopdump-part";

/// How many names are tried for a part. A name is in use only if a program of the same process id left a part there.
const TRIES: u32 = 16;

/// The mode of a file that is made: only its owner may read and write it.
pub(crate) const PRIVATE: u32 = 0o600;

/// The bits of a mode that say who may read, write and run a file. The bits for set-user-id, set-group-id and sticky aren't
/// among them.
const RIGHTS: u32 = 0o777;

/// The user and the group of a plain file, the number of names it has, and its mode.
#[derive(Clone, Copy)]
pub(crate) struct Rights {
    user: u32,
    group: u32,
    names: u64,
    mode: u32,
}

impl Rights {
    /// The rights of the file with this metadata.
    fn of(found: &Metadata) -> Rights {
        Rights {
            user: found.uid(),
            group: found.gid(),
            names: found.nlink(),
            mode: found.mode(),
        }
    }

    /// The rights of the plain file of this name; none if the name is a symbolic link.
    fn of_name(rt: &HostRuntime, name: &str) -> Option<Rights> {
        match fs::symlink_metadata(rt, name) {
            Ok(found) if found.is_file() => Some(Rights::of(&found)),
            _ => None,
        }
    }
}

/// Writes the checkpoint to a part, and renames the part to the name of this file.
pub(crate) fn replace_file(rt: &HostRuntime, name: &str, engine: &Engine) -> io::Result<()> {
    for attempt in 0..TRIES {
        let mut room = [0; NAME_ROOM];
        let Some(part) = part_name(name, process::id(rt.process()), attempt, &mut room) else {
            return Err(io::Error::from(ErrorKind::InvalidInput));
        };
        match new_part(rt, part) {
            Err(error) if error.kind() == ErrorKind::AlreadyExists => {}
            Err(error) => return Err(error),
            Ok(file) => return rename_part(rt, part, name, write_part(rt, name, &file, engine)),
        }
    }
    Err(io::Error::from(ErrorKind::AlreadyExists))
}

/// Makes a file that wasn't there before. Only its owner may read it.
fn new_part(rt: &HostRuntime, part: &str) -> io::Result<File> {
    let mut options = OpenOptions::new();
    options.write(true).create_new(true).mode(PRIVATE);
    options.open(rt, part)
}

/// Renames a part to the name of the file if it was written. If the writing or the renaming failed, removes the part.
fn rename_part(
    rt: &HostRuntime,
    part: &str,
    name: &str,
    written: io::Result<()>,
) -> io::Result<()> {
    let renamed = match written {
        Ok(()) => fs::rename(rt, part, name),
        Err(error) => Err(error),
    };
    if renamed.is_err() {
        let _ = fs::remove_file(rt, part);
    }
    renamed
}

/// Writes the checkpoint to a part. After that the part gets the rights of the file that it will replace, if it may have
/// them.
fn write_part(rt: &HostRuntime, name: &str, part: &File, engine: &Engine) -> io::Result<()> {
    write_checkpoint(part, engine)?;
    let own = Rights::of(&part.metadata()?);
    if let Some(mode) = inherited_mode(own, Rights::of_name(rt, name)) {
        part.set_permissions(Permissions::from_mode(mode))?;
    }
    part.sync_all()
}

/// The mode that a part gets from the file that it replaces. It gets one only if that file has the same user and group and
/// no second name, so that nobody gets rights over a checkpoint by a file that stood in its place.
fn inherited_mode(part: Rights, replaced: Option<Rights>) -> Option<u32>
    ensures mode { result ≡ mode_by part replaced }
    ensures rights { IfSome result (λ mode. mode ≤ 0o777) }
{
    let old = replaced?;
    let is_alike = old.user == part.user && old.group == part.group && old.names == 1;
    is_alike.then_some(old.mode & RIGHTS)
}

/// Writes the checkpoint to a file.
pub(crate) fn write_checkpoint(file: &File, engine: &Engine) -> io::Result<()> {
    let mut out = Written::new(Retrying::new(file));
    match engine.save(&mut out) {
        Ok(_) => Ok(()),
        Err(_) => Err(io::Error::from(ErrorKind::WriteZero)),
    }
}

/// The name of a file's part, for this try.
fn part_name<'r>(
    name: &str,
    process: u32,
    attempt: u32,
    room: &'r mut [u8; NAME_ROOM],
) -> Option<&'r str> {
    let mut left = &mut room[..];
    write!(left, "{name}{SUFFIX}.{process}.{attempt}").ok()?;
    let end = NAME_ROOM.checked_sub(left.len())?;
    str::from_utf8(&room[..end]).ok()
}
