//! Saves checkpoints in files.

ghost use Rattle.std.specs.Prelude.{List, Option, None};
ghost use Rattle.giop_run.specs.Saving.{Saved, SavesOne};

use super::part::{PRIVATE, replace_file, write_checkpoint};
use giop_stream::Engine;
use std::fs::{File, Metadata, OpenOptions};
use std::io::ErrorKind;
use std::os::unix::fs::{MetadataExt, OpenOptionsExt};
use std::{fs, io};

/// Files in which checkpoints can be saved.
pub trait Saves {
    /// The files that were saved, if the contracts know them.
    ghost saved: { Self → Option (List Saved) };

    /// Saves the checkpoint of an engine in the file of this name. If it fails, a plain file of this name is as it was.
    fn save(&mut self, name: &str, engine: &Engine) -> io::Result<()>
        ensures { SavesOne result (saved self.old) (saved self.new) name.now engine.now };
}

/// The files of the system. The contracts don't know what they hold.
#[derive(Drop)]
pub struct Disk<'a> {
    rt: &'a HostRuntime,
    in_use: [Option<FileId>; 6],
}

/// Names that lead to the files of the standard streams: input, output, error.
const STANDARD: [&str; 3] = ["/proc/self/fd/0", "/proc/self/fd/1", "/proc/self/fd/2"];

/// The identity of a plain file, which is the same for each name that it has.
#[derive(Clone, Copy, Debug, Drop, PartialEq, Eq)]
struct FileId {
    device: u64,
    inode: u64,
}

impl FileId {
    /// The identity of the plain file that a name leads to, also through links.
    fn of_name(rt: &HostRuntime, name: &str) -> Option<FileId> {
        match fs::metadata(rt, name) {
            Ok(found) => FileId::of_file(&found),
            Err(_) => None,
        }
    }

    /// The identity of the file with this metadata. None if it is no plain file.
    fn of_file(found: &Metadata) -> Option<FileId> {
        if !found.is_file() {
            return None;
        }
        Some(FileId {
            device: found.dev(),
            inode: found.ino(),
        })
    }
}

impl<'a> Disk<'a> {
    /// The files of the system. The plain files of the standard streams, and those that the given names lead to now, are in
    /// use. A save in one of them fails, also under another name of it, and leaves the file as it is.
    pub fn new(rt: &'a HostRuntime, named: [Option<&str>; 3]) -> Disk<'a> {
        let [first, second, third] = named;
        let [input, output, error] = STANDARD;
        let found = |name: Option<&str>| name.and_then(|name| FileId::of_name(rt, name));
        Disk {
            rt,
            in_use: [
                found(Some(input)),
                found(Some(output)),
                found(Some(error)),
                found(first),
                found(second),
                found(third),
            ],
        }
    }

    /// Whether this file is in use.
    fn is_in_use(&self, found: &Metadata) -> bool {
        let Some(id) = FileId::of_file(found) else {
            return false;
        };
        self.in_use.contains(&Some(id))
    }
}

impl Saves for Disk<'_> {
    ghost saved = { λ _. None };

    fn save(&mut self, name: &str, engine: &Engine) -> io::Result<()> {
        match fs::metadata(self.rt, name) {
            Ok(found) if self.is_in_use(&found) => Err(io::Error::from(ErrorKind::InvalidInput)),
            // A device or a pipe holds no old octets, and another file can't replace it.
            Ok(found) if !found.is_file() => {
                write_checkpoint(&open_in_place(self.rt, name)?, engine)
            }
            _ => replace_file(self.rt, name, engine),
        }
    }
}

/// Opens a device or a pipe. If its name leads to a plain file by now, that is refused and keeps its octets.
fn open_in_place(rt: &HostRuntime, name: &str) -> io::Result<File> {
    let mut options = OpenOptions::new();
    // The call allows that the file is made. Only then does the system refuse another user's pipe in a folder that is open
    // to all, such as /tmp.
    options.write(true).create(true).mode(PRIVATE);
    let file = options.open(rt, name)?;
    if file.metadata()?.is_file() {
        return Err(io::Error::from(ErrorKind::InvalidInput));
    }
    Ok(file)
}
