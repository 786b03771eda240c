//! Files that are no captures, but are often given as captures.

ghost use Rattle.std.specs.Prelude.{◌≡◌, ◌≤◌, length};
ghost use Rattle.capture_file.specs.OtherFiles.{other_file};

use crate::part::ByteOrder;

const GZIP: u16 = 0x1f8b;

const ZSTANDARD: u32 = 0x28b5_2ffd;

const XZ: u32 = 0xfd37_7a58;

const SNOOP: u32 = 0x736e_6f6f;

const MODIFIED_PCAP: u32 = 0xa1b2_cd34;

/// What a file is, if it doesn't begin as a capture does.
#[derive(Clone, Copy, Debug, PartialEq, Eq)]
pub enum OtherFile {
    /// It is compressed by gzip.
    Gzip,
    /// It is compressed by zstd.
    Zstandard,
    /// It is compressed by xz.
    Xz,
    /// It is a capture of snoop (RFC 1761).
    Snoop,
    /// It is a pcap file whose records have more fields, in either byte order.
    ModifiedPcap,
    /// It is none of these.
    Unknown,
}

/// What a file is, if it doesn't begin as a capture does, by its first four octets.
#[tactic(auto, unfolding(crate::specs::OtherFiles::other_file))]
pub fn other_file(octets: &[u8]) -> OtherFile
    requires { 4 ≤ length octets.now }
    ensures { result ≡ other_file octets.now }
{
    let big = ByteOrder::Big.four_at(octets, 0);
    let little = ByteOrder::Little.four_at(octets, 0);
    if ByteOrder::Big.two_at(octets, 0) == GZIP {
        OtherFile::Gzip
    } else if big == ZSTANDARD {
        OtherFile::Zstandard
    } else if big == XZ {
        OtherFile::Xz
    } else if big == SNOOP {
        OtherFile::Snoop
    } else if big == MODIFIED_PCAP {
        OtherFile::ModifiedPcap
    } else if little == MODIFIED_PCAP {
        OtherFile::ModifiedPcap
    } else {
        OtherFile::Unknown
    }
}
