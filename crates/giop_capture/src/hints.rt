//! What the program says about a file that is no capture.

ghost use Rattle.std.specs.Prelude.{◌≡◌};
ghost use Rattle.giop_capture.specs.Hints.{hint};

use capture_file::OtherFile;

/// What the program says after the name of a file that is no capture: the command that reads it, if there is one. FILE
/// stands there for the name.
pub fn hint(file: OtherFile) -> &'static str
    ensures { result.now ≡ hint file }
{
    match file {
        OtherFile::Gzip => "compressed: zcat FILE | giopcap",
        OtherFile::Zstandard => "compressed: zstdcat FILE | giopcap",
        OtherFile::Xz => "compressed: xzcat FILE | giopcap",
        OtherFile::Snoop => "snoop: tshark -r FILE -w - | giopcap",
        OtherFile::ModifiedPcap => "modified pcap: tshark -r FILE -w - | giopcap",
        OtherFile::Unknown => "not a capture",
    }
}
