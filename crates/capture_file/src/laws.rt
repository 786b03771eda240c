//! What holds of the reading of every capture.

ghost use Rattle.capture_file.specs.Laws.{PacketsBegin, FaultStays};
ghost use Rattle.capture_file.specs.PcapFiles.{AFileHasItsRecords};
ghost use Rattle.capture_file.specs.PcapngFiles.{APcapngFileHasItsBlocks};

/// What has been read of a capture stays as it is when more octets come. The function has no body; it is called for its
/// contract.
pub fn packets_begin()
    // The packets of a longer list begin with the packets of the shorter one.
    ensures packets { PacketsBegin }
    // After a fault nothing is read.
    ensures stays { FaultStays }
{}

/// A pcap file that is written record by record is read record by record. Its packets are those of the records, with their
/// times and places, and it has no fault. The function has no body; it is called for its contract.
pub fn a_file_has_its_records()
    ensures { AFileHasItsRecords }
{}

/// A pcapng file of one section that is written block by block is read block by block. Its packets are those of its
/// enhanced and simple packet blocks, with their times and places, and it has no fault. The function has no body; it is
/// called for its contract.
pub fn a_pcapng_file_has_its_blocks()
    ensures { APcapngFileHasItsBlocks }
{}
