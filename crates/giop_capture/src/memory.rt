//! The memory of a reader of packets. It is taken before the first octet of the capture is read.

ghost use Rattle.std.specs.Prelude.{[], IfOk};
ghost use Rattle.tcp_connections.specs.Connections.{none_known};
ghost use Rattle.giop_capture.specs.PacketState.{HasRead};

use crate::arguments::Arguments;
use crate::listening::CaptureListener;
use crate::notices::Notices;
use crate::packets::PacketReader;
use std::alloc::{AllocError, Global};
use tcp_connections::Connections;
use tcp_streams::Streams;

/// Makes a reader that has read no packet, with the connections, the blocks and the ports that the arguments ask for. No
/// later call takes memory.
pub fn packet_reader<L: CaptureListener + Drop, N: Notices + Drop>(
    alloc: Global,
    asked: Arguments,
    listener: L,
    notices: N,
) -> Result<PacketReader<L, N>, AllocError>
    requires start { L.observed listener [] }
    requires told { N.told notices [] }
    ensures { IfOk result (λ r. HasRead (L.observed r.streams.listener) (N.told r.notices) L.reader
        r.connections r.streams.live.items r.unread.noted.items
        (none_known asked.entry.ports.items asked.entry.pool asked.entry.connections []) []) }
{
    let connections = Connections::new(alloc, asked.connections, asked.pool as usize, asked.ports)?;
    let streams = Streams::new(alloc, asked.connections, listener)?;
    Ok(PacketReader::new(connections, streams, notices))
}
