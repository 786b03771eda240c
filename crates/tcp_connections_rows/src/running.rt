//! What is told of the segments of a capture.

use crate::row::Row;
use crate::teller::Teller;
use std::alloc::Global;
use tcp_connections::Connections;
use tcp_streams::Streams;

/// The most connections that may be known, and the most blocks that what waits may take.
const MOST: (u32, usize) = (65_536, 1_048_576);

/// The listener after a row's segments, and the end of the capture, which may be told so many things; or after those up to
/// the one at which it failed. None where there is no memory, a payload is too long, or the setting is out of its range.
pub fn told_of(alloc: Global, row: &Row, left: usize) -> Option<Teller> {
    let setting = &row.setting;
    if setting.connections == 0 || setting.connections > MOST.0 || setting.blocks > MOST.1 {
        return None;
    }
    let ports = setting.ports.clone().ok()?;
    let Ok(mut known) = Connections::new(alloc, setting.connections, setting.blocks, ports) else {
        return None;
    };
    let teller = Teller {
        told: String::new(alloc),
        left,
        has_failed: false,
    };
    let Ok(mut streams) = Streams::new(alloc, setting.connections, teller) else {
        return None;
    };
    let steps = row.steps.as_slice();
    let mut index = 0;
    while index < steps.len() {
        let Some(segment) = steps[index].segment() else {
            return None;
        };
        known.begin_packet(steps[index].time);
        if known.take(segment, &mut streams).is_err() {
            return Some(streams.listener);
        }
        index += 1;
    }
    let _ended = known.end(&mut streams);
    Some(streams.listener)
}
