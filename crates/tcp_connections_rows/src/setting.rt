//! How many connections are known, how much waits, and where streams begin.

use arrayvec::ArrayVec;

/// How many connections may be known where no setting gives it.
const CONNECTIONS: u32 = 256;

/// How many blocks of 1,024 octets what waits may take where no setting gives it.
const BLOCKS: usize = 64;

/// How many connections may be known at once, how many blocks of 1,024 octets what waits may take, and the ports where streams
/// begin; all where there are none.
#[derive(Drop)]
pub struct Setting {
    pub connections: u32,
    pub blocks: usize,
    pub ports: ArrayVec<u16, 64>,
}

impl Setting {
    /// Parses a setting. Of an empty text it is that of a row without one.
    pub fn read(text: &str) -> Option<Setting> {
        let mut setting = Setting {
            connections: CONNECTIONS,
            blocks: BLOCKS,
            ports: ArrayVec::new(),
        };
        for part in text.split(", ").filter(|part| !part.is_empty()) {
            setting.set(part)?;
        }
        Some(setting)
    }

    /// Parses a part of it.
    fn set(&mut self, part: &str) -> Option<()> {
        let (name, value) = part.split_once(' ')?;
        match name {
            "connections" => self.connections = value.parse().ok()?,
            "blocks" => self.blocks = value.parse().ok()?,
            "ports" => self.ports = ports_of(value)?,
            _ => return None,
        }
        Some(())
    }
}

/// Parses ports with spaces between them, at most 64.
fn ports_of(text: &str) -> Option<ArrayVec<u16, 64>> {
    let mut ports = ArrayVec::new();
    for port in text.split(' ') {
        ports.try_push(port.parse().ok()?).ok()?;
    }
    Some(ports)
}
