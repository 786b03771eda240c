//! A connection whose two directions are read. The calls of each direction give the types for the other.

ghost use Rattle.std.specs.Prelude.{IfOk, ◌≡◌};
ghost use Rattle.giop_stream.specs.EngineHolds.{IsRequestTableOf};

use super::side::Side;
use giop_calls::Calls;
use giop_print::Out;
use giop_sig::{Catalogue, Requests};
use giop_stream::{Engine, Stop};
use std::alloc::Global;
use std::io;
use std::marker::Model;

/// One of the two directions.
#[derive(Clone, Copy)]
pub enum Direction {
    /// The direction of the octets in a line with `>`.
    Forth,
    /// The direction of the octets in a line with `<`.
    Back,
}

/// The engines of both directions, and the calls of both.
#[derive(Drop)]
pub struct Connection<'a> {
    catalogue: &'a Catalogue,
    forth: Engine<'a>,
    back: Engine<'a>,
    // The correspondent of the first direction, except while the second direction is fed.
    side: Side<'a>,
}

impl<'a> Model for Connection<'a> {
    ghost use Rattle.std.specs.Prelude.{◌≡◌};
    ghost use Rattle.giop_sig.specs.Table.{Table};

    ghost Value = { Table };

    ghost view = { λ c. c.catalogue.now };

    ghost invariant = { λ c. (c.forth.table ≡ c.catalogue.now) × (c.back.table ≡ c.catalogue.now) };
}

impl<'a> Connection<'a> {
    /// Makes a connection from which nothing was read yet, for this number of outstanding calls in each direction.
    pub fn new(
        alloc: Global,
        catalogue: &'a Catalogue,
        requests: &'a Requests,
        calls: u32,
    ) -> io::Result<Connection<'a>>
        requires of { IsRequestTableOf catalogue.now requests.now }
    {
        Ok(Connection {
            catalogue,
            forth: engine(alloc, catalogue, requests)?,
            back: engine(alloc, catalogue, requests)?,
            side: Side {
                catalogue,
                own: Calls::new(alloc, calls)?,
                theirs: Calls::new(alloc, calls)?,
            },
        })
    }

    /// Reads a piece of a direction, and writes the lines that it completes.
    pub fn feed<O: Out>(
        &mut self,
        direction: Direction,
        piece: &[u8],
        out: &mut O,
    ) -> Result<(), Stop> {
        match direction {
            Direction::Forth => self.feed_forth(piece, out)?,
            Direction::Back => {
                self.side.turn();
                let fed = self.feed_back(piece, out);
                self.side.turn();
                fed?;
            }
        }
        Ok(())
    }

    /// Reads a piece of the first direction.
    #[tactic(auto, using(crate::specs::SideLaws::answers_known))]
    fn feed_forth<O: Out>(&mut self, piece: &[u8], out: &mut O) -> Result<(), Stop> {
        self.side.catalogue = self.catalogue;
        self.forth.feed_by(&mut self.side, piece, out)?;
        Ok(())
    }

    /// Reads a piece of the second direction.
    #[tactic(auto, using(crate::specs::SideLaws::answers_known))]
    fn feed_back<O: Out>(&mut self, piece: &[u8], out: &mut O) -> Result<(), Stop> {
        self.side.catalogue = self.catalogue;
        self.back.feed_by(&mut self.side, piece, out)?;
        Ok(())
    }

    /// Writes the closings of both directions.
    pub fn finish<O: Out>(self, out: &mut O) -> Result<(), Stop> {
        self.forth.finish(out)?;
        self.back.finish(out)?;
        Ok(())
    }
}

/// Makes an engine that has read nothing, for 16 open messages.
fn engine<'a>(
    alloc: Global,
    catalogue: &'a Catalogue,
    requests: &'a Requests,
) -> io::Result<Engine<'a>>
    requires of { IsRequestTableOf catalogue.now requests.now }
    ensures table { IfOk result (λ e. e.table ≡ catalogue.now) }
{
    match Engine::new(alloc, catalogue, requests, 16) {
        Ok(engine) => Ok(engine),
        Err(_) => Err(io::Error::from(io::ErrorKind::OutOfMemory)),
    }
}
