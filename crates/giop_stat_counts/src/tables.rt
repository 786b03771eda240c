//! The tables, and the rows that a message counts in.

use crate::choice::Grouping;
use crate::message::GroupingValue;
use crate::row::{Row, plus_one_if};
use crate::seconds::nanoseconds_of_seconds;
use crate::table::Table;
use crate::talks::ConnectionRows;
use giop_json_values::utf8_or_empty;
use giop_view_parts::{Endpoint, Message, Stream};
use std::alloc::{AllocError, Global};

/// The name of the operation if a message has none. No operation has a space.
const NONE: &str = "no operation";

/// The name of an endpoint that isn't known.
const UNKNOWN: &str = "-";

/// The tables of operations, of clients with servers, and of connections.
#[derive(Drop)]
pub(crate) struct Tables {
    pub(crate) operations: Table,
    pub(crate) pairs: Table,
    pub(crate) talks: ConnectionRows,
    names: String,
}

impl Tables {
    /// Makes tables without rows.
    pub(crate) fn new(alloc: Global) -> Result<Tables, AllocError> {
        Ok(Tables {
            operations: Table::new(alloc),
            pairs: Table::new(alloc),
            talks: ConnectionRows::new(alloc)?,
            names: String::new(alloc),
        })
    }

    /// The index of the operation's row for a message that isn't a reply to a call.
    pub(crate) fn operation_index(
        &mut self,
        by: Option<Grouping<'_>>,
        stream: &Stream,
        message: &Message<GroupingValue>,
    ) -> Result<Option<usize>, AllocError> {
        let operation = if message.facts.operation.is_empty() {
            NONE
        } else {
            utf8_or_empty(&message.facts.operation)
        };
        self.names.clear();
        self.names
            .push_str(utf8_or_empty(&message.facts.interface))?;
        self.names.push('\n')?;
        self.names.push_str(operation)?;
        if let Some(by) = by {
            let (client, server) = stream.client_and_server();
            self.names.push('\n')?;
            self.names.push_str(match by {
                Grouping::Client => name_or_unknown(
                    Endpoint::of_text(utf8_or_empty(client)).address,
                ),
                Grouping::Server => name_or_unknown(utf8_or_empty(server)),
                Grouping::Object | Grouping::Path(_) => utf8_or_empty(&message.own.value),
            })?;
        }
        self.operations.index_or_insert(&self.names)
    }

    /// The index of the operation's row for what belongs to no message.
    fn operation_index_of_none(
        &mut self,
        by: Option<Grouping<'_>>,
    ) -> Result<Option<usize>, AllocError> {
        self.names.clear();
        self.names.push('\n')?;
        self.names.push_str(NONE)?;
        if by.is_some() {
            self.names.push('\n')?;
        }
        self.operations.index_or_insert(&self.names)
    }

    /// The index of the pair's row for the endpoints of a stream.
    fn pair_index(&mut self, stream: &Stream) -> Result<Option<usize>, AllocError> {
        let (client, server) = stream.client_and_server();
        self.names.clear();
        self.names.push_str(name_or_unknown(Endpoint::of_text(utf8_or_empty(client)).address))?;
        self.names.push('\n')?;
        self.names.push_str(name_or_unknown(utf8_or_empty(server)))?;
        self.pairs.index_or_insert(&self.names)
    }

    /// Counts a message in the row of its operation at this index, in the row of its pair, and in the row of its
    /// connection.
    pub(crate) fn add_message(
        &mut self,
        index: Option<usize>,
        stream: &Stream,
        message: &Message<GroupingValue>,
    ) -> Result<(), AllocError> {
        let pair = self.pair_index(stream)?;
        let time = nanoseconds_of_seconds(&message.facts.seconds);
        add_message_to_row(self.operations.row(index), message, time)?;
        add_message_to_row(self.pairs.row(pair), message, time)?;
        add_message_to_row(self.talks.row_of(stream.connection), message, time)
    }

    /// Counts a fault of a stream, or a gap.
    pub(crate) fn add_loss(
        &mut self,
        by: Option<Grouping<'_>>,
        stream: &Stream,
        is_gap: bool,
    ) -> Result<(), AllocError> {
        let index = self.operation_index_of_none(by)?;
        let pair = self.pair_index(stream)?;
        add_loss_to_row(self.operations.row(index), is_gap);
        add_loss_to_row(self.pairs.row(pair), is_gap);
        add_loss_to_row(self.talks.row_of(stream.connection), is_gap);
        Ok(())
    }
}

fn add_message_to_row(
    row: Option<&mut Row>,
    message: &Message<GroupingValue>,
    time: Option<i128>,
) -> Result<(), AllocError> {
    match row {
        None => Ok(()),
        Some(row) => row.add_message(message, time),
    }
}

fn add_loss_to_row(row: Option<&mut Row>, is_gap: bool) {
    if let Some(row) = row {
        row.gaps = plus_one_if(row.gaps, is_gap);
        row.faults = plus_one_if(row.faults, !is_gap);
    }
}

/// A name, or the one that stands for an unknown name.
fn name_or_unknown(name: &str) -> &str {
    if name.is_empty() { UNKNOWN } else { name }
}
