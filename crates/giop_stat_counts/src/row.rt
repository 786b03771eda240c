//! The counts of a row.

ghost use Rattle.std.specs.Prelude.{◌≡◌, ◌-◌, ◌&&◌, true, not};
ghost use Rattle.giop_stat_counts.specs.Counts.{plus_one_if};

use crate::message::GroupingValue;
use crate::times::Times;
use giop_view_parts::{Facts, Kind, Message, Status};
use std::alloc::{AllocError, Global};

/// The greatest number of repository ids that a row counts one by one. All others are counted together.
const IDS_MAX: usize = 64;

/// The name for all others among the names of rows and ids. No name in a dump has a space.
pub(crate) const OTHERS: &str = "all others";

/// How often something was counted.
#[derive(Drop)]
pub(crate) struct Row {
    pub(crate) calls: u64,
    pub(crate) oneways: u64,
    pub(crate) replies: u64,
    pub(crate) user: u64,
    pub(crate) system: u64,
    pub(crate) faults: u64,
    pub(crate) gaps: u64,
    pub(crate) octets: u64,
    // The number of calls that expect a reply, and the number of replies to a call.
    awaited: u64,
    answered: u64,
    /// The times of its calls.
    pub(crate) times: Times,
    alloc: Global,
    ids: Vec<(Vec<u8>, u64)>,
}

impl Row {
    /// Makes a row in which nothing was counted.
    pub(crate) fn new(alloc: Global, has_buckets: bool) -> Row {
        Row {
            calls: 0,
            oneways: 0,
            replies: 0,
            user: 0,
            system: 0,
            faults: 0,
            gaps: 0,
            octets: 0,
            awaited: 0,
            answered: 0,
            times: Times::new(alloc, has_buckets),
            alloc,
            ids: Vec::new(alloc),
        }
    }

    /// How many calls that expect a reply have none.
    pub(crate) fn unanswered(&self) -> u64
        ensures { result ≡ self.now.awaited - self.now.answered }
    {
        self.awaited.saturating_sub(self.answered)
    }

    /// The repository ids of the exceptions, and how often each came.
    pub(crate) fn exception_ids(&self) -> &[(Vec<u8>, u64)] {
        &self.ids
    }

    /// Counts a message. `time` is the nanoseconds between a reply and its call, if they are known.
    pub(crate) fn add_message(
        &mut self,
        message: &Message<GroupingValue>,
        time: Option<i128>,
    ) -> Result<(), AllocError> {
        let facts = &message.facts;
        self.octets = self.octets.saturating_add(message.octets);
        self.faults = plus_one_if(self.faults, !facts.fault.is_none());
        match facts.kind() {
            Kind::Request if !facts.operation.is_empty() => {
                self.add_call(message.key.stream > 0, facts.is_oneway)
            }
            Kind::Reply => self.add_reply(facts, time)?,
            _ => {}
        }
        if facts.raises.is_empty() {
            return Ok(());
        }
        self.add_exception_id(&facts.raises, 1)
    }

    fn add_call(&mut self, is_captured: bool, is_oneway: bool)
        ensures calls { self.new.calls ≡ plus_one_if self.old.calls true }
        ensures oneways { self.new.oneways ≡ plus_one_if self.old.oneways is_oneway }
        ensures awaited { self.new.awaited ≡ plus_one_if self.old.awaited
            (is_captured && not is_oneway) }
    {
        self.calls = plus_one_if(self.calls, true);
        self.oneways = plus_one_if(self.oneways, is_oneway);
        self.awaited = plus_one_if(self.awaited, is_captured && !is_oneway);
    }

    fn add_reply(&mut self, reply: &Facts, time: Option<i128>) -> Result<(), AllocError>
        ensures { self.new.replies ≡ plus_one_if self.old.replies true }
    {
        self.replies = plus_one_if(self.replies, true);
        self.answered = plus_one_if(self.answered, reply.answers.is_some());
        self.user = plus_one_if(self.user, reply.status == Status::User);
        self.system = plus_one_if(self.system, reply.status == Status::System);
        match time {
            None => Ok(()),
            Some(time) => self.times.add(time),
        }
    }

    /// Counts this number of exceptions with this repository id.
    fn add_exception_id(&mut self, id: &[u8], count: u64) -> Result<(), AllocError> {
        if self.add_to_known_id(id, count) {
            return Ok(());
        }
        let name = if self.ids.len() >= IDS_MAX {
            OTHERS.as_bytes()
        } else {
            id
        };
        if self.add_to_known_id(name, count) {
            return Ok(());
        }
        self.ids.push((Vec::from_slice(self.alloc, name)?, count))?;
        Ok(())
    }

    /// Counts exceptions with a repository id that came before. Returns whether it came before.
    fn add_to_known_id(&mut self, id: &[u8], count: u64) -> bool {
        let Some(index) = self.ids.iter().position(|known| known.0.as_slice() == id) else {
            return false;
        };
        if let Some(known) = self.ids.get_mut(index) {
            known.1 = known.1.saturating_add(count);
        }
        true
    }

    /// Adds all counts of another row without buckets.
    pub(crate) fn add_all(&mut self, other: &Row) -> Result<(), AllocError> {
        self.calls = self.calls.saturating_add(other.calls);
        self.oneways = self.oneways.saturating_add(other.oneways);
        self.replies = self.replies.saturating_add(other.replies);
        self.user = self.user.saturating_add(other.user);
        self.system = self.system.saturating_add(other.system);
        self.faults = self.faults.saturating_add(other.faults);
        self.gaps = self.gaps.saturating_add(other.gaps);
        self.octets = self.octets.saturating_add(other.octets);
        self.awaited = self.awaited.saturating_add(other.awaited);
        self.answered = self.answered.saturating_add(other.answered);
        self.times.add_all(&other.times);
        for i in 0..other.ids.len() {
            let (id, count) = &other.ids[i];
            self.add_exception_id(id, *count)?;
        }
        Ok(())
    }
}

/// A count, or one more if `is_one_more` is true.
pub(crate) fn plus_one_if(count: u64, is_one_more: bool) -> u64
    ensures { result ≡ plus_one_if count is_one_more }
{
    count.saturating_add(u64::from(is_one_more))
}
