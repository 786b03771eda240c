//! Times in nanoseconds: how many are in each bucket, the least one, the greatest one, and their sum.

ghost use Rattle.std.specs.Prelude.{◌≡◌, ◌+◌, ◌*◌, ◌/◌, ◌≤◌};

use crate::buckets::{ABOVE, BELOW, BUCKETS, bucket_of, bucket_of_rank, middle_of_bucket};
use std::alloc::{AllocError, Global};

/// Times that were counted.
#[derive(Drop)]
pub(crate) struct Times {
    alloc: Global,
    count: u64,
    least: i128,
    most: i128,
    total: i128,
    // How many times are in each bucket. It is empty until a time comes, and if no percentile is asked for.
    buckets: Vec<u64>,
    has_buckets: bool,
}

impl Times {
    /// Makes one that has counted no time.
    pub(crate) fn new(alloc: Global, has_buckets: bool) -> Times {
        Times {
            alloc,
            count: 0,
            least: 0,
            most: 0,
            total: 0,
            buckets: Vec::new(alloc),
            has_buckets,
        }
    }

    /// Whether no time was counted.
    pub(crate) fn is_empty(&self) -> bool {
        self.count == 0
    }

    pub(crate) fn least(&self) -> i128 {
        self.least
    }

    pub(crate) fn most(&self) -> i128 {
        self.most
    }

    pub(crate) fn total(&self) -> i128 {
        self.total
    }

    /// Counts a time.
    pub(crate) fn add(&mut self, time: i128) -> Result<(), AllocError> {
        if self.has_buckets {
            self.add_to_bucket(bucket_of(time))?;
        }
        let (least, most) = if self.count == 0 {
            (time, time)
        } else {
            (self.least.min(time), self.most.max(time))
        };
        self.least = least;
        self.most = most;
        self.count = self.count.saturating_add(1);
        self.total = self.total.saturating_add(time);
        Ok(())
    }

    fn add_to_bucket(&mut self, bucket: usize) -> Result<(), AllocError> {
        if self.buckets.is_empty() {
            self.buckets = vec![in self.alloc; 0; BUCKETS]?;
        }
        if let Some(count) = self.buckets.get_mut(bucket) {
            *count = count.saturating_add(1);
        }
        Ok(())
    }

    /// Adds all times of a row without buckets.
    pub(crate) fn add_all(&mut self, others: &Times) {
        if others.count == 0 {
            return;
        }
        let (least, most) = if self.count == 0 {
            (others.least, others.most)
        } else {
            (self.least.min(others.least), self.most.max(others.most))
        };
        self.least = least;
        self.most = most;
        self.count = self.count.saturating_add(others.count);
        self.total = self.total.saturating_add(others.total);
    }

    /// The time that this percentage of the times don't exceed: the middle of its bucket, or the least or the greatest time
    /// if it is that one. None without buckets.
    pub(crate) fn percentile(&self, percent: u64) -> Option<i128>
        requires { percent ≤ 100 }
    {
        if !self.has_buckets {
            return None;
        }
        let due = percentile_rank(self.count, percent);
        if due <= 1 {
            return Some(self.least);
        }
        if due >= self.count {
            return Some(self.most);
        }
        Some(match bucket_of_rank(&self.buckets, due) {
            BELOW => self.least,
            found if found >= ABOVE => self.most,
            found => clamped(i128::from(middle_of_bucket(found)), self.least, self.most),
        })
    }
}

/// How many a percentage of a count is, rounded up.
fn percentile_rank(count: u64, percent: u64) -> u64
    requires { percent ≤ 100 }
    ensures { result ≡ (count * percent + 99) / 100 }
{
    ((u128::from(count) * u128::from(percent) + 99) / 100) as u64
}

/// A number, or the nearer end of a range if the number is outside.
fn clamped(number: i128, least: i128, most: i128) -> i128 {
    number.max(least).min(most)
}
