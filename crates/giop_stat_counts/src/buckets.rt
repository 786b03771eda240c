//! Buckets of times. The numbers of a bucket have the same first six binary digits, and the same number of digits after
//! them.

ghost use Rattle.std.specs.Prelude.{◌≡◌, ℕ, ◌+◌, ◌*◌, ◌^◌, ◌/◌, ◌<◌, ◌≤◌, ◌⊎◌, length, take, sum};
ghost use Rattle.giop_stat_counts.specs.Buckets.{IsBucketOf, IsMiddleOf};

/// How many buckets there are: 64 with one number each; 32 for each further binary digit up to the 44th; the first one, for
/// all numbers below 0; and the last one, for all other numbers.
pub(crate) const BUCKETS: usize = 1_282;

/// The bucket for all numbers below 0.
pub(crate) const BELOW: usize = 0;

/// The bucket for all numbers from 2^44 on.
pub(crate) const ABOVE: usize = BUCKETS - 1;

/// The bucket for a number of nanoseconds.
pub(crate) fn bucket_of(time: i128) -> usize
    ensures { result < 1282 }
{
    match u64::try_from(time) {
        Ok(time) => bucket_from_zero(time),
        Err(_) if time < 0 => BELOW,
        Err(_) => ABOVE,
    }
}

/// The bucket for a number that isn't below 0.
fn bucket_from_zero(time: u64) -> usize
    ensures within { result < 1282 }
    ensures below { time < 2 ^ 44 → IsBucketOf time result }
    ensures above { 2 ^ 44 ≤ time → result ≡ 1281 }
{
    if time >= 1 << 44 {
        return ABOVE;
    }
    let mut digits = time;
    for after in 0..38 {
        if digits < 64 {
            return 1 + 32 * after + digits as usize;
        }
        digits /= 2;
    }
    1 + 32 * 38 + digits as usize
}

/// The middle of a bucket that is neither the first nor the last one.
pub(crate) fn middle_of_bucket(bucket: usize) -> u64
    requires { (0 < bucket) × (bucket < 1281) }
    ensures { IsMiddleOf bucket result }
{
    let (after, digits) = after_and_first_digits(bucket as u64 - 1);
    let width = bucket_width(after);
    digits * width + width / 2
}

/// How many numbers have the same first binary digits, if this number of digits follow these.
fn bucket_width(after: u64) -> u64
    requires { after ≤ 38 }
    ensures value { result ≡ 2 ^ after }
    ensures most { result ≤ 2 ^ 38 }
{
    1 << after
}

/// How many binary digits follow the first ones in the numbers of a bucket, and these first digits. The number of the
/// bucket is `index` + 1.
fn after_and_first_digits(index: u64) -> (u64, u64)
    requires { index < 1280 }
    ensures index { index ≡ 32 * result.0 + result.1 }
    ensures after { result.0 ≤ 38 }
    ensures digits { result.1 < 64 }
    ensures first { (result.0 ≡ 0) ⊎ (32 ≤ result.1) }
{
    if index < 64 {
        return (0, index);
    }
    let after = index / 32 - 1;
    (after, index - 32 * after)
}

/// The bucket that the number of this rank, from 1, is in, by the counts of the buckets; the number of buckets if none has
/// it.
pub(crate) fn bucket_of_rank(counts: &[u64], rank: u64) -> usize
    requires { 0 < rank }
    ensures within { result ≤ length counts.now }
    ensures before { sum (take result counts.now) < rank }
    ensures reached { result < length counts.now → rank ≤ sum (take (result + 1) counts.now) }
{
    let mut left = rank;
    for i in 0..counts.len() {
        if left <= counts[i] {
            return i;
        }
        left -= counts[i];
    }
    counts.len()
}
