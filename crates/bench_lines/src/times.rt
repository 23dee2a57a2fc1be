//! Times in nanoseconds.

use crate::fault::Fault;
use std::rt::Clock;
use std::time::Instant;

/// The time now.
pub fn now<R: Clock>(rt: &R) -> Result<Instant, Fault> {
    Instant::now(rt).or(Err(Fault::Clock))
}

/// How many nanoseconds went by since then, at most the greatest u64.
pub fn nanos_since<R: Clock>(rt: &R, start: Instant) -> Result<u64, Fault> {
    let time = start.elapsed(rt).or(Err(Fault::Clock))?;
    Ok(u64::try_from(time.as_nanos()).unwrap_or(u64::MAX))
}

/// How many of so many nanoseconds each of so many calls took.
pub fn nanos_each(nanos: u64, calls: u64) -> u64 {
    nanos / calls.max(1)
}
