use anyhow::Result;
use std::rt::Clock;
use std::time::Instant;

/// A figure that is being taken.
#[derive(Drop)]
pub struct Timed {
    start: Instant,
}

impl Timed {
    /// Starts the clock.
    pub fn start(clock: &impl Clock) -> Result<Timed> {
        Ok(Timed {
            start: Instant::now(clock)?,
        })
    }

    /// Prints how many nanoseconds each of so many rounds took.
    pub fn tell<R: Clock + Print>(
        &self,
        rt: &R,
        what: &str,
        rounds: u64,
        count: u64,
    ) -> Result<()> {
        let took = self.start.elapsed(rt)?.as_nanos();
        let each = took / u128::from(rounds.max(1));
        println!(rt; "{what}: {each} ns ({count})")?;
        Ok(())
    }
}
