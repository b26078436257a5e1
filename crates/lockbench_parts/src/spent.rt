//! How long do the rounds of a load take? [`Start`] reads the clocks before them, and [`tell_times`] prints what was
//! spent.
use std::rt::Runtime;
use std::time::{Clock, CpuClock, Duration, Instant};

/// What both clocks say when the rounds begin.
#[derive(Clone, Copy, Debug)]
pub struct Start {
    wall: Instant,
    processor: Duration,
}

/// The wall time of the rounds, and the processor time that all threads of the process used during them.
#[derive(Clone, Copy, Debug)]
pub struct Spent {
    wall: Duration,
    processor: Duration,
}

impl Start {
    pub fn now<H: Clock + CpuClock>(clocks: &H) -> anyhow::Result<Start> {
        let wall = Instant::now(clocks)?;
        let processor = clocks.process_cpu_time()?;
        Ok(Start { wall, processor })
    }

    /// The times from the start until now.
    pub fn spent<H: Clock + CpuClock>(&self, clocks: &H) -> anyhow::Result<Spent> {
        let wall = self.wall.elapsed(clocks)?;
        let processor = clocks.process_cpu_time()?.saturating_sub(self.processor);
        Ok(Spent { wall, processor })
    }
}

/// Prints the nanoseconds of one of so many steps or rounds, under this name.
pub fn tell_nanoseconds<R: Runtime>(
    rt: &R,
    name: &str,
    made: u64,
    spent: &Spent,
) -> anyhow::Result<()> {
    let tenths = spent.wall.as_nanos().saturating_mul(10) / (made as u128).max(1);
    print!(rt; " {name}={}.{}", tenths / 10, tenths % 10)?;
    Ok(())
}

/// Prints the number of steps and the times.
pub fn tell_times<R: Runtime>(rt: &R, steps: u64, spent: &Spent) -> anyhow::Result<()> {
    let wall = spent.wall.as_nanos();
    let milliseconds = wall / 1_000_000;
    let per_second = (steps as u128).max(1).saturating_mul(1_000_000_000) / wall.max(1);
    print!(rt;
        " steps={steps} seconds={}.{:03}",
        milliseconds / 1000,
        milliseconds % 1000
    )?;
    print!(rt; " cpu_ns={}", spent.processor.as_nanos())?;
    print!(rt; " steps_per_second={per_second}")?;
    tell_nanoseconds(rt, "ns_per_step", steps, spent)
}
