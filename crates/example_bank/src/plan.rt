//! What does the command line ask for? [`read_plan`] reads its options. The default is two seconds of transfers
//! and audits of 16 accounts, on all processors, without a trace.
ghost use Rattle.std.specs.Prelude.{◌≤◌, IfOk};

use anyhow::bail;
use std::alloc::Global;

/// What the program prints for `--help`.
pub const HELP: &str =
    "Transfers money between accounts of a small transactional store, and audits them, on threads

Usage: example_bank [OPTIONS]

Options:
      --threads N    Threads, 1 to 1000; as many as processors if left out
      --accounts N   Accounts, 2 to 100000; 16 if left out
      --audits N     One of N pieces of work is an audit of all accounts, up to 1000000; 0: none; 64 if left out
      --seconds N    Seconds, 1 to 1000000; 2 if left out
      --pause N      Milliseconds from a transfer's first lock to its second, up to 1000; 0 if left out
      --trace FILE   Write the histories of the lock table's keys to FILE
  -h, --help         Print help
";

/// What the program does.
#[derive(Drop)]
pub struct BankPlan {
    pub threads: u64,
    pub accounts: u64,
    /// One of so many pieces of work is an audit. 0: none.
    pub audits: u64,
    pub seconds: u64,
    /// The milliseconds from a transfer's first lock to its second.
    pub pause: u64,
    /// The file for the trace.
    pub trace: Option<String>,
    pub ghost enough: { 2 ≤ accounts },
}

/// The number of an option, from `least` to `most`.
fn number_of(name: &str, word: &str, least: u64, most: u64) -> anyhow::Result<u64>
    requires { least ≤ most }
    ensures { IfOk result (λ n. (least ≤ n) × (n ≤ most)) }
{
    match word.parse::<u64>() {
        Ok(n) if least <= n && n <= most => Ok(n),
        _ => bail!("{name} is from {least} to {most}"),
    }
}

/// The plan without options.
fn default_plan(threads: u64) -> BankPlan {
    BankPlan {
        threads,
        accounts: 16,
        audits: 64,
        seconds: 2,
        pause: 0,
        trace: None,
    }
}

/// The plan with this option.
fn with_option(alloc: Global, plan: BankPlan, name: &str, value: &str) -> anyhow::Result<BankPlan> {
    let mut plan = plan;
    match name {
        "--threads" => plan.threads = number_of(name, value, 1, 1000)?,
        "--accounts" => plan.accounts = number_of(name, value, 2, 100_000)?,
        "--audits" => plan.audits = number_of(name, value, 0, 1_000_000)?,
        "--seconds" => plan.seconds = number_of(name, value, 1, 1_000_000)?,
        "--pause" => plan.pause = number_of(name, value, 0, 1000)?,
        "--trace" => plan.trace = Some(String::from_str(alloc, value)?),
        _ => bail!("there is no option {name}"),
    }
    Ok(plan)
}

/// The plan of a command line. `None` if it asks for help.
pub fn read_plan(
    alloc: Global,
    words: &[&str],
    processors: u64,
) -> anyhow::Result<Option<BankPlan>> {
    let mut plan = default_plan(processors.clamp(1, 1000));
    let mut rest = words.iter();
    while let Some(name) = rest.next() {
        if *name == "--help" || *name == "-h" {
            return Ok(None);
        }
        let Some(value) = rest.next() else {
            bail!("{name} is no option with a value");
        };
        plan = with_option(alloc, plan, name, value)?;
    }
    Ok(Some(plan))
}
