//! `example_bank`: how does a program use a store over the lock table?
//!
//! The store is `example_store`. This program runs two workloads on it. In the first one, threads transfer money between
//! accounts and audit all of them, and the total must not change. The second one shows what a read without a lock does not
//! give.
//!
//! Read in this order:
//!
//! 1. `src/bank.rt`: what an account is in the store.
//! 2. `src/teller.rt` and `src/skew.rt`: the workloads.
//! 3. `src/run.rt`: how the bank is opened, used by threads and closed.
//! 4. `src/trace.rt`: how the table's steps are taken out while it runs.
//!
//! # What is proved
//!
//! - Every function is safe, and every call of the store and of its table meets the premises of that call.
//! - The transactions that a run commits went one after the other at every account that two of them share, over the one
//!   history that the close of the table gives (`in_order` of `serve`).
//!
//! # What is not proved
//!
//! No contract says that the total stays the same or that the figures are right. Each audit compares the total with what was
//! there at first, and the program compares the totals of each run, and how many transactions it counted with how many the
//! store logged. `lockrun check FILE` checks the trace of a run with `--trace FILE`.
#![tactic(auto)]

mod bank;
mod fault;
mod plan;
mod run;
mod skew;
mod teller;
mod trace;

use crate::plan::{BankPlan, HELP, read_plan};
use crate::run::{BankRun, config_of, keeping_of, serve};
use anyhow::bail;
use example_values::ValueBook;
use lt_history::print;
use lt_table::prepare_with;
use std::alloc::Global;
use std::env;
use std::fs::{File, Files};
use std::marker::Brand;
use std::random::RandomSource;
use std::rt::Runtime;
use std::sync::{Arc, Wait};
use std::thread::{Threads, available_parallelism};
use std::time::Clock;

/// Prints the figures of this run to standard error.
fn tell_figures<R: Runtime>(rt: &R, plan: &BankPlan, run: &BankRun) -> anyhow::Result<()> {
    let each_second = run.counts.transfers / plan.seconds.max(1);
    eprint!(rt;
        "{} threads, {} accounts, {} seconds: ",
        plan.threads, plan.accounts, plan.seconds
    )?;
    eprintln!(rt;
        "{each_second} transfers a second, {} audits, {} waits, {} deadlocks",
        run.counts.audits, run.waits, run.counts.deadlocks
    )?;
    Ok(())
}

/// How many transactions the run has committed by its own count: those of the tellers, and two that skew.
fn commits_of(run: &BankRun) -> u64 {
    let counts = run.counts;
    counts
        .transfers
        .saturating_add(counts.audits)
        .saturating_add(2)
}

/// Prints what came of the workloads. An error if money was made or lost.
fn tell_outcome<R: Runtime>(rt: &R, run: &BankRun) -> anyhow::Result<()> {
    println!(rt;
        "total before: {}, after: {}",
        run.total_before, run.total_after
    )?;
    println!(rt;
        "write skew: two accounts have {} together, and {} should stay",
        run.skew.0, run.stays
    )?;
    println!(rt;
        "write skew: two transactions read both, each withdraws what it may: {} is left",
        run.skew.1
    )?;
    if run.total_before != run.total_after {
        bail!("the total has changed");
    }
    if run.closed.commits != commits_of(run) {
        bail!("a transaction was lost");
    }
    Ok(())
}

/// Writes the histories to the file of the plan, if it has one.
fn write_trace<F: Files>(
    files: &F,
    alloc: Global,
    plan: &BankPlan,
    run: &BankRun,
) -> anyhow::Result<()> {
    if let (Some(name), Some(histories)) = (&plan.trace, &run.closed.histories) {
        let mut file = File::create(files, name.as_str())?;
        print(alloc, histories, &mut file)?;
    }
    Ok(())
}

/// Runs the plan and tells what came of it.
fn run_plan<H: Threads + Wait + Clock + RandomSource + Sync, R: Runtime + Files>(
    threads: &H,
    rt: &R,
    alloc: Global,
    plan: &BankPlan,
) -> anyhow::Result<()> {
    let values = Arc::new(alloc, ValueBook::open(alloc)?)?;
    let ready = prepare_with(alloc, config_of(plan), keeping_of(plan))?;
    let run = serve::<Brand, H>(threads, alloc, ready, values, plan)?;
    tell_figures(rt, plan, &run)?;
    tell_outcome(rt, &run)?;
    write_trace(rt, alloc, plan, &run)
}

/// Does what the words of the command line ask for.
fn run_words<H: Threads + Wait + Clock + RandomSource + Sync>(
    threads: &H,
    rt: &HostRuntime,
    words: &[&str],
) -> anyhow::Result<()> {
    let processors = available_parallelism(threads)?.get() as u64;
    match read_plan(rt.alloc(), words, processors)? {
        Some(plan) => run_plan(threads, rt, rt.alloc(), &plan),
        None => {
            print!(rt; "{HELP}")?;
            Ok(())
        }
    }
}

fn main(rt: HostRuntime) -> anyhow::Result<()> {
    let words: Vec<String> = env::args(&rt)?.skip(1).collect(rt.alloc())?;
    let texts: Vec<&str> = words.iter().map(|word| word.as_str()).collect(rt.alloc())?;
    run_words(&rt, &rt, texts.as_slice())
}
