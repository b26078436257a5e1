//! `lockbench`: what do the calls of the lock table cost, and does it stay right under random requests? Without
//! arguments the program prints its help.
//!
//! - `load` times rounds of a store's transactions, on one thread or many. The table keeps its history whole,
//!   streams it, or records none, and may hold further locks meanwhile. Read `lockbench_load`.
//! - `hand-over` times how a lock goes from transaction to transaction while requests wait for it. Read
//!   `lockbench_hand_over`.
//! - `soak --seconds N` plays random requests on threads for N seconds and checks the histories. Read
//!   `lockbench_soak`.
#![tactic(auto)]

mod words;

use crate::words::BenchJob;
use std::env;
use std::sync::Wait;
use std::thread::Threads;
use std::time::{Clock, CpuClock};

/// Runs the job that the command line names.
fn run<H: Threads + Wait + Clock + CpuClock + Sync>(
    threads: &H,
    rt: &HostRuntime,
    words: &[&str],
) -> anyhow::Result<()> {
    let alloc = rt.alloc();
    match words::asked(alloc, words)? {
        BenchJob::Soak(soak) => lockbench_soak::report(threads, rt, alloc, &soak),
        BenchJob::Load(load, trace) => {
            let name = trace.as_ref().map(|name| name.as_str());
            lockbench_load::report(threads, rt, alloc, &load, name)
        }
        BenchJob::HandOver(load) => lockbench_hand_over::report(threads, rt, alloc, &load),
        BenchJob::Help(text) => {
            print!(rt; "{text}")?;
            Ok(())
        }
    }
}

fn main(rt: HostRuntime) -> anyhow::Result<()> {
    let words: Vec<String> = env::args(&rt)?.skip(1).collect(rt.alloc())?;
    let texts: Vec<&str> = words.iter().map(|word| word.as_str()).collect(rt.alloc())?;
    run(&rt, &rt, texts.as_slice())
}
