//! What do the table's calls answer at their limits, and what does a close or a configuration refuse?
//! The first two tests play lines of text (`playing`) and compare what each call is answered. Each row of the last
//! test is a configuration and the error that `prepare` gives for it, or none. Read next `text`, which has the
//! format of the lines.
use crate::closing::close_twice;
use crate::playing::{config, plays};
use lt_table::{CloseError, Config, PrepareError, prepare};
use std::test::Fail;

/// No request number is drawn past the limit, and a request that has used up its waits makes no visit.
#[test]
fn numbers_and_waits_run_out(rt: HostRuntime) -> Result<(), Fail> {
    let limits = Config {
        max_requests: 1,
        max_waits: 1,
        ..config(1, 2)
    };
    let played = plays(
        &rt,
        rt.alloc(),
        limits,
        "1 acquire 9 1 a\n0 enter 1 1 aw 0\n1 enter 2 1 aw 0\n0 scan\n1 finish 9 a\n0 poll\n0 scan\n0 scan\n0 poll\n0 leave\n",
    )
    .ok_or("the run")?;
    assert_eq!(rt;
        played.outcomes.as_str(),
        "0 Stepped(Taken)\n- Entered(1)\n- NotEntered(NumbersOut)\n- Scanned(Waiting(0)) [MustWait]\n2 Stepped(Freed)\n- Polled(Through)\n- Scanned(Rescan) []\n- NotScanned(WaitsOut)\n- Polled(Idle)\n- Left [Left]\n"
    );
    assert_eq!(rt; played.counts.as_str(), "[4] 1");
    Ok(())
}

/// A key that is named to read and to write is visited once, as a write. The read alone would pass a later lock.
#[test]
fn a_request_names_1_to_256_accesses(rt: HostRuntime) -> Result<(), Fail> {
    let played = plays(
        &rt,
        rt.alloc(),
        config(1, 2),
        "0 enter 1 1 - 0\n0 many 257 0\n0 many 256 1\n0 many 256 0\n0 scan\n0 leave\n0 many 128 128\n0 scan\n0 leave\n1 acquire 9 10 a\n0 enter 1 5 ar 0\n0 scan\n0 leave\n0 enter 1 5 araw 0\n0 scan\n",
    )
    .ok_or("the run")?;
    let refused =
        "- NotEntered(NoKeys)\n- NotEntered(TooManyKeys)\n- NotEntered(TooManyKeys)\n- Entered(1)\n- Scanned(Proceed) [Passed, ";
    assert!(rt; played.outcomes.starts_with(refused), "{}", played.outcomes);
    let last =
        "768 Stepped(Taken)\n- Entered(3)\n- Scanned(Proceed) [Passed]\n- Left [Absent]\n- Entered(4)\n- Scanned(Waiting(0)) [MustWait]\n";
    assert!(rt; played.outcomes.ends_with(last), "{}", played.outcomes);
    // Each request that scans and leaves makes two steps for each of its keys. The acquire and the last scan make
    // one each.
    assert_eq!(rt; played.counts.as_str(), "[772] 4");
    Ok(())
}

#[test]
fn a_table_closes_with_all_its_passes(rt: HostRuntime) -> Result<(), Fail> {
    let closed = close_twice(&rt, rt.alloc(), config(2, 2)).ok_or("the closes")?;
    assert_eq!(rt; closed.refused, CloseError::PassesOut(1));
    assert_eq!(rt; closed.back, 1);
    assert_eq!(rt; closed.histories.draws, 0);
    assert_eq!(rt; closed.histories.shards.len(), 2);
    for history in &closed.histories.shards {
        assert_eq!(rt; history.len(), 0);
    }
    Ok(())
}

#[test]
fn numbers_out_of_their_range_are_refused(rt: HostRuntime) -> Result<(), Fail> {
    let low = Config {
        shards: 1,
        passes: 1,
        max_steps: 1,
        max_requests: 1,
        max_waits: 1,
    };
    let high = Config {
        shards: 64,
        passes: 1024,
        max_steps: 4_294_967_296,
        max_requests: 1_099_511_627_775,
        max_waits: 16_777_215,
    };
    for (config, error) in &[
        (low, None),
        (high, None),
        (Config { shards: 0, ..low }, Some(PrepareError::Shards)),
        (Config { shards: 65, ..high }, Some(PrepareError::Shards)),
        (Config { passes: 0, ..low }, Some(PrepareError::Passes)),
        (
            Config {
                passes: 1025,
                ..high
            },
            Some(PrepareError::Passes),
        ),
        (
            Config {
                max_steps: 0,
                ..low
            },
            Some(PrepareError::Steps),
        ),
        (
            Config {
                max_steps: 4_294_967_297,
                ..high
            },
            Some(PrepareError::Steps),
        ),
        (
            Config {
                max_requests: 0,
                ..low
            },
            Some(PrepareError::Requests),
        ),
        (
            Config {
                max_requests: 1_099_511_627_776,
                ..high
            },
            Some(PrepareError::Requests),
        ),
        (
            Config {
                max_waits: 0,
                ..low
            },
            Some(PrepareError::Waits),
        ),
        (
            Config {
                max_waits: 16_777_216,
                ..high
            },
            Some(PrepareError::Waits),
        ),
        (
            Config {
                shards: 0,
                passes: 0,
                ..low
            },
            Some(PrepareError::Shards),
        ),
    ] {
        let found = match prepare(rt.alloc(), *config) {
            Ok(ready) => {
                ready.abandon();
                None
            }
            Err(found) => Some(found),
        };
        assert_eq!(rt; found, *error);
    }
    Ok(())
}
