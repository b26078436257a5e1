//! Do the statistics match those that were worked out by hand?
//!
//! A row is a step; a case has its steps and the expected summary. Some cases are not legal texts, because the statistics
//! count whatever they are given. A case that runs out of memory is played again, so the tests pass under any single
//! allocation failure.
use lt_checker::{Line, LineStep};
use lt_ids::{Access, Key, Ticket, Timestamp};
use lt_rules::{Call, Reply};
use lt_trace_statistics::{HotKey, LongestQueue, LongestWait, Statistics, StepCounts, TextSummary};
use std::alloc::Global;
use std::process::Abort;
use std::test::Fail;

/// What a step does. The wait number of each request is 1.
#[derive(Clone, Copy)]
enum Does {
    /// The request with this number visits, and has to wait.
    Waits(u64),
    /// It visits, and passes.
    Passes(u64),
    Leaves(u64),
    Looks,
}

/// A step: its key and index, what it does, the requests that it lets through, and the length of the queue after it.
type StepRow<'a> = (&'a [u8], u64, Does, &'a [u64], u64);

/// A case: its steps; its keys, steps, waits, lets and waits that no step ended; the longest queue by key, index and
/// length; the longest wait by key, request, first and last index; the hottest keys with their steps and waits.
#[derive(Clone, Copy)]
struct Case<'a> {
    steps: &'a [StepRow<'a>],
    counts: [u64; 5],
    queue: Option<(&'a [u8], u64, u64)>,
    wait: Option<(&'a [u8], u64, u64, u64)>,
    hottest: &'a [(&'a [u8], u64, u64)],
}

const CASES: [Case; 5] = [
    Case {
        steps: &[],
        counts: [0, 0, 0, 0, 0],
        queue: None,
        wait: None,
        hottest: &[],
    },
    // Two keys. The first of two queues of length 2 is the longest. Request 1 leaves b, so nothing ends its wait there.
    Case {
        steps: &[
            (b"a", 1, Does::Passes(4), &[], 0),
            (b"a", 2, Does::Waits(1), &[], 1),
            (b"a", 3, Does::Waits(2), &[], 2),
            (b"a", 4, Does::Leaves(4), &[2, 1], 0),
            (b"b", 1, Does::Passes(4), &[], 0),
            (b"b", 2, Does::Waits(1), &[], 1),
            (b"b", 3, Does::Waits(3), &[], 2),
            (b"b", 4, Does::Leaves(1), &[], 1),
            (b"b", 5, Does::Looks, &[], 1),
            (b"b", 6, Does::Leaves(4), &[3], 0),
        ],
        counts: [2, 10, 4, 3, 1],
        queue: Some((b"a", 3, 2)),
        wait: Some((b"b", 3, 3, 6)),
        hottest: &[(b"b", 6, 2), (b"a", 4, 2)],
    },
    // Request 1 visits again, so its wait begins again. Request 2 has left when its ticket is let through.
    Case {
        steps: &[
            (b"k", 1, Does::Looks, &[], 0),
            (b"k", 2, Does::Waits(1), &[], 1),
            (b"k", 3, Does::Waits(1), &[], 1),
            (b"k", 4, Does::Waits(2), &[], 2),
            (b"k", 5, Does::Looks, &[1], 1),
            (b"k", 6, Does::Leaves(2), &[], 0),
            (b"k", 9, Does::Looks, &[2], 0),
        ],
        counts: [1, 7, 3, 2, 1],
        queue: Some((b"k", 4, 2)),
        wait: Some((b"k", 1, 3, 5)),
        hottest: &[(b"k", 7, 3)],
    },
    // A wait at one key is not ended at another.
    Case {
        steps: &[
            (b"a", 1, Does::Waits(1), &[], 1),
            (b"b", 5, Does::Looks, &[1], 0),
        ],
        counts: [2, 2, 1, 1, 0],
        queue: Some((b"a", 1, 1)),
        wait: None,
        hottest: &[(b"a", 1, 1), (b"b", 1, 0)],
    },
    // Twelve keys. The last one has the most steps, and equal ones come by key.
    Case {
        steps: &[
            (b"a", 1, Does::Looks, &[], 0),
            (b"b", 1, Does::Looks, &[], 0),
            (b"c", 1, Does::Looks, &[], 0),
            (b"d", 1, Does::Looks, &[], 0),
            (b"e", 1, Does::Looks, &[], 0),
            (b"f", 1, Does::Looks, &[], 0),
            (b"g", 1, Does::Looks, &[], 0),
            (b"h", 1, Does::Looks, &[], 0),
            (b"i", 1, Does::Looks, &[], 0),
            (b"j", 1, Does::Looks, &[], 0),
            (b"k", 1, Does::Looks, &[], 0),
            (b"l", 1, Does::Looks, &[], 0),
            (b"l", 2, Does::Looks, &[], 0),
        ],
        counts: [12, 13, 0, 0, 0],
        queue: None,
        wait: None,
        hottest: &[
            (b"l", 2, 0),
            (b"a", 1, 0),
            (b"b", 1, 0),
            (b"c", 1, 0),
            (b"d", 1, 0),
            (b"e", 1, 0),
            (b"f", 1, 0),
            (b"g", 1, 0),
            (b"h", 1, 0),
            (b"i", 1, 0),
        ],
    },
];

/// The first wait of the request with this number.
fn ticket(number: u64) -> Option<Ticket> {
    Ticket::new(number, 1)
}

/// The call of a step, and its reply.
fn made(does: Does) -> Option<(Call, Reply)> {
    let (number, reply) = match does {
        Does::Waits(number) => (number, Reply::MustWait),
        Does::Passes(number) => (number, Reply::Passed),
        Does::Leaves(number) => return Some((Call::Leave { number }, Reply::Left)),
        Does::Looks => return Some((Call::Look { number: 1 }, Reply::Nothing)),
    };
    let call = Call::Visit {
        ticket: ticket(number)?,
        txn: None,
        ts: Timestamp {
            wall: 10,
            logical: 0,
        },
        access: Access::Write,
        longest: 0,
    };
    Some((call, reply))
}

/// The line of the row. Whose pass makes its call does not matter.
fn line_of(alloc: Global, row: &StepRow) -> Option<Line> {
    let (key, index, does, lets, _) = *row;
    let key = Key::from_bytes(alloc, key).ok()?;
    let (call, reply) = made(does)?;
    let mut tickets = Vec::new(alloc);
    for number in lets {
        tickets.push(ticket(*number)?).ok()?;
    }
    let step = LineStep {
        index,
        pass: 1,
        call,
        reply,
    };
    Some(Line { key, step, tickets })
}

/// The summary of these steps, or `None` if memory runs out.
fn summed(alloc: Global, steps: &[StepRow]) -> Option<TextSummary> {
    let mut statistics = Statistics::new(alloc);
    for row in steps {
        statistics.take(&line_of(alloc, row)?, row.4).ok()?;
    }
    statistics.finish().ok()
}

/// The parts of a longest queue.
fn queue_of(longest: &Option<LongestQueue>) -> Option<(&[u8], u64, u64)> {
    match longest {
        Some(longest) => Some((longest.key.as_bytes(), longest.index, longest.requests)),
        None => None,
    }
}

/// The parts of a longest wait.
fn wait_of(longest: &Option<LongestWait>) -> Option<(&[u8], u64, u64, u64)> {
    match longest {
        Some(longest) => Some((
            longest.key.as_bytes(),
            longest.ticket.number(),
            longest.from,
            longest.to,
        )),
        None => None,
    }
}

/// Fails unless these are the counts of a case.
fn expect_counts(rt: &impl Abort, found: &StepCounts, wanted: [u64; 5]) {
    let unended = found.unended();
    assert_eq!(rt; found.keys, wanted[0]);
    assert_eq!(rt; found.steps, wanted[1]);
    assert_eq!(rt; found.waits, wanted[2]);
    assert_eq!(rt; found.lets, wanted[3]);
    assert_eq!(rt; unended, wanted[4]);
}

/// Fails unless these are the hottest keys of a case.
fn expect_hottest(rt: &impl Abort, found: &[HotKey], wanted: &[(&[u8], u64, u64)]) {
    assert_eq!(rt; found.len(), wanted.len());
    for (hot, want) in found.iter().zip(wanted) {
        let (key, steps, waits) = *want;
        assert_eq!(rt; hot.key.as_bytes(), key);
        assert_eq!(rt; hot.steps, steps);
        assert_eq!(rt; hot.waits, waits);
    }
}

/// Fails unless the summary is that of the case.
fn expect(rt: &impl Abort, summary: &TextSummary, case: &Case) {
    let Case {
        counts,
        queue,
        wait,
        hottest,
        ..
    } = *case;
    expect_counts(rt, &summary.counts, counts);
    let found_queue = queue_of(&summary.longest_queue);
    let found_wait = wait_of(&summary.longest_wait);
    assert!(rt; found_queue == queue);
    assert!(rt; found_wait == wait);
    expect_hottest(rt, &summary.hottest, hottest);
}

#[test]
fn each_summary_is_as_worked_out(rt: HostRuntime) -> Result<(), Fail> {
    for case in &CASES {
        let summary = match summed(rt.alloc(), case.steps) {
            None => summed(rt.alloc(), case.steps).ok_or("a summary")?,
            Some(summary) => summary,
        };
        expect(&rt, &summary, case);
    }
    Ok(())
}
