//! The tests of what works while a thread is inside a shard, or while a waker runs. [`crate::beside`] has the
//! runs.
use crate::beside::{Apart, Polled, Woken, poll, two_acquires, wake};
use lt_rules::Reply;
use lt_table_core::{Poll, Scan};
use std::test::Fail;

/// Shards do not share a lock: for each two of four shards, an acquire in one returns while another thread is
/// inside an acquire in the other.
#[test]
fn shards_do_not_share_a_lock(rt: HostRuntime) -> Result<(), Fail> {
    let keys = [(b'a', 1), (b'b', 2), (b'c', 3), (b'd', 0)];
    for (first, first_shard) in keys {
        for (second, second_shard) in keys {
            if first != second {
                let wanted = Apart {
                    shards: (first_shard, second_shard),
                    first: Reply::Taken,
                    second: Reply::Taken,
                    is_apart: true,
                };
                let apart = two_acquires(&rt, rt.alloc(), 4, (first, second)).ok_or(
                    "the acquires",
                )?;
                assert_eq!(rt; apart, wanted);
            }
        }
    }
    Ok(())
}

/// `poll` takes no lock: a waiting request polls while another thread is inside the shard of the key that it waits
/// for.
#[test]
fn a_poll_takes_no_lock(rt: HostRuntime) -> Result<(), Fail> {
    let wanted = Polled {
        scan: Scan::Waiting(0),
        poll: Poll::Waiting,
        acquire: Reply::Taken,
        is_apart: true,
    };
    let polled = poll(&rt, rt.alloc(), (b'a', b'b')).ok_or("the poll")?;
    assert_eq!(rt; polled, wanted);
    Ok(())
}

/// The waker is called with no lock held, and after the let was shown: while it runs, the request that was let
/// through polls and makes a step in the same shard.
#[test]
fn a_waker_is_called_while_no_lock_is_held(rt: HostRuntime) -> Result<(), Fail> {
    let wanted = Woken {
        scan: Scan::Waiting(0),
        finish: Reply::Freed,
        poll: Poll::Through,
        acquire: Reply::Taken,
        is_apart: true,
    };
    let woken = wake(&rt, rt.alloc(), (b'a', b'b')).ok_or("the waker")?;
    assert_eq!(rt; woken, wanted);
    Ok(())
}
