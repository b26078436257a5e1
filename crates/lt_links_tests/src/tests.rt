//! What the contracts of the links leave open: that their calls succeed while memory lasts. One test makes most
//! calls once. One asks for the length of a queue after each kind of change. Another makes the same calls at two
//! `Links`, and repeats each call in which an allocation failed.
use lt_ids::{Timestamp, TxnId};
use lt_links::{Links, NodeId, Queue, QueueKind, RecordId, Stand};
use std::alloc::AllocError;
use std::process::Abort;
use std::test::Fail;

fn stand_of(rt: &impl Abort, number: u64, wait: u32) -> Stand {
    Stand {
        number,
        txn: Some(TxnId::new(7).expect(rt, "a transaction")),
        ts: Timestamp {
            wall: number,
            logical: 0,
        },
        pass: 1,
        wait,
        active: true,
    }
}

/// Asserts that the queue has exactly these nodes in this order, along `next` and along `prev`.
fn expect_queue(rt: &impl Abort, links: &Links, queue: &Queue, nodes: &[NodeId]) {
    assert!(rt; links.contains_record(queue.id));
    let mut at = links.first(*queue);
    for node in nodes {
        assert_eq!(rt; at, Some(*node));
        assert!(rt; links.contains_node(*node));
        assert_eq!(rt; links.queue_of(*node), *queue);
        at = links.next(*node);
    }
    assert_eq!(rt; at, None);
    let mut at = links.last(*queue);
    for node in nodes.iter().rev() {
        assert_eq!(rt; at, Some(*node));
        assert!(rt; links.contains_node(*node));
        at = links.prev(*node);
    }
    assert_eq!(rt; at, None);
}

/// Asserts that the number's list has exactly these nodes in this order.
fn expect_owned(rt: &impl Abort, links: &Links, number: u64, nodes: &[NodeId]) {
    let mut at = links.owner_first(number);
    for node in nodes {
        assert_eq!(rt; at, Some(*node));
        assert!(rt; links.contains_node(*node));
        assert_eq!(rt; links.stand(*node).number, number);
        at = links.owner_next(*node);
    }
    assert_eq!(rt; at, None);
}

#[test]
fn nodes_are_found_from_both_ends_and_by_their_number(rt: HostRuntime) -> Result<(), Fail> {
    let mut links = Links::new(rt.alloc(), 0);
    let id = links.add_record()?;
    let writers = Queue {
        id,
        kind: QueueKind::Writers,
    };
    let reservation = Queue {
        id,
        kind: QueueKind::Reservation,
    };
    let n1 = links.push_front(writers, stand_of(&rt, 5, 1))?;
    assert!(rt; links.contains_node(n1));
    let n2 = links.insert_after(n1, stand_of(&rt, 9, 1))?;
    assert!(rt; links.contains_record(id));
    let n3 = links.push_front(writers, stand_of(&rt, 2, 1))?;
    expect_queue(&rt, &links, &writers, &[n3, n1, n2]);

    assert!(rt; links.contains_node(n1) && links.contains_record(id));
    links.move_front(n1, reservation);
    expect_queue(&rt, &links, &writers, &[n3, n2]);
    expect_queue(&rt, &links, &reservation, &[n1]);
    expect_owned(&rt, &links, 5, &[n1]);

    assert!(rt; links.contains_node(n1));
    assert_eq!(rt; links.remove(n1), stand_of(&rt, 5, 1));
    expect_queue(&rt, &links, &writers, &[n3, n2]);
    expect_queue(&rt, &links, &reservation, &[]);
    expect_owned(&rt, &links, 5, &[]);
    Ok(())
}

/// Asserts that the queue has this length.
fn expect_len(rt: &impl Abort, links: &Links, queue: &Queue, len: usize) {
    assert!(rt; links.contains_record(queue.id));
    assert_eq!(rt; links.len(*queue), len);
}

#[test]
fn a_queue_counts_its_nodes(rt: HostRuntime) -> Result<(), Fail> {
    let mut links = Links::new(rt.alloc(), 0);
    let id = links.add_record()?;
    let writers = Queue {
        id,
        kind: QueueKind::Writers,
    };
    let readers = Queue {
        id,
        kind: QueueKind::Readers,
    };
    expect_len(&rt, &links, &writers, 0);
    let n1 = links.push_front(writers, stand_of(&rt, 5, 1))?;
    expect_len(&rt, &links, &writers, 1);
    assert!(rt; links.contains_node(n1));
    let n2 = links.insert_after(n1, stand_of(&rt, 9, 1))?;
    expect_len(&rt, &links, &writers, 2);
    assert!(rt; links.contains_record(id));
    let n3 = links.push_front(writers, stand_of(&rt, 2, 1))?;
    expect_len(&rt, &links, &writers, 3);

    assert!(rt; links.contains_node(n3));
    links.remove(n3);
    expect_len(&rt, &links, &writers, 2);
    assert!(rt; links.contains_node(n2) && links.contains_record(id));
    links.move_front(n2, writers);
    expect_len(&rt, &links, &writers, 2);
    assert!(rt; links.contains_node(n2) && links.contains_record(id));
    links.move_front(n2, readers);
    expect_len(&rt, &links, &writers, 1);
    expect_len(&rt, &links, &readers, 1);
    Ok(())
}

/// What links look like from outside: up to 16 nodes of a queue with their wait numbers, and the first node of each number
/// below 16. They are in arrays, so that a look allocates nothing.
#[derive(Clone, Copy, PartialEq)]
struct Visible {
    nodes: [Option<NodeId>; 16],
    waits: [u32; 16],
    owned: [Option<NodeId>; 16],
}

fn look(rt: &impl Abort, links: &Links, queue: &Queue) -> Visible {
    let mut seen = Visible {
        nodes: [None; 16],
        waits: [0; 16],
        owned: [None; 16],
    };
    assert!(rt; links.contains_record(queue.id));
    let mut at = links.first(*queue);
    for place in 0..16 {
        if let Some(node) = at {
            assert!(rt; links.contains_node(node));
            seen.nodes[place] = at;
            seen.waits[place] = links.stand(node).wait;
            at = links.next(node);
        }
        seen.owned[place] = links.owner_first(place as u64);
    }
    seen
}

/// Puts an entry into a queue, after a node or at the front. If an allocation fails, checks that nothing has
/// changed and repeats the call once.
fn put(
    rt: &impl Abort,
    links: &mut Links,
    queue: &Queue,
    at: &Option<NodeId>,
    stand: &Stand,
) -> Result<NodeId, AllocError> {
    let before = look(rt, links, queue);
    for _ in 0..2 {
        assert!(rt; links.contains_record(queue.id));
        let put = match at {
            None => links.push_front(*queue, *stand),
            Some(node) => {
                assert!(rt; links.contains_node(*node));
                links.insert_after(*node, *stand)
            }
        };
        if put.is_ok() {
            return put;
        }
        assert!(rt; look(rt, links, queue) == before);
    }
    Err(AllocError)
}

/// Adds a record. If an allocation fails, checks that nothing has changed and repeats the call once.
fn add_record(rt: &impl Abort, links: &mut Links, known: &[Queue]) -> Result<RecordId, AllocError> {
    for _ in 0..2 {
        let before = known.first().map(|queue| look(rt, links, queue));
        let added = links.add_record();
        if added.is_ok() {
            return added;
        }
        assert!(rt; known.first().map(|queue| look(rt, links, queue)) == before);
    }
    Err(AllocError)
}

/// Makes the same two calls at both links, checks that they then look the same, and returns the new node.
fn grow_both(
    rt: &impl Abort,
    one: &mut Links,
    other: &mut Links,
    queue: &Queue,
    turn: u32,
    last: &Option<NodeId>,
) -> Result<NodeId, AllocError> {
    let behind = if turn % 3 == 0 { None } else { *last };
    let stand = stand_of(rt, u64::from(turn), turn);
    let node = put(rt, one, queue, &behind, &stand)?;
    let same = put(rt, other, queue, &behind, &stand)?;
    assert_eq!(rt; same, node);
    let more = add_record(rt, one, &[*queue])?;
    let same = add_record(rt, other, &[*queue])?;
    assert_eq!(rt; same, more);
    assert!(rt; look(rt, one, queue) == look(rt, other, queue));
    Ok(node)
}

/// Makes fourteen rounds of calls at both links, in a queue of their first record.
fn grow_fourteen_times(
    rt: &impl Abort,
    one: &mut Links,
    other: &mut Links,
) -> Result<(), AllocError> {
    let id = add_record(rt, one, &[])?;
    let same = add_record(rt, other, &[])?;
    assert_eq!(rt; same, id);
    let queue = Queue {
        id,
        kind: QueueKind::Readers,
    };
    let mut last = None;
    for turn in 0..14 {
        last = Some(grow_both(rt, one, other, &queue, turn, &last)?);
    }
    Ok(())
}

// Only the calls of the links allocate here. So whichever single allocation fails, this test sees one call fail,
// repeats it, and gets the same answer from both links.
#[test]
fn refused_memory_changes_no_later_answer(rt: HostRuntime) -> Result<(), Fail> {
    let mut one = Links::new(rt.alloc(), 0);
    let mut other = Links::new(rt.alloc(), 0);
    grow_fourteen_times(&rt, &mut one, &mut other)?;
    Ok(())
}
