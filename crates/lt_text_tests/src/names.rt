//! Do the names of the texts keep their values and their ranges?
//! A row is a name at or just outside the limits of its range, and what `lt_ids` makes of it: keys, tickets,
//! transactions and requests. Read next `scripts` and `histories`, the texts in which the names occur.
use lt_ids::{IdError, Key, Request, Ticket, Timestamp, TxnId};
use std::alloc::Global;
use std::test::Fail;

#[test]
fn keys_are_up_to_64_printable_bytes(rt: HostRuntime) -> Result<(), Fail> {
    let longest = Key::from_bytes(rt.alloc(), &[b'k'; 64])?;
    assert_eq!(rt; longest.as_bytes(), [b'k'; 64].as_slice());
    let too_long = Key::from_bytes(rt.alloc(), &[b'k'; 65]);
    assert_eq!(rt; too_long, Err(IdError::KeyTooLong));
    let too_long_first = Key::from_bytes(rt.alloc(), &[b' '; 65]);
    assert_eq!(rt; too_long_first, Err(IdError::KeyTooLong));
    assert_eq!(rt; Key::from_bytes(rt.alloc(), b""), Err(IdError::KeyEmpty));
    for (bytes, index) in [
        (b"a b".as_slice(), 1),
        (b"\x7f".as_slice(), 0),
        (b"!~\n ".as_slice(), 2),
    ] {
        let refused = Key::from_bytes(rt.alloc(), bytes);
        assert_eq!(rt; refused, Err(IdError::KeyByte(index)));
    }
    let key = Key::from_bytes(rt.alloc(), b"ab")?;
    assert_eq!(rt; key.copy()?, key);
    Ok(())
}

/// The key and a copy of it, each from a second call if the first runs out of memory.
fn key_and_copy(alloc: Global, bytes: &[u8]) -> Result<(Key, Key), Fail> {
    let key = match Key::from_bytes(alloc, bytes) {
        Err(IdError::Memory) => Key::from_bytes(alloc, bytes)?,
        made => made?,
    };
    let copy = match key.copy() {
        Ok(copy) => copy,
        Err(_) => key.copy()?,
    };
    Ok((key, copy))
}

/// A key stores up to 22 bytes in itself, and more elsewhere.
#[test]
fn a_short_key_and_a_long_one_keep_their_bytes(rt: HostRuntime) -> Result<(), Fail> {
    for (bytes, shorter) in [
        (
            b"abcdefghijklmnopqrstuv".as_slice(),
            b"abcdefghijklmnopqrstu".as_slice(),
        ),
        (
            b"abcdefghijklmnopqrstuvw".as_slice(),
            b"abcdefghijklmnopqrstuv".as_slice(),
        ),
    ] {
        let (key, copy) = key_and_copy(rt.alloc(), bytes)?;
        assert_eq!(rt; copy.as_bytes(), bytes);
        let (before, _) = key_and_copy(rt.alloc(), shorter)?;
        assert!(rt; before < key);
    }
    Ok(())
}

#[test]
fn a_ticket_is_a_number_and_a_wait_in_one_word(rt: HostRuntime) -> Result<(), Fail> {
    for (number, wait, value) in [
        (1, 1, Some(16777217)),
        ((1 << 40) - 1, (1 << 24) - 1, Some(18446744073709551615)),
        (0, 1, None),
        (1 << 40, 1, None),
        (1, 0, None),
        (1, 1 << 24, None),
    ] {
        let parts = Ticket::new(number, wait).map(|t| (t.number(), t.wait(), t.value()));
        assert_eq!(rt; parts, value.map(|value| (number, wait, value)));
    }
    Ok(())
}

/// A ticket is shown as its request number and its wait number, with a dot between them.
#[test]
fn a_ticket_is_shown_as_its_number_and_its_wait(rt: HostRuntime) -> Result<(), Fail> {
    for (number, wait, text) in [
        (1, 2, "1.2"),
        ((1 << 40) - 1, (1 << 24) - 1, "1099511627775.16777215"),
    ] {
        let ticket = Ticket::new(number, wait).ok_or("a ticket")?;
        let shown = match format!(in rt.alloc(); "{ticket:?}") {
            Ok(shown) => shown,
            Err(_) => format!(in rt.alloc(); "{ticket:?}")?,
        };
        assert_eq!(rt; shown.as_str(), text);
    }
    Ok(())
}

#[test]
fn transactions_and_requests_keep_their_ranges(rt: HostRuntime) -> Result<(), Fail> {
    assert_eq!(rt; TxnId::new(0), None);
    let txn = TxnId::new(u64::MAX).ok_or("the greatest transaction")?;
    assert_eq!(rt; txn.number(), u64::MAX);
    let ts = Timestamp {
        wall: 0,
        logical: 0,
    };
    for (number, pass, is_some) in [
        (1, 1, true),
        ((1 << 40) - 1, 1024, true),
        (0, 1, false),
        (1 << 40, 1, false),
        (1, 0, false),
        (1, 1025, false),
    ] {
        let request = Request::new(number, Some(txn), ts, pass, 0);
        assert_eq!(rt; request.is_some(), is_some);
    }
    Ok(())
}

#[test]
fn a_request_keeps_its_transaction_and_its_bound(rt: HostRuntime) -> Result<(), Fail> {
    let ts = Timestamp {
        wall: 0,
        logical: 0,
    };
    let without_txn = Request::new(1, None, ts, 1, 0).ok_or("no transaction and no bound")?;
    assert!(rt; without_txn.txn.is_none());
    assert_eq!(rt; without_txn.longest, 0);
    let txn = TxnId::new(7).ok_or("a transaction")?;
    let bounded = Request::new(1, Some(txn), ts, 1, u32::MAX).ok_or("the greatest bound")?;
    assert_eq!(rt; bounded.txn.map(|txn| txn.number()), Some(7));
    assert_eq!(rt; bounded.longest, u32::MAX);
    Ok(())
}

#[test]
fn a_refused_key_can_be_made_again(rt: HostRuntime) -> Result<(), Fail> {
    let key = match Key::from_bytes(rt.alloc(), b"ab") {
        Err(IdError::Memory) => Key::from_bytes(rt.alloc(), b"ab")?,
        made => made?,
    };
    let copy = match key.copy() {
        Ok(copy) => copy,
        Err(_) => key.copy()?,
    };
    assert_eq!(rt; copy, key);
    Ok(())
}
