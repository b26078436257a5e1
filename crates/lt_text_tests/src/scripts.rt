//! Is a script read as its commands?
//! A row is a text and what `read_script` gives for it. A call that runs out of memory is made again. Read next
//! `docs/FORMATS.md`, which has the lines and the order of the faults; tools/gate/compare_runs has scripts with each fault.
use lt_ids::{Access, Key, Timestamp, TxnId};
use lt_script::{Accesses, Action, Command, Script, ScriptError, ScriptPass, read_script};
use std::alloc::Global;
use std::test::*;

const MIXED: &str =
    "# a comment\n\n   \r\n7 scan\r\n 64  open 18446744073709551615 0.4294967295 a::r   b:w  \n\n1 leave\n2 finish 7 k\n3 open - 1.0  max=4294967295  a::r b:w";

fn reads_and_writes(alloc: Global) -> Option<Accesses> {
    let mut list = Vec::new(alloc);
    list.push((Key::from_bytes(alloc, b"a:").ok()?, Access::Read))
        .ok()?;
    list.push((Key::from_bytes(alloc, b"b").ok()?, Access::Write))
        .ok()?;
    Some(Accesses::new(list))
}

fn mixed(alloc: Global) -> Option<Vec<Command>> {
    let open = Action::Open {
        txn: Some(TxnId::new(u64::MAX)?),
        ts: Timestamp {
            wall: 0,
            logical: u32::MAX,
        },
        accesses: reads_and_writes(alloc)?,
        longest: 0,
    };
    let open_without_txn = Action::Open {
        txn: None,
        ts: Timestamp {
            wall: 1,
            logical: 0,
        },
        accesses: reads_and_writes(alloc)?,
        longest: u32::MAX,
    };
    let finish = Action::Finish {
        txn: TxnId::new(7)?,
        key: Key::from_bytes(alloc, b"k").ok()?,
    };
    let mut commands = Vec::new(alloc);
    for (line, pass, action) in [
        (4, 7, Action::Scan),
        (5, 64, open),
        (7, 1, Action::Leave),
        (8, 2, finish),
        (9, 3, open_without_txn),
    ] {
        let pass = ScriptPass::new(pass)?;
        commands.push(Command { line, pass, action }).ok()?;
    }
    Some(commands)
}

/// What the text is read as, by a second call if the first runs out of memory.
fn read_bytes(rt: &HostRuntime, text: &[u8]) -> Result<Script, ScriptError> {
    match read_script(rt.alloc(), text) {
        Err(ScriptError::Memory) => read_script(rt.alloc(), text),
        read => read,
    }
}

fn read(rt: &HostRuntime, text: &str) -> Result<Script, ScriptError> {
    read_bytes(rt, text.as_bytes())
}

/// Skipped lines count in the numbers of lines, a line may end with LF or CR LF, and spaces may surround words.
#[test]
fn lines_are_counted_and_words_are_cut(rt: HostRuntime) -> Result<(), Fail> {
    let script = read(&rt, MIXED)?;
    let mut expected = mixed(rt.alloc());
    if expected.is_none() {
        expected = mixed(rt.alloc());
    }
    let expected = expected.ok_or("memory is refused once")?;
    assert_eq!(rt; script.as_slice(), expected.as_slice());
    assert_eq!(rt; script.into_vec().len(), 5);
    Ok(())
}

/// The accesses of the first line, if it opens a request.
fn opened(script: &Script) -> Option<&[(Key, Access)]> {
    match &script.as_slice().first()?.action {
        Action::Open { accesses, .. } => Some(accesses.as_slice()),
        _ => None,
    }
}

fn named(script: &Script, index: usize) -> Option<(&[u8], Access)> {
    let (key, access) = opened(script)?.get(index)?;
    Some((key.as_bytes(), *access))
}

/// A request names no keys or several, in the order of its line. A key may occur twice.
#[test]
fn a_request_names_any_number_of_keys(rt: HostRuntime) -> Result<(), Fail> {
    let none = read(&rt, "1 open 7 1.0")?;
    assert_eq!(rt; opened(&none).map(|accesses| accesses.len()), Some(0));
    let three = read(&rt, "1 open 7 1.0 b:w a:r b:r")?;
    assert_eq!(rt; opened(&three).map(|accesses| accesses.len()), Some(3));
    assert_eq!(rt; named(&three, 0), Some((b"b".as_slice(), Access::Write)));
    assert_eq!(rt; named(&three, 1), Some((b"a".as_slice(), Access::Read)));
    assert_eq!(rt; named(&three, 2), Some((b"b".as_slice(), Access::Read)));
    Ok(())
}

/// The bound that the first line gives its request, and how many accesses the request has.
fn bounded(script: &Script) -> Option<(u32, usize)> {
    match &script.as_slice().first()?.action {
        Action::Open {
            accesses,
            longest,
            ..
        } => Some((*longest, accesses.as_slice().len())),
        _ => None,
    }
}

/// Only the fifth word can be a bound, and only if it is not a key with its access.
#[test]
fn a_bound_precedes_the_keys(rt: HostRuntime) -> Result<(), Fail> {
    for (text, longest, keys) in [
        ("1 open 7 1.0", 0, 0),
        ("1 open 7 1.0 a:w", 0, 1),
        ("1 open 7 1.0 max=1", 1, 0),
        ("1 open 7 1.0 max=2 a:w b:r", 2, 2),
        ("1 open - 1.0 max=4294967295 max=1:w", u32::MAX, 1),
        ("1 open 7 1.0 a:r max=1:w", 0, 2),
        ("1 open 7 1.0 max=2:w max=1:r", 0, 2),
    ] {
        let script = read(&rt, text)?;
        assert_eq!(rt; bounded(&script), Some((longest, keys)), "{text}");
    }
    for (text, key, access) in [
        ("1 open 7 1.0 max=0:r", b"max=0".as_slice(), Access::Read),
        ("1 open 7 1.0 max=5:w", b"max=5".as_slice(), Access::Write),
        ("1 open 7 1.0 max=:w", b"max=".as_slice(), Access::Write),
        ("1 open 7 1.0 max:r", b"max".as_slice(), Access::Read),
    ] {
        let script = read(&rt, text)?;
        assert_eq!(rt; bounded(&script), Some((0, 1)), "{text}");
        assert_eq!(rt; named(&script, 0), Some((key, access)), "{text}");
    }
    Ok(())
}
