//! Does an explanation say why a check refuses a line? The rows are worked out by hand from docs/FORMATS.md. A call that
//! runs out of memory is made again, so the tests also pass if any one allocation fails.
use lt_checker::{CheckError, Fault, HistoryLineError, read_line};
use lt_rules::Reply;
use lt_trace_check::{
    AuditError, BadWord, Explained, LineReason, bad_word, explain, read_first_line,
};
use std::alloc::Global;
use std::test::Fail;

/// The explanation of the line of this text.
fn explained(alloc: Global, text: &str, line: usize) -> Result<Explained, AuditError> {
    let mut reader = text.as_bytes();
    match explain(alloc, &mut reader, line) {
        Err(AuditError::Check(CheckError::Memory)) => {
            let mut reader = text.as_bytes();
            explain(alloc, &mut reader, line)
        }
        explained => explained,
    }
}

/// What an explanation says of a line.
enum Says {
    /// It is no line of its version.
    Shape,
    /// Its key comes before this one.
    After(&'static str),
    /// This index is due.
    Due(u64),
    /// The rules give this reply, and so many lets. So many requests are queued at the key before the line.
    Gives(Reply, usize, usize),
}

/// Whether the explanation says this.
fn is_said(explained: &Explained, says: &Says) -> bool {
    match (says, &explained.reason) {
        (Says::Shape, LineReason::Shape) => true,
        (Says::After(key), LineReason::KeyOrder(latest)) => latest.as_slice() == key.as_bytes(),
        (Says::Due(index), LineReason::Index(due)) => *index == *due,
        (Says::Gives(reply, lets, queued), LineReason::Rules(state, expected)) => {
            let queue = state.writers.len().saturating_add(state.readers.len());
            *reply == expected.reply && *lets == expected.tickets.len() && *queued == queue
        }
        _ => false,
    }
}

/// A text, the line that is explained, its first fault, what is said, and how many lines before it are kept.
type ReasonRow = (&'static str, usize, Option<Fault>, Says, usize);

const REASONS: [ReasonRow; 11] = [
    (
        "locks 2\nb 1 1 acquire 9 1.0 = taken\na 2 1 finish 9 = freed\n",
        3,
        Some(Fault::KeyOrder),
        Says::After("b"),
        1,
    ),
    // The lines before that of another key are kept, but its own key has none.
    (
        "locks 2\na 1 1 acquire 9 1.0 = taken\nab 1 1 acquire 9 1.0 = taken\na 2 3 finish 9 = freed\n",
        4,
        Some(Fault::KeyOrder),
        Says::After("ab"),
        1,
    ),
    (
        "locks 2\na 1 1 acquire 9 1.0 = taken\na 3 1 finish 9 = freed\n",
        3,
        Some(Fault::Index),
        Says::Due(2),
        1,
    ),
    (
        "locks 2\na 1 1 acquire 9 1.0 = taken\nb 2 1 finish 9 = other\n",
        3,
        Some(Fault::Index),
        Says::Due(1),
        1,
    ),
    (
        "locks 2\na 2 1 acquire 9 1.0 = taken\n",
        2,
        Some(Fault::Index),
        Says::Due(1),
        0,
    ),
    // A word of the second version, in a text of the first. Its index is wrong too.
    (
        "locks 1\na 7 1 visit 1.1 - 1.0 w = pass\n",
        2,
        Some(Fault::Shape),
        Says::Shape,
        0,
    ),
    (
        "locks 2\na 1 1 acquire 9 1.0 taken\n",
        2,
        Some(Fault::Shape),
        Says::Shape,
        0,
    ),
    (
        "locks 2\na 1 1 acquire 9 1.0 = other\n",
        2,
        Some(Fault::WrongReply),
        Says::Gives(Reply::Taken, 0, 0),
        0,
    ),
    // At the second key, with seven lines before the fault.
    (
        "locks 2\na 1 1 acquire 9 1.0 = taken\nb 1 1 acquire 9 1.0 = taken\nb 2 1 visit 1.1 1 1.0 w = wait\nb 3 1 visit 2.1 2 1.0 r = wait\nb 4 1 look 1 = first 9 held\nb 5 1 look 2 = for 9 held\nb 6 1 look 3 = nothing\nb 7 1 look 4 = nothing\nb 8 1 finish 9 = freed let 1.1 2.1\n",
        10,
        Some(Fault::WrongLets),
        Says::Gives(Reply::Freed, 2, 2),
        5,
    ),
    // The rules give what the line says.
    (
        "locks 2\na 1 1 acquire 9 1.0 = taken\na 2 1 finish 9 = freed",
        3,
        Some(Fault::Shape),
        Says::Gives(Reply::Freed, 0, 0),
        1,
    ),
    (
        "locks 2\na 1 1 acquire 9 1.0 = taken\na 2 1 finish 9 = freed\n",
        3,
        None,
        Says::Gives(Reply::Freed, 0, 0),
        1,
    ),
];

#[test]
fn an_explanation_says_why_a_line_is_refused(rt: HostRuntime) -> Result<(), Fail> {
    for (i, (text, line, fault, says, before)) in REASONS.iter().enumerate() {
        let explained = explained(rt.alloc(), text, *line)?;
        assert!(rt; explained.fault() == *fault, "row {i}");
        assert!(rt; is_said(&explained, says), "row {i}");
        assert!(rt; explained.before.len() == *before, "row {i}");
    }
    Ok(())
}

const KEY: &str = "a key: 1 to 64 bytes, each from 0x21 to 0x7E";

const INDEX: &str = "an index: a number from 1 to 2^64 - 1";

const PASS: &str = "a pass: a number from 1 to 1024";

const CALL: &str = "a call: visit, acquire, update, finish, leave or look";

const TICKET: &str = "a ticket N.K: N from 1 to 2^40 - 1, K from 1 to 2^24 - 1";

const OWNER: &str = "a transaction: a number from 1 to 2^64 - 1, or - for none";

const OLD_OWNER: &str = "a transaction: a number from 1 to 2^64 - 1 (- came with locks 2)";

const TXN: &str = "a transaction: a number from 1 to 2^64 - 1";

const TIME: &str = "a timestamp WALL.LOGICAL: WALL from 0 to 2^64 - 1, LOGICAL from 0 to 2^32 - 1";

const ACCESS: &str = "an access: r or w";

const BOUND: &str = "a bound max=M: M from 1 to 2^32 - 1";

const EQUALS_OR_BOUND: &str = "the sign =, or a bound max=M before it";

const OLD_EQUALS: &str = "the sign = (a bound max=M came with locks 2)";

const EQUALS: &str = "the sign =";

const REQUEST: &str = "a request: a number from 1 to 2^40 - 1";

const OF_VISIT: &str = "the reply of a visit: pass, wait or long";

const OLD_OF_VISIT: &str = "the reply of a visit: pass or wait (long came with locks 2)";

const OF_ACQUIRE: &str = "the reply of an acquire: taken, kept, raised or other";

const OF_UPDATE: &str = "the reply of an update: kept, raised or other";

const OF_FINISH: &str = "the reply of a finish: freed or other";

const OF_LEAVE: &str = "the reply of a leave: left or absent";

const OF_LOOK: &str = "the reply of a look: nothing, reserved, idle, for, first or own";

const STANDING: &str = "held or reserved";

const LET: &str = "let and the tickets that the step let through, or the end of the line";

/// A line of the second version, and the number of its first bad word, the word, and what has to stand there.
type WordRow = (&'static str, usize, Option<&'static str>, &'static str);

const WORDS: [WordRow; 36] = [
    ("", 1, Some(""), KEY),
    (" a 1 1 finish 9 = freed", 1, Some(""), KEY),
    ("\u{e9} 1 1 finish 9 = freed", 1, Some("\u{e9}"), KEY),
    ("a", 2, None, INDEX),
    ("a 0 1 finish 9 = freed", 2, Some("0"), INDEX),
    ("a 01 1 finish 9 = freed", 2, Some("01"), INDEX),
    ("a +1 1 finish 9 = freed", 2, Some("+1"), INDEX),
    (
        "a 18446744073709551616 1 finish 9 = freed",
        2,
        Some("18446744073709551616"),
        INDEX,
    ),
    ("a 1 0 finish 9 = freed", 3, Some("0"), PASS),
    ("a 1 1025 finish 9 = freed", 3, Some("1025"), PASS),
    ("a 1 1", 4, None, CALL),
    ("a 1 1 lock 9 = freed", 4, Some("lock"), CALL),
    ("a 1 1 visit 1 1 1.0 r = pass", 5, Some("1"), TICKET),
    ("a 1 1 visit 1.1 x 1.0 r = pass", 6, Some("x"), OWNER),
    ("a 1 1 visit 1.1 1 1 r = pass", 7, Some("1"), TIME),
    ("a 1 1 visit 1.1 1 1.0 rw = pass", 8, Some("rw"), ACCESS),
    (
        "a 1 1 visit 1.1 1 1.0 w max=0 = long",
        9,
        Some("max=0"),
        BOUND,
    ),
    (
        "a 1 1 visit 1.1 1 1.0 w max=1 long",
        10,
        Some("long"),
        EQUALS,
    ),
    (
        "a 1 1 visit 1.1 1 1.0 w : pass",
        9,
        Some(":"),
        EQUALS_OR_BOUND,
    ),
    ("a 1 1 visit 1.1 1 1.0 w", 9, None, EQUALS_OR_BOUND),
    (
        "a 1 1 visit 1.1 1 1.0 w = taken",
        10,
        Some("taken"),
        OF_VISIT,
    ),
    ("a 1 1 acquire 0 1.0 = taken", 5, Some("0"), TXN),
    ("a 1 1 acquire  9 1.0 = taken", 5, Some(""), TXN),
    (
        "a 1 1 acquire 9 1.0 = taken\r",
        8,
        Some("taken\r"),
        OF_ACQUIRE,
    ),
    ("a 1 1 update 9 1.0 = taken", 8, Some("taken"), OF_UPDATE),
    ("a 1 1 finish 9 == freed", 6, Some("=="), EQUALS),
    ("a 1 1 finish 9 = left", 7, Some("left"), OF_FINISH),
    (
        "a 1 1 leave 1099511627776 = left",
        5,
        Some("1099511627776"),
        REQUEST,
    ),
    ("a 1 1 leave 2 = gone", 7, Some("gone"), OF_LEAVE),
    ("a 1 1 look 2 = none", 7, Some("none"), OF_LOOK),
    ("a 1 1 look 2 = for 9 free", 9, Some("free"), STANDING),
    ("a 1 1 look 2 = own -", 8, Some("-"), TXN),
    ("a 1 1 finish 9 = freed ", 8, Some(""), LET),
    ("a 1 1 finish 9 = freed 1.1", 8, Some("1.1"), LET),
    ("a 1 1 finish 9 = freed let", 9, None, TICKET),
    ("a 1 1 finish 9 = freed let 1.1 2", 10, Some("2"), TICKET),
];

/// The same of lines that the second version has, and the first has not.
const OLD_WORDS: [WordRow; 3] = [
    ("a 1 1 visit 1.1 - 1.0 w = pass", 6, Some("-"), OLD_OWNER),
    (
        "a 1 1 visit 1.1 1 1.0 w max=1 = wait",
        9,
        Some("max=1"),
        OLD_EQUALS,
    ),
    (
        "a 1 1 visit 1.1 1 1.0 w = long",
        10,
        Some("long"),
        OLD_OF_VISIT,
    ),
];

/// Whether the bytes are a line of the second version.
fn is_line(alloc: Global, bytes: &[u8]) -> bool {
    match read_line(alloc, bytes) {
        Err(HistoryLineError::Memory) => read_line(alloc, bytes).is_ok(),
        read => read.is_ok(),
    }
}

/// The bad word of a row.
fn word_of(row: &WordRow) -> Option<BadWord<'static>> {
    let (_, number, word, wanted) = *row;
    Some(BadWord {
        number,
        word: match word {
            Some(word) => Some(word.as_bytes()),
            None => None,
        },
        wanted,
    })
}

#[test]
fn the_first_bad_word_of_a_line_is_named(rt: HostRuntime) {
    for (i, row) in WORDS.iter().enumerate() {
        let line = row.0.as_bytes();
        assert!(rt; bad_word(line, 2) == word_of(row), "row {i}");
        assert!(rt; !is_line(rt.alloc(), line), "row {i}");
    }
    for (i, row) in OLD_WORDS.iter().enumerate() {
        let line = row.0.as_bytes();
        assert!(rt; bad_word(line, 1) == word_of(row), "old row {i}");
        assert!(rt; bad_word(line, 2).is_none(), "old row {i}");
        assert!(rt; is_line(rt.alloc(), line), "old row {i}");
    }
}

#[test]
fn a_first_line_is_read_with_its_line_end(rt: HostRuntime) -> Result<(), Fail> {
    for (text, line) in [
        ("locks 3\na 1\n", "locks 3\n"),
        ("locks", "locks"),
        ("", ""),
    ] {
        let mut reader = text.as_bytes();
        let read = match read_first_line(rt.alloc(), &mut reader) {
            Err(AuditError::Check(CheckError::Memory)) => {
                let mut reader = text.as_bytes();
                read_first_line(rt.alloc(), &mut reader)?
            }
            read => read?,
        };
        assert_eq!(rt; read.as_slice(), line.as_bytes());
    }
    Ok(())
}
