//! Which word of a line is the first that cannot stand in its place? [`bad_word`] reads a line from left to right, as
//! docs/FORMATS.md describes lines, and says what has to stand there.
use lt_ids::{MAX_KEY_BYTES, MAX_PASS};
use lt_text::call::request_number;
use lt_text::field::{access, bound, is_bound, owner, ticket, timestamp, txn};
use lt_text::number::number;
use lt_text::words::Words;

/// The first word of a line that cannot stand in its place.
#[derive(Clone, Copy, Debug, PartialEq, Eq)]
pub struct BadWord<'a> {
    /// Which word of the line it is, from 1.
    pub number: usize,
    /// The word, which is empty between two spaces that follow one another. `None` if the line ends before it.
    pub word: Option<&'a [u8]>,
    /// What has to stand there.
    pub wanted: &'static str,
}

/// What a word of a line is.
#[derive(Clone, Copy, Debug, PartialEq, Eq)]
enum WordKind {
    Key,
    Index,
    Pass,
    CallName,
    Ticket,
    Owner,
    Txn,
    Time,
    Access,
    Bound,
    /// The sign `=` after a visit, which may have a bound.
    EqualsOrBound,
    Equals,
    Request,
    VisitReply,
    AcquireReply,
    UpdateReply,
    FinishReply,
    LeaveReply,
    LookReply,
    Standing,
    Let,
}

/// What has to stand where a word of this kind is, in a text of the first version or of a later one.
fn wanted(kind: WordKind, is_first: bool) -> &'static str {
    match kind {
        WordKind::Key => "a key: 1 to 64 bytes, each from 0x21 to 0x7E",
        WordKind::Index => "an index: a number from 1 to 2^64 - 1",
        WordKind::Pass => "a pass: a number from 1 to 1024",
        WordKind::CallName => "a call: visit, acquire, update, finish, leave or look",
        WordKind::Ticket => "a ticket N.K: N from 1 to 2^40 - 1, K from 1 to 2^24 - 1",
        WordKind::Owner if is_first => {
            "a transaction: a number from 1 to 2^64 - 1 (- came with locks 2)"
        }
        WordKind::Owner => "a transaction: a number from 1 to 2^64 - 1, or - for none",
        WordKind::Txn => "a transaction: a number from 1 to 2^64 - 1",
        WordKind::Time => {
            "a timestamp WALL.LOGICAL: WALL from 0 to 2^64 - 1, LOGICAL from 0 to 2^32 - 1"
        }
        WordKind::Access => "an access: r or w",
        WordKind::Bound => "a bound max=M: M from 1 to 2^32 - 1",
        WordKind::EqualsOrBound if is_first => "the sign = (a bound max=M came with locks 2)",
        WordKind::EqualsOrBound => "the sign =, or a bound max=M before it",
        WordKind::Equals => "the sign =",
        WordKind::Request => "a request: a number from 1 to 2^40 - 1",
        WordKind::VisitReply if is_first => {
            "the reply of a visit: pass or wait (long came with locks 2)"
        }
        WordKind::VisitReply => "the reply of a visit: pass, wait or long",
        WordKind::AcquireReply => "the reply of an acquire: taken, kept, raised or other",
        WordKind::UpdateReply => "the reply of an update: kept, raised or other",
        WordKind::FinishReply => "the reply of a finish: freed or other",
        WordKind::LeaveReply => "the reply of a leave: left or absent",
        WordKind::LookReply => "the reply of a look: nothing, reserved, idle, for, first or own",
        WordKind::Standing => "held or reserved",
        WordKind::Let => "let and the tickets that the step let through, or the end of the line",
    }
}

/// Whether a number is in a range that begins with 1.
fn is_up_to(word: &[u8], most: u64) -> bool {
    match number(word) {
        Some(n) => 1 <= n && n <= most,
        None => false,
    }
}

/// Whether the word is a key.
fn is_key(word: &[u8]) -> bool {
    !word.is_empty() && word.len() <= MAX_KEY_BYTES && word.iter().all(|b| 0x21 <= *b && *b <= 0x7E)
}

/// Whether the word is one of these.
fn is_one_of(word: &[u8], names: &[&str]) -> bool {
    names.iter().any(|name| name.as_bytes() == word)
}

/// Whether the word is of this kind, in a text of the first version or of a later one.
fn is_of_kind(word: &[u8], kind: WordKind, is_first: bool) -> bool {
    match kind {
        WordKind::Key => is_key(word),
        WordKind::Index => is_up_to(word, u64::MAX),
        WordKind::Pass => is_up_to(word, u64::from(MAX_PASS)),
        WordKind::CallName => is_one_of(
            word,
            &["visit", "acquire", "update", "finish", "leave", "look"],
        ),
        WordKind::Ticket => ticket(word).is_some(),
        WordKind::Owner if is_first => txn(word).is_some(),
        WordKind::Owner => owner(word).is_some(),
        WordKind::Txn => txn(word).is_some(),
        WordKind::Time => timestamp(word).is_some(),
        WordKind::Access => access(word).is_some(),
        WordKind::Bound => bound(word).is_some(),
        WordKind::EqualsOrBound | WordKind::Equals => word == b"=".as_slice(),
        WordKind::Request => request_number(word).is_some(),
        WordKind::VisitReply if is_first => is_one_of(word, &["pass", "wait"]),
        WordKind::VisitReply => is_one_of(word, &["pass", "wait", "long"]),
        WordKind::AcquireReply => is_one_of(word, &["taken", "kept", "raised", "other"]),
        WordKind::UpdateReply => is_one_of(word, &["kept", "raised", "other"]),
        WordKind::FinishReply => is_one_of(word, &["freed", "other"]),
        WordKind::LeaveReply => is_one_of(word, &["left", "absent"]),
        WordKind::LookReply => is_one_of(
            word,
            &["nothing", "reserved", "idle", "for", "first", "own"],
        ),
        WordKind::Standing => is_one_of(word, &["held", "reserved"]),
        WordKind::Let => word == b"let".as_slice(),
    }
}

/// The words of the call with this name, after its name. A bound is left out.
fn kinds_of_call(name: &[u8]) -> &'static [WordKind] {
    match name {
        b"visit" => &[
            WordKind::Ticket,
            WordKind::Owner,
            WordKind::Time,
            WordKind::Access,
        ],
        b"acquire" | b"update" => &[WordKind::Txn, WordKind::Time],
        b"finish" => &[WordKind::Txn],
        _ => &[WordKind::Request],
    }
}

/// The first word of the reply to the call with this name.
fn kind_of_reply(name: &[u8]) -> WordKind {
    match name {
        b"visit" => WordKind::VisitReply,
        b"acquire" => WordKind::AcquireReply,
        b"update" => WordKind::UpdateReply,
        b"finish" => WordKind::FinishReply,
        b"leave" => WordKind::LeaveReply,
        _ => WordKind::LookReply,
    }
}

/// The words of a reply after this first one.
fn kinds_after(reply: &[u8]) -> &'static [WordKind] {
    match reply {
        b"for" | b"first" => &[WordKind::Txn, WordKind::Standing],
        b"own" => &[WordKind::Txn],
        _ => &[],
    }
}

/// The words of a line that were not read yet.
#[derive(Drop)]
struct LineWords<'a> {
    words: Words<'a>,
    /// How many words were read.
    count: usize,
    /// Whether the text is of the first version.
    is_first: bool,
}

impl<'a> LineWords<'a> {
    /// The next word, which stays. It is empty if there is none.
    fn peek(&self) -> &'a [u8] {
        match self.words.peek() {
            Some(word) => word,
            None => b"",
        }
    }

    /// Reads a word, and returns it if it is not of this kind.
    fn read(&mut self, kind: WordKind) -> Option<BadWord<'a>> {
        self.count = self.count.saturating_add(1);
        let word = self.words.next();
        if let Some(bytes) = word {
            if is_of_kind(bytes, kind, self.is_first) {
                return None;
            }
        }
        Some(BadWord {
            number: self.count,
            word,
            wanted: wanted(kind, self.is_first),
        })
    }

    /// Reads a word of each of these kinds, up to the first that is not of its kind.
    fn read_all(&mut self, kinds: &[WordKind]) -> Option<BadWord<'a>> {
        for kind in kinds {
            if let Some(bad) = self.read(*kind) {
                return Some(bad);
            }
        }
        None
    }

    /// Reads the sign `=` after a visit, with the bound before it if there is one.
    fn read_bound(&mut self) -> Option<BadWord<'a>> {
        if self.is_first || !is_bound(self.peek()) {
            return self.read(WordKind::EqualsOrBound);
        }
        self.read_all(&[WordKind::Bound, WordKind::Equals])
    }

    /// Reads a call with this name, and the sign `=` after it.
    fn read_call(&mut self, name: &[u8]) -> Option<BadWord<'a>> {
        if let Some(bad) = self.read(WordKind::CallName) {
            return Some(bad);
        }
        if let Some(bad) = self.read_all(kinds_of_call(name)) {
            return Some(bad);
        }
        if name == b"visit".as_slice() {
            return self.read_bound();
        }
        self.read(WordKind::Equals)
    }

    /// Reads the reply to the call with this name.
    fn read_reply(&mut self, name: &[u8]) -> Option<BadWord<'a>> {
        let reply = self.peek();
        if let Some(bad) = self.read(kind_of_reply(name)) {
            return Some(bad);
        }
        self.read_all(kinds_after(reply))
    }

    /// Reads the tickets that the step let through, if there are any. There are at most so many words.
    fn read_lets(&mut self, most: usize) -> Option<BadWord<'a>> {
        self.words.peek()?;
        if let Some(bad) = self.read_all(&[WordKind::Let, WordKind::Ticket]) {
            return Some(bad);
        }
        for _ in 0..most {
            self.words.peek()?;
            if let Some(bad) = self.read(WordKind::Ticket) {
                return Some(bad);
            }
        }
        None
    }
}

/// The first word that cannot stand in its place in this line, which is given without its line end and stands in a text
/// of this version. `None` if each word can: then the line is the line of a step.
///
/// It reads on behalf of somebody who looks for a mistake. Whether bytes are a line,
/// [`read_line`](lt_checker::read_line) decides.
pub fn bad_word<'a>(line: &'a [u8], version: u8) -> Option<BadWord<'a>> {
    let mut rest = LineWords {
        words: Words::new(line),
        count: 0,
        is_first: version == 1,
    };
    if let Some(bad) = rest.read_all(&[WordKind::Key, WordKind::Index, WordKind::Pass]) {
        return Some(bad);
    }
    let name = rest.peek();
    if let Some(bad) = rest.read_call(name) {
        return Some(bad);
    }
    if let Some(bad) = rest.read_reply(name) {
        return Some(bad);
    }
    rest.read_lets(line.len())
}
