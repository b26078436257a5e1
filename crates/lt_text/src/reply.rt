//! How is a reply read from the words of a line, and which replies can a call have? [`reply`] reads the name of
//! the reply and then its arguments; [`is_reply_of`] has the replies of each call. `specs/Replies.antt` defines
//! both; `put.rt` writes replies.
ghost use Rattle.std.specs.Prelude.{◌≡◌, Some};
ghost use Rattle.std.specs.Str.{bytes_eq};
ghost use Rattle.lt_text.specs.Calls.{Gives};
ghost use Rattle.lt_text.specs.Replies.{reply_name, fixed_reply, held_of, waits_at, own_at, reply_in_words, reply_at, is_reply_of, is_visit_reply, is_acquire_reply, is_update_reply, is_finish_reply, is_leave_reply, is_look_reply};

use crate::field::txn;
use crate::words::{Words, is_name};
use lt_rules::{Call, Reply};

/// The first word of a reply.
pub fn name(reply: Reply) -> &'static [u8]
    ensures { result.now ≡ reply_name reply }
{
    match reply {
        Reply::Passed => b"pass",
        Reply::MustWait => b"wait",
        Reply::TooLong => b"long",
        Reply::Taken => b"taken",
        Reply::Kept => b"kept",
        Reply::Raised => b"raised",
        Reply::Other => b"other",
        Reply::Freed => b"freed",
        Reply::Left => b"left",
        Reply::Absent => b"absent",
        Reply::Nothing => b"nothing",
        Reply::Reserved => b"reserved",
        Reply::Idle => b"idle",
        Reply::WaitFor(_, _) => b"for",
        Reply::WaitFirst(_, _) => b"first",
        Reply::WaitOwn(_) => b"own",
    }
}

/// The reply that consists of this one word.
#[tactic(auto, unfolding(crate::specs::Replies::fixed_reply))]
fn fixed(word: &[u8]) -> Option<Reply>
    ensures { result ≡ fixed_reply word.now }
{
    if is_name(word, b"pass") {
        return Some(Reply::Passed);
    }
    if is_name(word, b"wait") {
        return Some(Reply::MustWait);
    }
    if is_name(word, b"long") {
        return Some(Reply::TooLong);
    }
    if is_name(word, b"taken") {
        return Some(Reply::Taken);
    }
    if is_name(word, b"kept") {
        return Some(Reply::Kept);
    }
    if is_name(word, b"raised") {
        return Some(Reply::Raised);
    }
    if is_name(word, b"other") {
        return Some(Reply::Other);
    }
    if is_name(word, b"freed") {
        return Some(Reply::Freed);
    }
    if is_name(word, b"left") {
        return Some(Reply::Left);
    }
    if is_name(word, b"absent") {
        return Some(Reply::Absent);
    }
    if is_name(word, b"nothing") {
        return Some(Reply::Nothing);
    }
    if is_name(word, b"reserved") {
        return Some(Reply::Reserved);
    }
    if is_name(word, b"idle") {
        return Some(Reply::Idle);
    }
    None
}

/// Whether the word says that the lock is held or reserved; `None` for any other word.
fn is_held(word: &[u8]) -> Option<bool>
    ensures { result ≡ held_of word.now }
{
    if is_name(word, b"held") {
        return Some(true);
    }
    if is_name(word, b"reserved") {
        return Some(false);
    }
    None
}

fn wait_for(words: &mut Words) -> Option<Reply>
    ensures { Gives result words.new (waits_at (λ txn held. Reply.WaitFor txn held) words.old) }
{
    let txn = txn(words.next()?)?;
    let held = is_held(words.next()?)?;
    Some(Reply::WaitFor(txn, held))
}

fn wait_first(words: &mut Words) -> Option<Reply>
    ensures { Gives result words.new (waits_at (λ txn held. Reply.WaitFirst txn held) words.old) }
{
    let txn = txn(words.next()?)?;
    let held = is_held(words.next()?)?;
    Some(Reply::WaitFirst(txn, held))
}

fn wait_own(words: &mut Words) -> Option<Reply>
    ensures { Gives result words.new (own_at words.old) }
{
    let txn = txn(words.next()?)?;
    Some(Reply::WaitOwn(txn))
}

#[inline(always)]
#[tactic(auto, unfolding(crate::specs::Replies::reply_in_words))]
fn reply_named(name: &[u8], words: &mut Words) -> Option<Reply>
    ensures { Gives result words.new (reply_in_words name.now words.old) }
{
    if is_name(name, b"for") {
        return wait_for(words);
    }
    if is_name(name, b"first") {
        return wait_first(words);
    }
    if is_name(name, b"own") {
        return wait_own(words);
    }
    fixed(name)
}

/// The reply that the next words spell, its name first, or `None` if they spell no reply. The words after the
/// reply remain.
#[inline(always)]
pub fn reply(words: &mut Words) -> Option<Reply>
    ensures { Gives result words.new (reply_at words.old) }
{
    let name = words.next()?;
    reply_named(name, words)
}

fn is_reply_of_visit(reply: Reply) -> bool
    ensures { result ≡ is_visit_reply reply }
{
    matches!(reply, Reply::Passed | Reply::MustWait | Reply::TooLong)
}

fn is_reply_of_acquire(reply: Reply) -> bool
    ensures { result ≡ is_acquire_reply reply }
{
    matches!(
        reply,
        Reply::Taken | Reply::Kept | Reply::Raised | Reply::Other
    )
}

fn is_reply_of_update(reply: Reply) -> bool
    ensures { result ≡ is_update_reply reply }
{
    matches!(reply, Reply::Kept | Reply::Raised | Reply::Other)
}

fn is_reply_of_finish(reply: Reply) -> bool
    ensures { result ≡ is_finish_reply reply }
{
    matches!(reply, Reply::Freed | Reply::Other)
}

fn is_reply_of_leave(reply: Reply) -> bool
    ensures { result ≡ is_leave_reply reply }
{
    matches!(reply, Reply::Left | Reply::Absent)
}

fn is_reply_of_look(reply: Reply) -> bool
    ensures { result ≡ is_look_reply reply }
{
    matches!(
        reply,
        Reply::Nothing
            | Reply::Reserved
            | Reply::Idle
            | Reply::WaitFor(_, _)
            | Reply::WaitFirst(_, _)
            | Reply::WaitOwn(_)
    )
}

/// Whether the call can have this reply.
pub fn is_reply_of(call: Call, reply: Reply) -> bool
    ensures { result ≡ is_reply_of call reply }
{
    match call {
        Call::Visit { .. } => is_reply_of_visit(reply),
        Call::Acquire { .. } => is_reply_of_acquire(reply),
        Call::Update { .. } => is_reply_of_update(reply),
        Call::Finish { .. } => is_reply_of_finish(reply),
        Call::Leave { .. } => is_reply_of_leave(reply),
        Call::Look { .. } => is_reply_of_look(reply),
    }
}
