//! What becomes of the pass in a handle as it names keys, enters, scans, polls and leaves? `requests.rt` of `lt_c` has the calls of
//! C.
ghost use Rattle.std.specs.Prelude.{◌≡◌, ◌≢◌, Some, IsSome, IsNone};
ghost use Rattle.lt_handles.specs.Content.{pass_in, guard_in};
ghost use Rattle.lt_handles.specs.Looks.{bytes_refusal};
ghost use Rattle.lt_handles.specs.Codes.{IsDoneUnless};
ghost use Rattle.lt_handles.specs.Shared.{WantsMore, KeepsWants, KeepsHandle, OnPasses, OnGuards, Enters, ScanTells, PollTells, GivesBack, LeaveTells, SeesLegal, asked_access};

use crate::codes::{CLOSED, DONE, MEMORY, key_code};
use crate::content::Content;
use crate::held_shared::{Entering, HeldGuard, HeldPass};
use crate::shared_codes::{poll_code, scan_code, scan_index};
use core::mem;
use lt_ids::{Access, Key};
use std::alloc::Global;

/// The access of a request that writes, or only reads.
fn asked_access(writes: bool) -> Access
    ensures { result ≡ asked_access writes }
{
    if writes { Access::Write } else { Access::Read }
}

/// Adds an access to those that the pass's next request asks for.
fn want(alloc: Global, held: &mut HeldPass, key: &[u8], writes: bool) -> u32
    ensures refused { IsDoneUnless (bytes_refusal key.now) result }
    ensures wanted { result ≡ DONE → WantsMore key.now writes held.old held.new }
    ensures kept { result ≢ DONE → KeepsWants held.old held.new }
    ensures opened { result ≢ CLOSED }
{
    let key = match Key::from_bytes(alloc, key) {
        Ok(key) => key,
        Err(error) => return key_code(&error),
    };
    let Ok(()) = held.wants.reserve(1) else {
        return MEMORY;
    };
    held.wants.push_reserved((key, asked_access(writes)));
    DONE
}

/// The same, if the content is a pass.
pub fn want_at(content: &mut Content, alloc: Global, key: &[u8], writes: bool) -> u32
    ensures closed { IsNone (pass_in (Some content.old)) → result ≡ CLOSED }
    ensures refused { IsSome (pass_in (Some content.old)) → IsDoneUnless (bytes_refusal key.now) result }
    ensures wanted { result ≡ DONE → OnPasses (WantsMore key.now writes) (pass_in (Some content.old)) (pass_in (Some content.new)) }
    ensures kept { result ≢ DONE → KeepsHandle (Some content.old) (Some content.new) }
{
    match content {
        Content::Pass(held) => want(alloc, held, key, writes),
        _ => CLOSED,
    }
}

impl Content {
    ghost use Rattle.std.specs.Prelude.{Some};
    ghost use Rattle.lt_handles.specs.Shared.{SeesLegal};

    /// Ghost call: tells the prover that what the pass has seen is legal.
    pub fn legal(&self)
        ensures { SeesLegal (Some self.now) }
    {
        match self {
            Content::Pass(held) => held.pass.legal(),
            Content::Guard(held) => held.guard.legal(),
            _ => {}
        }
    }
}

/// The request that has entered through a pass, or the pass whose request was refused. Other content stays as it is.
fn entered(content: Content, by: &Entering) -> (Content, u32)
    ensures entered { result.1 ≢ CLOSED → Enters by.now.terms.txn by.now.terms.ts by.now.terms.longest result.1 (Some content) (Some result.0) }
    ensures kept { result.1 ≡ CLOSED → result.0 ≡ content }
    ensures opened { IsSome (pass_in (Some content)) → result.1 ≢ CLOSED }
{
    match content {
        Content::Pass(held) => held.enter(by),
        content => (content, CLOSED),
    }
}

/// Enters the request, if the content is a pass.
pub fn enter(content: &mut Content, by: &Entering) -> u32
    ensures entered { result ≢ CLOSED → Enters by.now.terms.txn by.now.terms.ts by.now.terms.longest result (Some content.old) (Some content.new) }
    ensures kept { result ≡ CLOSED → content.new ≡ content.old }
    ensures opened { IsSome (pass_in (Some content.old)) → result ≢ CLOSED }
{
    if !matches!(content, Content::Pass(_)) {
        return CLOSED;
    }
    mem::replace_with(content, by, entered)
}

fn scan(held: &mut HeldGuard, index: &mut usize) -> u32
    ensures opened { result ≢ CLOSED }
    ensures tells { ScanTells result index.new held.old held.new }
{
    let found = held.table.shared.scan(&mut held.guard);
    *index = scan_index(&found);
    scan_code(&found)
}

/// The same, if the content is a request.
pub fn scan_at(content: &mut Content, index: &mut usize) -> u32
    ensures scanned { result ≢ CLOSED → OnGuards (ScanTells result index.new) (guard_in (Some content.old)) (guard_in (Some content.new)) }
    ensures kept { result ≡ CLOSED → content.new ≡ content.old }
    ensures out_kept { result ≡ CLOSED → index.new ≡ index.old }
    ensures opened { IsSome (guard_in (Some content.old)) → result ≢ CLOSED }
{
    match content {
        Content::Guard(held) => scan(held, index),
        _ => CLOSED,
    }
}

fn poll(held: &mut HeldGuard) -> u32
    ensures opened { result ≢ CLOSED }
    ensures tells { PollTells result held.old held.new }
{
    poll_code(held.table.shared.poll(&mut held.guard))
}

/// The same, if the content is a request.
pub fn poll_at(content: &mut Content) -> u32
    ensures polled { result ≢ CLOSED → OnGuards (PollTells result) (guard_in (Some content.old)) (guard_in (Some content.new)) }
    ensures kept { result ≡ CLOSED → content.new ≡ content.old }
    ensures opened { IsSome (guard_in (Some content.old)) → result ≢ CLOSED }
{
    match content {
        Content::Guard(held) => poll(held),
        _ => CLOSED,
    }
}

/// The pass of a request that has made its leave steps. Other content stays as it is.
fn given_back(content: Content, _left: ()) -> (Content, ())
    ensures { GivesBack (Some content) (Some result.0) }
{
    match content {
        Content::Guard(held) => (Content::Pass(held.into_pass()), ()),
        content => (content, ()),
    }
}

/// Puts the pass of a request that has made its leave steps in the place of the request, if the content is one.
fn give_back(content: &mut Content)
    ensures { GivesBack (Some content.old) (Some content.new) }
{
    if matches!(content, Content::Guard(_)) {
        mem::replace_with(content, (), given_back);
    }
}

/// The request leaves, if the content is one.
pub fn leave(content: &mut Content) -> u32
    ensures left { result ≢ CLOSED → LeaveTells result (Some content.old) (Some content.new) }
    ensures kept { result ≡ CLOSED → content.new ≡ content.old }
    ensures opened { IsSome (guard_in (Some content.old)) → result ≢ CLOSED }
{
    let code = match content {
        Content::Guard(held) => held.leave_keys(),
        _ => return CLOSED,
    };
    if code == DONE {
        give_back(content);
    }
    code
}
