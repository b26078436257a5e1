//! How does C write the steps that it holds? Line by line, as a trace or a text of histories has them (docs/FORMATS.md).
ghost use Rattle.std.specs.Prelude.{◌≡◌, ◌≢◌, ◌≤◌, ◌++◌, Some, None, OnOk, IfOk, IfErr, length, drop};
ghost use Rattle.lt_text.specs.Compose.{spaced};
ghost use Rattle.lt_handles.specs.Codes.{IsDoneUnless};
ghost use Rattle.lt_handles.specs.Content.{steps_in};
ghost use Rattle.lt_handles.specs.Taking.{OnStep, OnSteps, place_refusal};
ghost use Rattle.lt_handles.specs.Lines.{WritesFirst, index_words, step_line};

use lt_entry::Entry;
use lt_handles::codes::{CLOSED, DONE, MEMORY};
use lt_handles::content::Content;
use lt_handles::handle::Handle;
use lt_handles::shared_codes::BAD_INDEX;
use lt_shard::Rest;
use lt_text::lets::put_lets;
use lt_text::put::{put_call, put_number_word, put_reply, put_word};
use std::alloc::{AllocError, Global};

/// Appends a space and the index, unless it is 0.
#[tactic(auto, using(crate::proofs::Lined::one_word))]
fn put_index(out: &mut Vec<u8>, index: u64) -> Result<(), AllocError>
    ensures { OnOk result (out.new.items ≡ out.old.items ++ spaced (index_words index)) }
{
    if index == 0 {
        return Ok(());
    }
    put_number_word(out, index)
}

/// Appends the line of the step, with this index, or with none for 0.
#[tactic(auto, using(crate::proofs::Lined::line_is))]
fn put_line(out: &mut Vec<u8>, index: u64, entry: &Entry) -> Result<(), AllocError>
    ensures { OnOk result (out.new.items ≡ out.old.items ++ step_line index entry.now) }
{
    out.extend_from_slice(entry.key().as_bytes())?;
    put_index(out, index)?;
    put_number_word(out, entry.pass() as u64)?;
    put_call(out, entry.call())?;
    put_word(out, b"=")?;
    put_reply(out, entry.reply())?;
    put_lets(out, entry.lets())?;
    out.push(b'\n')?;
    Ok(())
}

/// The line of the step.
fn line(alloc: Global, index: u64, entry: &Entry) -> Result<Vec<u8>, AllocError>
    ensures { IfOk result (λ text. text.items ≡ step_line index entry.now) }
{
    let mut text = Vec::new(alloc);
    put_line(&mut text, index, entry)?;
    Ok(text)
}

/// Writes these bytes to the front of the array, which has room for them.
fn write_bytes(text: &[u8], array: &mut [u8])
    requires { length text.now ≤ length array.old }
    ensures { array.new ≡ text.now ++ drop (length text.now) array.old }
{
    let len = text.len();
    array[..len].copy_from_slice(text);
}

/// The line of the step at this place, or the code of what went wrong.
fn line_at(rest: &Rest, alloc: Global, place: usize, index: u64) -> Result<Vec<u8>, u32>
    ensures line { IfOk result (λ text. OnStep (λ e. text.items ≡ step_line index e) rest.now place) }
    ensures refused { IfErr result (λ code. IsDoneUnless (place_refusal (Some rest.now) place) code × (code ≢ DONE)) }
    ensures sound { OnOk result (place_refusal (Some rest.now) place ≡ None) }
{
    let Some(entry) = rest.entries.get(place) else {
        return Err(BAD_INDEX);
    };
    match line(alloc, index, entry) {
        Ok(text) => Ok(text),
        Err(_) => Err(MEMORY),
    }
}

/// The same, if the content is steps.
fn line_in(content: &Content, alloc: Global, place: usize, index: u64) -> Result<Vec<u8>, u32>
    ensures line { IfOk result (λ text. OnSteps (λ rest. OnStep (λ e. text.items ≡ step_line index e) rest place) (steps_in (Some content.now))) }
    ensures refused { IfErr result (λ code. IsDoneUnless (place_refusal (steps_in (Some content.now)) place) code × (code ≢ DONE)) }
    ensures sound { OnOk result (place_refusal (steps_in (Some content.now)) place ≡ None) }
{
    match content {
        Content::Steps(rest) => line_at(rest, alloc, place, index),
        _ => Err(CLOSED),
    }
}

/// Writes the bytes, as many of the first as fit.
fn write_fit(text: &[u8], bytes: &mut [u8], count: &mut usize)
    ensures { WritesFirst text.now bytes.old bytes.new count.new }
{
    let fit = text.len().min(bytes.len());
    write_bytes(&text[..fit], bytes);
    *count = text.len();
}

/// The line of the step at this place, from 0, with its index among the steps of its key, or with none for 0: as many of its
/// bytes as fit into the array. `count` is set to how many there are.
#[unsafe(no_mangle)]
pub extern "C" fn lt_steps_line(
    alloc: Global,
    handle: &mut Handle,
    place: usize,
    index: u64,
    bytes: &mut [u8],
    count: &mut usize,
) -> u32
    ensures lined { result ≡ DONE → OnSteps (λ rest.
        OnStep (λ e. WritesFirst (step_line index e) bytes.old bytes.new count.new) rest place) (steps_in handle.old.slot.held) }
    ensures refused { IsDoneUnless (place_refusal (steps_in handle.old.slot.held) place) result }
    ensures out_kept { result ≢ DONE → (bytes.new ≡ bytes.old) × (count.new ≡ count.old) }
    ensures same { handle.new.slot.held ≡ handle.old.slot.held }
{
    let Some(content) = handle.take(alloc) else {
        return CLOSED;
    };
    let found = line_in(&content, alloc, place, index);
    handle.put(content);
    match found {
        Ok(text) => {
            write_fit(&text, bytes, count);
            DONE
        }
        Err(code) => code,
    }
}
