//! Appends the answer lines of a run to its output.
ghost use Rattle.std.specs.Prelude.{◌≡◌, ◌++◌, ◌∷◌, [], OnOk};
ghost use Rattle.lt_text.specs.Compose.{spaced};
ghost use Rattle.lt_tool.specs.Answers.{refusal_word, answer_words, answer_line_text, pass_text, answers_text};

use lt_runner::{AnswerLine, LineAnswer, Refusal};
use lt_text::put::{put_number, put_number_word, put_reply, put_word};
use std::alloc::AllocError;

fn refusal_name(refusal: Refusal) -> &'static [u8]
    ensures { result.now ≡ refusal_word refusal }
{
    match refusal {
        Refusal::NoKeys => b"NoKeys",
        Refusal::TooManyKeys => b"TooManyKeys",
        Refusal::NumbersOut => b"NumbersOut",
        Refusal::Leaving => b"Leaving",
        Refusal::StillWaiting => b"StillWaiting",
        Refusal::WaitsOut => b"WaitsOut",
        Refusal::HistoryFull => b"HistoryFull",
    }
}

/// Appends the words of the answer, with a space before each.
fn put_answer(out: &mut Vec<u8>, answer: &LineAnswer) -> Result<(), AllocError>
    ensures { OnOk result (out.new.items ≡ out.old.items ++ spaced (answer_words answer.now)) }
{
    match answer {
        LineAnswer::Request(number) => {
            put_word(out, b"request")?;
            put_number_word(out, *number)
        }
        LineAnswer::Busy => put_word(out, b"busy"),
        LineAnswer::Proceed => put_word(out, b"proceed"),
        LineAnswer::Rescan => put_word(out, b"rescan"),
        LineAnswer::WaitingAt(key) => {
            put_word(out, b"waiting")?;
            put_word(out, key.as_bytes())
        }
        LineAnswer::TooLongAt(key) => {
            put_word(out, b"long")?;
            put_word(out, key.as_bytes())
        }
        LineAnswer::Let => put_word(out, b"let"),
        LineAnswer::Waiting => put_word(out, b"waiting"),
        LineAnswer::Idle => put_word(out, b"idle"),
        LineAnswer::Turns => put_word(out, b"turns"),
        LineAnswer::Replied(reply) => put_reply(out, *reply),
        LineAnswer::Stranger => put_word(out, b"stranger"),
        LineAnswer::Done => put_word(out, b"done"),
        LineAnswer::NoRequest => put_word(out, b"none"),
        LineAnswer::Refused(refusal) => {
            put_word(out, b"refused")?;
            put_word(out, refusal_name(*refusal))
        }
    }
}

/// Appends the line of an answer of this pass.
fn put_line(out: &mut Vec<u8>, pass: u64, line: &AnswerLine) -> Result<(), AllocError>
    ensures { OnOk result (out.new.items ≡ out.old.items ++ answer_line_text pass line.now) }
{
    put_number(out, pass)?;
    put_number_word(out, line.line as u64)?;
    put_answer(out, &line.answer)?;
    out.push(b'\n')?;
    Ok(())
}

/// Appends the lines of one pass.
fn put_pass(out: &mut Vec<u8>, pass: u64, lines: &[AnswerLine]) -> Result<(), AllocError>
    ensures { OnOk result (out.new.items ≡ out.old.items ++ pass_text pass lines.now) }
{
    for line in lines {
        put_line(out, pass, line)?;
    }
    Ok(())
}

/// Appends the lines of all passes, pass after pass.
pub(crate) fn put_answers(out: &mut Vec<u8>, passes: &[Vec<AnswerLine>]) -> Result<(), AllocError>
    ensures { OnOk result (out.new.items ≡ out.old.items ++ answers_text passes.now) }
{
    let mut pass = 1;
    for lines in passes {
        put_pass(out, pass, lines)?;
        pass += 1;
    }
    Ok(())
}
