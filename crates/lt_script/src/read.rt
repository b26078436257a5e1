//! Reads a whole script, line by line.
ghost use Rattle.std.specs.Prelude.{◌≡◌, IfOk, IfErr};
ghost use Rattle.lt_script.specs.Script.{commands_of, told, IsFirstFault};

use crate::Script;
use crate::error::{LineError, ScriptError};
use crate::line::read_line;
use bstr::ByteSlice;
use std::alloc::Global;

fn told(refusal: LineError, line: usize) -> ScriptError
    ensures { result ≡ told refusal line }
{
    match refusal {
        LineError::Memory => ScriptError::Memory,
        LineError::Fault(fault) => ScriptError::Fault { line, fault },
    }
}

#[tactic(auto, using(crate::proofs::Fronts::goes_on, crate::proofs::Fronts::stops, crate::proofs::Fronts::ends))]
/// Reads the commands of a script, or reports the first faulty line and the first fault in it. A script without a
/// fault is always read, unless memory runs out. Allocates room for one command per sixteen bytes of text at once,
/// so that the list rarely has to move.
pub fn read_script(alloc: Global, text: &[u8]) -> Result<Script, ScriptError>
    ensures ok { IfOk result (λ script. commands_of text.now ≡ Ok script) }
    ensures err { IfErr result (λ e. IsFirstFault e (commands_of text.now)) }
{
    let Ok(mut commands) = Vec::with_capacity(alloc, text.len() / 16 + 1) else {
        return Err(ScriptError::Memory);
    };
    let mut lines = text.lines();
    let mut line = 1;
    while let Some(bytes) = lines.next() {
        if let Err(refusal) = read_line(&mut commands, line, bytes) {
            return Err(told(refusal, line));
        }
        line += 1;
    }
    Ok(Script::new(commands))
}
