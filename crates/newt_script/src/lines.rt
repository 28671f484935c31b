//! Whole lines.
ghost use Rattle.std.specs.Prelude.{◌≡◌, ◌≢◌, false};
ghost use Rattle.newt_spec_script.specs.Line.{says_nothing};
ghost use Rattle.newt_spec_script.specs.Script as script;
ghost use Rattle.newt_script.specs.Lines.{line_command, spoken, takes_memory};

use crate::fault::LineFault;
use crate::table::row;
use crate::verbs::named;
use newt_base::Refusal;
use newt_script_words::{LONGEST, Words, skip_blanks};
use newt_spec_world::Command;
use std::alloc::Global;

/// A line without the byte 13 at its end.
#[tactic(auto, using(crate::proofs::Returns::returns))]
fn without_return(line: &[u8]) -> &[u8]
    ensures { result.now ≡ script.without_return line.now }
{
    if !line.is_empty() && line[line.len() - 1] == b'\r' {
        &line[..line.len() - 1]
    } else {
        line
    }
}

/// Whether a line is blank or a `%` line.
fn is_silent(line: &[u8]) -> bool
    ensures { result ≡ says_nothing line.now }
{
    match skip_blanks(line) {
        [] => true,
        [byte, ..] => *byte == b'%',
    }
}

/// The command of a line that is neither blank nor a `%` line.
#[tactic(auto, using(crate::proofs::Spoken::no_command))]
fn spoken(alloc: Global, line: &[u8]) -> Result<Command, LineFault>
    ensures reading { result ≢ Err LineFault.Memory → result ≡ spoken line.now }
    ensures no_memory { takes_memory line.now ≡ false → result ≢ Err LineFault.Memory }
{
    if line.len() > LONGEST {
        return Err(LineFault::Refused(Refusal::Longline));
    }
    let mut words = Words::new(line);
    let word = words.word();
    match named(word) {
        Some(verb) => row(alloc, verb, &mut words),
        None => Err(LineFault::Refused(Refusal::Command)),
    }
}

/// What a line says, without the byte 10 at its end: a command, or nothing where it is blank or a
/// `%` line. One byte 13 at the end of the line is dropped. The language of lines is this project's
/// own.
///
/// Of the refusals of its reading the first that holds is answered: `Longline`, then `Command`,
/// then `Line`, then the fault of the graph or bytes at its end, `Malformed`, `Compressed` or
/// `Literal`. The answer `Memory` never comes for a line whose command holds no name, path, list,
/// graph or bytes. Nor does it come for a line that is too long, has no command or says nothing.
pub fn line(alloc: Global, bytes: &[u8]) -> Result<Option<Command>, LineFault>
    ensures reading { result ≢ Err LineFault.Memory → result ≡ line_command bytes.now }
    ensures no_memory { takes_memory (script.without_return bytes.now) ≡ false
        → result ≢ Err LineFault.Memory }
{
    let line = without_return(bytes);
    if is_silent(line) {
        return Ok(None);
    }
    match spoken(alloc, line) {
        Ok(command) => Ok(Some(command)),
        Err(fault) => Err(fault),
    }
}
