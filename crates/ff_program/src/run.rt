//! Answers a script.

ghost use Rattle.std.specs.Prelude.{◌≡◌, ◌≢◌, ◌≤◌, ◌++◌, length, All, IfOk, OnOk, OnErr};
ghost use Rattle.function_field.specs.Limits.{max_script};
ghost use Rattle.ff_script.specs.Scripts.{IsInOrder};
ghost use Rattle.ff_meaning.specs.declared.refusal.Refusal.{Refusal};
ghost use Rattle.ff_cert.specs.Lines.{echo_line};
ghost use Rattle.ff_program.specs.Commands.{Runs};
ghost use Rattle.ff_program.specs.Output.{at_start, IsOut, IsPart, IsOutput, IsBegun, syntax_line, misplaced_line, refusal_line, end_line};
ghost use Rattle.ff_program.specs.Printing.{Prints, BreaksOff, EndsAs, EndsWith};
ghost use Rattle.ff_program.specs.Ready.{IsReady};

use crate::status::Status;
use ff_io::Failed;
use ff_io::sink::{Sink, write_all};
use ff_io::source::{ReadEnd, Source, read_all};
use ff_script::{ScriptFault, Statement, parse};
use ff_session::{Refusal, Session, push_echo, push_refusal};
use ff_text::number::push_number;
use std::alloc::{AllocError, Global};

/// The most bytes that a script may have.
const LIMIT: usize = 65_536;

/// Prints all of the text.
fn print<T: Sink>(out: &mut T, text: &[u8]) -> Result<(), Failed>
    ensures whole { OnOk result (Prints T.taken T.faults T.free out.old out.new text.now) }
    ensures part { OnErr result (BreaksOff T.taken T.faults T.free out.old out.new text.now) }
{
    write_all(out, text)
}

/// Prints the last text, and answers the status; a sink that fails has its own.
pub fn close<T: Sink>(out: &mut T, text: &[u8], status: Status) -> Status
    ensures { EndsWith T.taken T.faults T.free out.old out.new text.now status result }
{
    match print(out, text) {
        Ok(()) => status,
        Err(_) => Status::WriteFault,
    }
}

/// The echo and the refusal of a statement.
fn refusal_text(alloc: Global, s: &Statement, r: &Refusal) -> Result<Vec<u8>, AllocError>
    requires { r.now ≢ Refusal.Memory }
    ensures { IfOk result (λ text. text.items ≡ echo_line s.now ++ refusal_line r.now) }
{
    let mut text = Vec::new(alloc);
    push_echo(&mut text, s)?;
    push_refusal(&mut text, r)?;
    text.extend_from_slice(b"\n")?;
    Ok(text)
}

/// The line behind the last block.
fn end_text(alloc: Global, blocks: u64) -> Result<Vec<u8>, AllocError>
    ensures { IfOk result (λ text. text.items ≡ end_line blocks) }
{
    let mut text = Vec::new(alloc);
    text.extend_from_slice(b"end ")?;
    push_number(&mut text, blocks)?;
    text.extend_from_slice(b"\n")?;
    Ok(text)
}

/// Answers the statements in order with the session, and prints each block as it is made.
fn answer_all<T: Sink>(
    alloc: Global,
    session: &mut Session,
    script: &[Statement],
    out: &mut T,
) -> Status
    requires start { session.old ≡ at_start }
    requires order { IsInOrder script.now }
    requires ready { All IsReady script.now }
    ensures { EndsAs T.taken T.faults T.free (IsOut script.now) (IsPart script.now) out.old out.new result }
{
    for s in script {
        match session.step(s) {
            Ok(text) => {
                if print(out, text.as_slice()).is_err() {
                    return Status::WriteFault;
                }
            }
            Err(r) => {
                if r.is_memory() {
                    return Status::WantOfMemory;
                }
                let Ok(text) = refusal_text(alloc, s, &r) else {
                    return Status::WantOfMemory;
                };
                return close(out, text.as_slice(), Status::Refused);
            }
        }
    }
    let Ok(text) = end_text(alloc, script.len() as u64) else {
        return Status::WantOfMemory;
    };
    close(out, text.as_slice(), Status::Done)
}

/// Answers the statements in order, and prints each block as it is made.
pub fn run_script<T: Sink>(alloc: Global, script: &[Statement], out: &mut T) -> Status
    requires order { IsInOrder script.now }
    requires ready { All IsReady script.now }
    ensures { EndsAs T.taken T.faults T.free (IsOut script.now) (IsPart script.now) out.old out.new result }
{
    let mut session = Session::new(alloc, true, 0);
    answer_all(alloc, &mut session, script, out)
}

/// The line of a script's first bad line.
fn syntax_text(alloc: Global, line: u32) -> Result<Vec<u8>, AllocError>
    ensures { IfOk result (λ text. text.items ≡ syntax_line line) }
{
    let mut text = Vec::new(alloc);
    text.extend_from_slice(b"refused Syntax ")?;
    push_number(&mut text, u64::from(line))?;
    text.extend_from_slice(b"\n")?;
    Ok(text)
}

/// The line of a script's first statement out of order.
fn misplaced_text(alloc: Global, line: u32) -> Result<Vec<u8>, AllocError>
    ensures { IfOk result (λ text. text.items ≡ misplaced_line line) }
{
    let mut text = Vec::new(alloc);
    text.extend_from_slice(b"refused Misplaced ")?;
    push_number(&mut text, u64::from(line))?;
    text.extend_from_slice(b"\n")?;
    Ok(text)
}

/// Answers a script, or says which line isn't in the grammar or out of order.
fn run_bytes<T: Sink>(alloc: Global, bytes: &[u8], out: &mut T) -> Status
    requires { length bytes.now ≤ max_script }
    ensures { EndsAs T.taken T.faults T.free (IsOutput bytes.now) (IsBegun bytes.now) out.old out.new result }
{
    match parse(alloc, bytes) {
        Ok(script) => run_script(alloc, script.as_slice(), out),
        Err(ScriptFault::Syntax(line)) => {
            let Ok(text) = syntax_text(alloc, line) else {
                return Status::WantOfMemory;
            };
            close(out, text.as_slice(), Status::Refused)
        }
        Err(ScriptFault::Misplaced(line)) => {
            let Ok(text) = misplaced_text(alloc, line) else {
                return Status::WantOfMemory;
            };
            close(out, text.as_slice(), Status::Refused)
        }
        Err(ScriptFault::Memory) => Status::WantOfMemory,
    }
}

/// Reads a script to its end, and answers it.
pub fn run<S: Source, T: Sink>(alloc: Global, src: &mut S, out: &mut T) -> Status
    ensures runs { Runs S.left S.faults T.taken T.faults T.free src.old src.new out.old out.new result }
    ensures stays_steady { S.steady src.old
        → (S.faults src.new ≡ S.faults src.old) × S.steady src.new × ¬ (result ≡ Status.ReadFault) }
{
    match read_all(alloc, src, LIMIT) {
        Ok(bytes) => run_bytes(alloc, bytes.as_slice(), out),
        Err(ReadEnd::TooLong) => close(out, b"refused TooLong 65536\n", Status::Refused),
        Err(ReadEnd::Fault) => Status::ReadFault,
        Err(ReadEnd::Memory) => Status::WantOfMemory,
    }
}
