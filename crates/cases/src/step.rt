//! One step of a session, which is a copy.

ghost use Rattle.std.specs.Prelude.{◌≡◌, ◌<◌};
ghost use Rattle.ff_meaning.specs.Bindings.{nothing};

use crate::header;
use ff_script::Statement;
use ff_session::{Refusal, Session, push_refusal};
use std::alloc::{AllocError, Global};

/// The most bytes that a session may be told were printed before.
const MAX_OUTPUT: u64 = 268_435_456;

/// The line of a refusal.
fn refusal_line(alloc: Global, r: &Refusal) -> Result<Vec<u8>, AllocError> {
    if r.is_memory() {
        return Err(AllocError);
    }
    let mut line = Vec::new(alloc);
    push_refusal(&mut line, r)?;
    line.push(b'\n')?;
    Ok(line)
}

/// The block, or the line of a copy of the refusal.
fn block_or_line(alloc: Global, answer: Result<Vec<u8>, Refusal>) -> Result<Vec<u8>, AllocError> {
    match answer {
        Ok(text) => Ok(text),
        Err(r) => refusal_line(alloc, &r.copy(alloc)?),
    }
}

/// What a step over `field P` answers.
fn step_over_field(alloc: Global, session: &mut Session, p: u32) -> Result<Vec<u8>, AllocError>
    requires start { session.old.bindings ≡ nothing }
    requires short { p < 1000000000 }
{
    let s = Statement::FieldOf { p, tail: None };
    block_or_line(alloc, session.step(&s))
}

/// What it answers of a copy of the session.
fn step_of_copy(alloc: Global, session: &Session, p: u32) -> Result<Vec<u8>, AllocError>
    requires start { session.now.bindings ≡ nothing }
    requires short { p < 1000000000 }
{
    let mut copy = session.copy()?;
    step_over_field(alloc, &mut copy, p)
}

/// What a first step over `field P` of a copied session answers: the block, or the line of a copy of the refusal.
pub fn first_step(alloc: Global, header: &str, p: u32) -> Result<Vec<u8>, AllocError> {
    let printed = header::number(header, "printed ").unwrap_or(0);
    if printed > MAX_OUTPUT || p > 999_999_999 {
        return b"no such step\n".to_vec(alloc);
    }
    let session = Session::new(alloc, header::asks(header, "bare"), printed);
    step_of_copy(alloc, &session, p)
}
