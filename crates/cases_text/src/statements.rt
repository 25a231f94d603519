//! Statements and scripts.

use crate::spellings::{same, worded};
use ff_script::{ScriptFault, Statement, parse, print, read_statement};
use std::alloc::{AllocError, Global};

fn statement_text(alloc: Global, s: &Statement) -> Result<Vec<u8>, AllocError> {
    let copy = s.copy(alloc)?;
    let original = print(alloc, s)?;
    same(original.as_slice(), print(alloc, &copy)?)
}

/// The printed statement of a line.
pub fn statement(alloc: Global, line: &[u8]) -> Result<Vec<u8>, AllocError> {
    match read_statement(alloc, line)? {
        Some(s) => statement_text(alloc, &s),
        None => b"none".to_vec(alloc),
    }
}

/// How many statements a short script has, or its fault.
pub fn script(alloc: Global, bytes: &[u8]) -> Result<Vec<u8>, AllocError> {
    if bytes.len() > 1000 {
        return b"too long".to_vec(alloc);
    }
    match parse(alloc, bytes) {
        Ok(statements) => worded(alloc, b"statements", statements.len() as u64),
        Err(ScriptFault::Syntax(line)) => worded(alloc, b"syntax", u64::from(line)),
        Err(ScriptFault::Misplaced(line)) => worded(alloc, b"misplaced", u64::from(line)),
        Err(ScriptFault::Memory) => Err(AllocError),
    }
}
