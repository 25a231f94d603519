//! Bytes as they are written in a table of cases.
//!
//! A text stands for its own bytes, but for `\n`, `\t`, `\r`, `\0`, `\xHH` (a byte by two hexadecimal digits) and a
//! backslash before another byte, which stands for that byte. `{N TEXT}` is TEXT written N times.
#![tactic(auto)]

use std::alloc::{AllocError, Global};

/// Where the last byte of a text with escapes left off.
#[derive(Clone, Copy)]
enum State {
    Plain,
    Escape,
    HighDigit,
    LowDigit(u8),
}

fn digit(byte: u8) -> u8 {
    match byte {
        b'0'..=b'9' => byte - b'0',
        b'a'..=b'f' => byte - b'a' + 10,
        _ => 0,
    }
}

/// What the byte behind a backslash stands for.
fn escaped(byte: u8) -> (State, Option<u8>) {
    match byte {
        b'n' => (State::Plain, Some(b'\n')),
        b't' => (State::Plain, Some(b'\t')),
        b'r' => (State::Plain, Some(b'\r')),
        b'0' => (State::Plain, Some(0)),
        b'x' => (State::HighDigit, None),
        _ => (State::Plain, Some(byte)),
    }
}

fn step(state: State, byte: u8) -> (State, Option<u8>) {
    match state {
        State::Plain if byte == b'\\' => (State::Escape, None),
        State::Plain => (State::Plain, Some(byte)),
        State::Escape => escaped(byte),
        State::HighDigit => (State::LowDigit(digit(byte)), None),
        State::LowDigit(high) => {
            let value = high.wrapping_mul(16).wrapping_add(digit(byte));
            (State::Plain, Some(value))
        }
    }
}

fn push_plain(out: &mut Vec<u8>, text: &str) -> Result<(), AllocError> {
    let mut state = State::Plain;
    for byte in text.as_bytes() {
        let (next, value) = step(state, *byte);
        state = next;
        if let Some(value) = value {
            out.push(value)?;
        }
    }
    Ok(())
}

/// What stands between braces: a number and a text.
fn push_repeated(out: &mut Vec<u8>, inside: &str) -> Result<(), AllocError> {
    let Some((count, text)) = inside.split_once(' ') else {
        return push_plain(out, inside);
    };
    let count = count.parse::<u32>().unwrap_or(0);
    for _ in 0..count {
        push_plain(out, text)?;
    }
    Ok(())
}

/// The bytes that the text stands for. It takes time in proportion to them.
pub fn bytes_of(alloc: Global, text: &str) -> Result<Vec<u8>, AllocError> {
    let mut out = Vec::new(alloc);
    for part in text.split('{') {
        match part.split_once('}') {
            Some((inside, behind)) => {
                push_repeated(&mut out, inside)?;
                push_plain(&mut out, behind)?;
            }
            None => push_plain(&mut out, part)?,
        }
    }
    Ok(out)
}
