// Bytes that are written as text.
use crate::fault::TableFault;
use hex::{decode, decode_to_slice};
use std::alloc::Global;

// The byte that two hexadecimal digits stand for.
fn byte_of(digits: &[u8]) -> Option<u8> {
    let mut bytes = [0];
    decode_to_slice(digits, &mut bytes).ok()?;
    Some(bytes[0])
}

// Adds what stands behind a tilde: a byte by two hexadecimal digits, and then text.
fn add_escaped(bytes: &mut Vec<u8>, piece: &[u8], number: usize) -> Result<(), TableFault> {
    let Some((digits, text)) = piece.split_at_checked(2) else {
        return Err(TableFault::Line(number));
    };
    let byte = byte_of(digits).ok_or(TableFault::Line(number))?;
    bytes.push(byte)?;
    bytes.extend_from_slice(text)?;
    Ok(())
}

/// Adds the text, in which a tilde and two hexadecimal digits stand for a byte.
pub fn add_text(bytes: &mut Vec<u8>, text: &str, number: usize) -> Result<(), TableFault> {
    let (first, escaped) = text.split_once('~').unwrap_or((text, ""));
    bytes.extend_from_slice(first.as_bytes())?;
    if first.len() < text.len() {
        for piece in escaped.split('~') {
            add_escaped(bytes, piece.as_bytes(), number)?;
        }
    }
    Ok(())
}

/// Adds the text so many times.
pub fn add_times(
    alloc: Global,
    bytes: &mut Vec<u8>,
    count: usize,
    text: &str,
    number: usize,
) -> Result<(), TableFault> {
    let mut piece = Vec::new(alloc);
    add_text(&mut piece, text, number)?;
    for _time in 0..count {
        bytes.extend_from_slice(&piece)?;
    }
    Ok(())
}

/// Adds the bytes that are written with two hexadecimal digits each, with blanks between.
pub fn add_hex(
    alloc: Global,
    bytes: &mut Vec<u8>,
    text: &str,
    number: usize,
) -> Result<(), TableFault> {
    for group in text.split(' ') {
        let piece = decode(alloc, group).map_err(|_fault| TableFault::Line(number))?;
        bytes.extend_from_slice(&piece)?;
    }
    Ok(())
}

/// Leaves so many of the first bytes.
pub fn cut(bytes: &mut Vec<u8>, count: usize, number: usize) -> Result<(), TableFault> {
    if count > bytes.len() {
        return Err(TableFault::Place(number));
    }
    bytes.truncate(count);
    Ok(())
}

/// Puts the byte of two hexadecimal digits in the place of the one that is there.
pub fn set_byte(
    bytes: &mut [u8],
    at: usize,
    digits: &str,
    number: usize,
) -> Result<(), TableFault> {
    let byte = byte_of(digits.as_bytes()).ok_or(TableFault::Line(number))?;
    if at >= bytes.len() {
        return Err(TableFault::Place(number));
    }
    bytes[at] = byte;
    Ok(())
}
