//! How bytes are written in a row.

use std::alloc::{AllocError, Global};

/// The value of a hexadecimal digit.
fn digit_of(byte: u8) -> u8 {
    if byte < b'a' {
        byte.wrapping_sub(b'0')
    } else {
        byte.wrapping_sub(b'a').wrapping_add(10)
    }
}

/// The byte of two hexadecimal digits.
fn byte_of(high: u8, low: u8) -> u8 {
    digit_of(high).wrapping_mul(16).wrapping_add(digit_of(low))
}

/// The bytes of a row in hexadecimal.
pub(crate) fn from_hex(alloc: Global, digits: &str) -> Result<Vec<u8>, AllocError> {
    let mut bytes = Vec::new(alloc);
    let mut first = None;
    for digit in digits.as_bytes() {
        match first {
            Some(high) => {
                bytes.push(byte_of(high, *digit))?;
                first = None;
            }
            None => first = Some(*digit),
        }
    }
    Ok(bytes)
}

/// Two hexadecimal digits for each byte.
pub(crate) fn to_hex(alloc: Global, bytes: &[u8]) -> Result<String, AllocError> {
    let mut text = String::new(alloc);
    for byte in bytes {
        text.push_str(format!(in alloc; "{byte:02x}")?.as_str())?;
    }
    Ok(text)
}

/// The byte that the letters behind a backslash spell, and how many these are.
fn escaped(letters: &[u8]) -> (u8, usize) {
    match letters {
        [b'n', ..] => (b'\n', 1),
        [b'r', ..] => (b'\r', 1),
        [b't', ..] => (b'\t', 1),
        [b'x', high, low, ..] => (byte_of(*high, *low), 3),
        [letter, ..] => (*letter, 1),
        [] => (b'\\', 0),
    }
}

/// The bytes of a row's text.
pub(crate) fn from_text(alloc: Global, text: &str) -> Result<Vec<u8>, AllocError> {
    let mut bytes = Vec::new(alloc);
    let mut skip = 0usize;
    for (at, byte) in text.as_bytes().iter().enumerate() {
        if skip > 0 {
            skip -= 1;
        } else if *byte == b'\\' {
            let (spelled, letters) = escaped(text.as_bytes().get(at + 1..).unwrap_or(&[]));
            bytes.push(spelled)?;
            skip = letters;
        } else {
            bytes.push(*byte)?;
        }
    }
    Ok(bytes)
}

/// The row's text of these bytes.
pub(crate) fn to_text(alloc: Global, bytes: &[u8]) -> Result<String, AllocError> {
    let mut text = String::new(alloc);
    for byte in bytes {
        match byte {
            b'\n' => text.push_str("\\n")?,
            b'\r' => text.push_str("\\r")?,
            b'\t' => text.push_str("\\t")?,
            b'\\' => text.push_str("\\\\")?,
            0x20..0x7f => text.push(*byte as char)?,
            _ => text.push_str(format!(in alloc; "\\x{byte:02x}")?.as_str())?,
        }
    }
    Ok(text)
}
