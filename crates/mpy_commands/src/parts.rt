//! What the lines of a table have behind their tags: words, numbers, texts and bytes.

use std::alloc::{AllocError, Global};

/// A word, of which `''` is the empty one.
fn word(alloc: Global, text: &str) -> Result<String, AllocError> {
    String::from_str(alloc, if text == "''" { "" } else { text })
}

/// The words of a line, none of an empty one.
pub fn words(alloc: Global, line: &str) -> Result<Vec<String>, AllocError> {
    let mut words = Vec::new(alloc);
    for text in line.split(" ") {
        if !text.is_empty() {
            words.push(word(alloc, text)?)?;
        }
    }
    Ok(words)
}

/// The numbers with spaces between.
pub fn numbers(alloc: Global, text: &str) -> Result<Vec<i32>, AllocError> {
    let mut numbers = Vec::new(alloc);
    for word in text.split(" ") {
        if let Ok(number) = word.parse::<i32>() {
            numbers.push(number)?;
        }
    }
    Ok(numbers)
}

/// Adds a line.
fn put_line(to: &mut Vec<u8>, line: &str) -> Result<(), AllocError> {
    to.extend_from_slice(line.as_bytes())?;
    to.push(b'\n')?;
    Ok(())
}

/// The value of a hexadecimal digit.
fn digit_of(byte: u8) -> u8 {
    if byte < b'a' {
        byte.wrapping_sub(b'0')
    } else {
        byte.wrapping_sub(b'a').wrapping_add(10)
    }
}

/// Adds bytes that are written in hexadecimal.
fn put_bytes(to: &mut Vec<u8>, digits: &str) -> Result<(), AllocError> {
    for pair in digits.as_bytes().chunks_exact(2) {
        if let [high, low] = pair {
            to.push(
                digit_of(*high)
                    .wrapping_mul(16)
                    .wrapping_add(digit_of(*low)),
            )?;
        }
    }
    Ok(())
}

/// Puts what a line with this tag has: a line, a text, or bytes in hexadecimal.
pub fn put(to: &mut Vec<u8>, tag: &str, rest: &str) -> Result<(), AllocError> {
    match tag {
        "|" | ">" | "-" => put_line(to, rest),
        "+" => to.extend_from_slice(rest.as_bytes()),
        _ => put_bytes(to, rest),
    }
}
