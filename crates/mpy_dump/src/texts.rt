//! How names and strs are listed: control bytes by number, and strs in quotes.

ghost use Rattle.std.specs.Prelude.{◌≡◌, ◌<◌, ◌==◌, ◌||◌};
ghost use Rattle.std.specs.List.{list_any};
ghost use Rattle.mpy_dump.specs.Puts.{Puts};
ghost use Rattle.mpy_dump.specs.Texts as specs;

use crate::put::put;
use mpy_io::{Failed, Sink};

/// A hexadecimal digit.
fn hex_digit(n: u8) -> u8
    requires { n < 16 }
    ensures { result ≡ specs.hex_digit n }
{
    if n < 10 { b'0' + n } else { b'a' - 10 + n }
}

/// A byte as `\x` and two hexadecimal digits.
fn hex(byte: u8) -> [u8; 4]
    ensures { result ≡ specs.hex byte }
{
    [b'\\', b'x', hex_digit(byte / 16), hex_digit(byte % 16)]
}

/// Is it a control byte: below the blank, or behind the tilde?
fn is_control(byte: u8) -> bool
    ensures { result ≡ specs.is_control byte }
{
    byte < 32 || byte == 127
}

/// Whether a byte of a name is written by its number.
fn is_numbered(byte: u8) -> bool
    ensures { result ≡ (specs.is_control byte || byte == 92) }
{
    is_control(byte) || byte == b'\\'
}

/// Puts a byte of a name: a control byte or a backslash by its number.
fn put_name_byte<S: Sink>(out: &mut S, byte: u8) -> Result<(), Failed>
    ensures { Puts S.told S.count out.old out.new (specs.name_byte byte) result }
{
    if is_numbered(byte) {
        put(out, &hex(byte))
    } else {
        put(out, &[byte])
    }
}

/// Puts a name byte by byte.
fn put_name_bytes<S: Sink>(out: &mut S, name: &[u8]) -> Result<(), Failed>
    ensures { Puts S.told S.count out.old out.new (specs.name_text name.now) result }
{
    for byte in name {
        put_name_byte(out, *byte)?;
    }
    Ok(())
}

/// Is a byte of the name written by its number?
fn has_numbered(name: &[u8]) -> bool
    ensures { result ≡ list_any (λ byte. specs.is_control byte || byte == 92) name.now }
{
    name.iter().any(|byte| is_numbered(*byte))
}

/// Puts a name, in one piece where it is written as it is.
pub(crate) fn put_name<S: Sink>(out: &mut S, name: &[u8]) -> Result<(), Failed>
    ensures { Puts S.told S.count out.old out.new (specs.name_text name.now) result }
{
    if has_numbered(name) {
        put_name_bytes(out, name)
    } else {
        put(out, name)
    }
}

/// Puts a byte of a str, behind a backslash where it needs one.
fn put_str_byte<S: Sink>(out: &mut S, quote: u8, byte: u8) -> Result<(), Failed>
    ensures { Puts S.told S.count out.old out.new (specs.str_byte quote byte) result }
{
    if byte == quote || byte == b'\\' {
        put(out, &[b'\\', byte])
    } else if byte == b'\n' {
        put(out, b"\\n")
    } else if byte == b'\r' {
        put(out, b"\\r")
    } else if byte == b'\t' {
        put(out, b"\\t")
    } else if is_control(byte) {
        put(out, &hex(byte))
    } else {
        put(out, &[byte])
    }
}

/// Puts the bytes of a str inside such quotes.
fn put_inside<S: Sink>(out: &mut S, quote: u8, text: &[u8]) -> Result<(), Failed>
    ensures { Puts S.told S.count out.old out.new (specs.inside quote text.now) result }
{
    for byte in text {
        put_str_byte(out, quote, *byte)?;
    }
    Ok(())
}

/// Is the byte among those of the text?
fn has_byte(text: &[u8], byte: u8) -> bool
    ensures { result ≡ specs.has_byte byte text.now }
{
    text.iter().any(|b| *b == byte)
}

/// The quote that a str stands in.
fn quote_of(text: &[u8]) -> u8
    ensures { result ≡ specs.quote_of text.now }
{
    if has_byte(text, b'\'') && !has_byte(text, b'"') {
        b'"'
    } else {
        b'\''
    }
}

/// Puts the text between these quotes.
fn put_quoted<S: Sink>(out: &mut S, quote: u8, text: &[u8]) -> Result<(), Failed>
    ensures { Puts S.told S.count out.old out.new (specs.quoted quote text.now) result }
{
    put(out, &[quote])?;
    put_inside(out, quote, text)?;
    put(out, &[quote])
}

/// Puts a str in quotes.
pub(crate) fn put_str<S: Sink>(out: &mut S, text: &[u8]) -> Result<(), Failed>
    ensures { Puts S.told S.count out.old out.new (specs.str_text text.now) result }
{
    put_quoted(out, quote_of(text), text)
}
