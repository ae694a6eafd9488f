//! Pieces of a fault's text: words, numbers and names, read byte by byte without a text in memory.

ghost use Rattle.std.specs.Prelude.{◌≡◌, ◌<◌, ◌^◌, length, slice_index};
ghost use Rattle.std.specs.Fmt.{decimal};
ghost use Rattle.std.specs.List.{flat_map};
ghost use Rattle.prim_faults.specs.Pieces.{piece_text};

use itoa::Buffer;

/// A piece of a fault's text.
#[derive(Clone, Copy)]
pub(crate) enum Piece {
    Text(&'static str),
    Number(u32),
    /// The name that the fault has.
    Name,
}

/// The digits of a number.
fn digits(buffer: &mut Buffer, n: u32) -> &[u8]
    ensures { result.now ≡ decimal n }
{
    buffer.format(n).as_bytes()
}

/// How long a piece is.
fn piece_len(piece: Piece, name: &[u8]) -> usize
    ensures { result ≡ length (piece_text name.now piece) }
{
    match piece {
        Piece::Text(text) => text.len(),
        Piece::Number(n) => {
            let mut buffer = Buffer::new();
            digits(&mut buffer, n).len()
        }
        Piece::Name => name.len(),
    }
}

/// The byte at a place of a piece.
fn piece_byte(piece: Piece, name: &[u8], at: usize) -> u8
    requires { at < length (piece_text name.now piece) }
    ensures { result ≡ slice_index (piece_text name.now piece) at }
{
    match piece {
        Piece::Text(text) => text.as_bytes()[at],
        Piece::Number(n) => {
            let mut buffer = Buffer::new();
            digits(&mut buffer, n)[at]
        }
        Piece::Name => name[at],
    }
}

/// How long pieces are, one behind another.
pub(crate) fn pieces_len(pieces: &[Piece], name: &[u8]) -> usize
    requires { length (flat_map (piece_text name.now) pieces.now) < 2 ^ 64 }
    ensures { result ≡ length (flat_map (piece_text name.now) pieces.now) }
{
    let mut len = 0;
    for piece in pieces {
        len += piece_len(*piece, name);
    }
    len
}

/// The byte at a place of pieces, one behind another.
pub(crate) fn pieces_byte(pieces: &[Piece], name: &[u8], at: usize) -> u8
    requires { at < length (flat_map (piece_text name.now) pieces.now) }
    ensures { result ≡ slice_index (flat_map (piece_text name.now) pieces.now) at }
{
    let mut left = at;
    for piece in pieces {
        let len = piece_len(*piece, name);
        if left < len {
            return piece_byte(*piece, name, left);
        }
        left -= len;
    }
    unreachable!()
}
