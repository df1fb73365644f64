//! The pieces of a line, and how they are written into a text that is held in place.
ghost use Rattle.std.specs.Prelude.{◌≡◌, ◌+◌, ◌≤◌, true, ◌++◌, length, is_some, decimal};
ghost use Rattle.std.specs.List.{flat_map};
ghost use Rattle.std.specs.Fmt.{signed_decimal};
ghost use Rattle.arrayvec.specs.ArrayVec.{array_vec_len};
ghost use Rattle.statement.specs.Pieces.{piece_text, Copied};
ghost use Rattle.statement.specs.Room.{room, number_room, signed_room};

use arrayvec::ArrayVec;
use itoa::Buffer;

/// Bytes of the longest statement: a member's line of 24, 24 lines of 108, and a last one of 58.
pub const LONGEST_STATEMENT: usize = 2_674;

/// A text that is held in place, with room for the longest statement.
pub(crate) type Text = ArrayVec<u8, LONGEST_STATEMENT>;

/// A piece of a line: bytes as they stand, or a number in decimal digits.
// `write!` takes neither codes nor names, which are any bytes, and may answer an error where there is room.
#[derive(Clone, Copy)]
pub(crate) enum Piece<'a> {
    Bytes(&'a [u8]),
    Number(u64),
    /// With `-` before a number below 0.
    Signed(i64),
}

// Functions beside the variants: they tell how long the digits are.
impl Piece<'_> {
    pub(crate) fn number(n: u64) -> Piece<'static>
        ensures text { piece_text result ≡ decimal n }
        ensures short { length (piece_text result) ≤ number_room }
    {
        Piece::Number(n)
    }

    pub(crate) fn signed(z: i64) -> Piece<'static>
        ensures text { piece_text result ≡ signed_decimal z }
        ensures short { length (piece_text result) ≤ signed_room }
    {
        Piece::Signed(z)
    }
}

fn put_bytes(text: &mut Text, bytes: &[u8])
    requires { array_vec_len text.old + length bytes.now ≤ room }
    ensures { text.new.items ≡ text.old.items ++ bytes.now }
{
    text.try_extend_from_slice(bytes).unwrap();
}

fn put(text: &mut Text, piece: &Piece<'_>)
    requires { array_vec_len text.old + length (piece_text piece.now) ≤ room }
    ensures { text.new.items ≡ text.old.items ++ piece_text piece.now }
{
    let mut digits = Buffer::new();
    match *piece {
        Piece::Bytes(bytes) => put_bytes(text, bytes),
        Piece::Number(n) => put_bytes(text, digits.format(n).as_bytes()),
        Piece::Signed(z) => put_bytes(text, digits.format(z).as_bytes()),
    }
}

/// Puts the pieces of a line after what the text has.
pub(crate) fn put_line(text: &mut Text, line: &[Piece<'_>])
    requires { array_vec_len text.old + length (flat_map piece_text line.now) ≤ room }
    ensures { text.new.items ≡ text.old.items ++ flat_map piece_text line.now }
{
    for piece in line {
        put(text, piece);
    }
}

// An Option, since a short buffer is the only way in which it fails.
/// How long the text is, which then stands at the front of `buf`; or nothing, with `buf` as it was, where it is longer.
pub(crate) fn copy_to(text: &Text, buf: &mut [u8]) -> Option<usize>
    ensures copied { Copied text.now.items buf.old result buf.new }
    ensures fits { array_vec_len text.now ≤ length buf.old → is_some result ≡ true }
{
    let len = text.len();
    if buf.len() < len {
        return None;
    }
    // By a range: through `get_mut` the search does not find that the rest of the buffer is left.
    buf[..len].copy_from_slice(text.as_slice());
    Some(len)
}
