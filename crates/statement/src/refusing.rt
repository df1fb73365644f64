//! How a refusal is written.
ghost use Rattle.std.specs.Prelude.{◌≡◌, ◌≤◌, true, length, is_some};
ghost use Rattle.std.specs.List.{flat_map};
ghost use Rattle.rules.specs.Wording.{number_or_dash, refusal_line};
ghost use Rattle.refusal.specs.Meaning.{refusal_of};
ghost use Rattle.statement.specs.Pieces.{piece_text, Copied};
ghost use Rattle.statement.specs.Room.{number_room, refusal_room};

use crate::pieces::{Piece, Text, copy_to, put_line};
use refusal::Refusal;

/// Bytes that suffice for the line of any refusal.
pub const LONGEST_LINE: usize = 128;

/// How long the line of a refusal is: it then stands at the front of `buf`, the rest as it was.
/// Or nothing, and every byte of `buf` as it was, where it is longer than `buf`: 128 bytes always suffice.
pub fn write_refusal(e: &Refusal, buf: &mut [u8]) -> Option<usize>
    ensures copied { Copied (refusal_line (refusal_of e.now)) buf.old result buf.new }
    ensures fits { refusal_room ≤ length buf.old → is_some result ≡ true }
{
    let mut text = Text::new();
    put_line(&mut text, &refusal_pieces(e));
    copy_to(&text, buf)
}

fn refusal_pieces(e: &Refusal) -> [Piece<'static>; 11]
    ensures text { flat_map piece_text result ≡ refusal_line (refusal_of e.now) }
    ensures short { length (flat_map piece_text result) ≤ refusal_room }
{
    [
        Piece::Bytes(b"refusal "),
        Piece::number(u64::from(e.cause.number())),
        Piece::Bytes(b" "),
        Piece::Bytes(e.layer.name()),
        Piece::Bytes(b" member "),
        number_or_dash(e.member),
        Piece::Bytes(b" currency "),
        number_or_dash(e.currency),
        Piece::Bytes(b" place "),
        Piece::number(e.place as u64),
        Piece::Bytes(b"\n"),
    ]
}

fn number_or_dash(n: Option<u8>) -> Piece<'static>
    ensures text { piece_text result ≡ number_or_dash n }
    ensures short { length (piece_text result) ≤ number_room }
{
    n.map_or(Piece::Bytes(b"-"), |k| Piece::number(u64::from(k)))
}
