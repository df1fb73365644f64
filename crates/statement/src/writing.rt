//! How a statement is written: its first line, a line for each currency, its last line.
ghost use Rattle.std.specs.Prelude.{◌≡◌, ◌+◌, ◌≤◌, true, ◌++◌, length, take, is_some};
ghost use Rattle.std.specs.List.{flat_map};
ghost use Rattle.rules.specs.Wording.{member_line, entry_line, pairs_line};
ghost use Rattle.statement.specs.Pieces.{piece_text, Copied};
ghost use Rattle.statement.specs.Meaning.{entry_of, written, entry_count, Added};
ghost use Rattle.statement.specs.Room.{room, longest_name, entry_room, pairs_room};

use crate::entry::Entry;
use crate::pieces::{Piece, Text, copy_to, put_line};
use crate::statement::{NoLineLeft, Statement};
use arrayvec::ArrayVec;
use rules::LONGEST_NAME;

impl Statement {
    /// The statement of a member of this name, with no currency yet. A name longer than 16 bytes is cut there.
    pub fn begin(name: &[u8]) -> Statement
        ensures text { written result ≡ member_line (take longest_name name.now) }
        ensures whole { length name.now ≤ longest_name → written result ≡ member_line name.now }
        ensures entries { entry_count result ≡ 0 }
    {
        Statement {
            name: ArrayVec::try_from(&name[..name.len().min(LONGEST_NAME)]).unwrap(),
            entries: ArrayVec::new(),
        }
    }

    /// Adds the line of one more currency. Refused where 24 are there: nothing changes then.
    pub fn entry(&mut self, entry: &Entry) -> Result<(), NoLineLeft>
        ensures { Added self.old (entry_of entry.now) result self.new }
    {
        self.entries.try_push(*entry).map_err(|_| NoLineLeft)
    }

    /// How long the whole statement is, with its last line: it then stands at the front of `buf`, the rest as it was.
    /// Or nothing, and every byte of `buf` as it was, where it is longer than `buf`.
    pub fn end(self, settled: u64, waiting: u64, buf: &mut [u8]) -> Option<usize>
        ensures copied { Copied (written self ++ pairs_line settled waiting) buf.old result buf.new }
        ensures fits { room ≤ length buf.old → is_some result ≡ true }
    {
        let mut text = Text::new();
        put_line(&mut text, &member_pieces(self.name.as_slice()));
        for entry in self.entries.as_slice() {
            put_line(&mut text, &entry_pieces(entry));
        }
        put_line(&mut text, &pairs_pieces(settled, waiting));
        copy_to(&text, buf)
    }
}

fn member_pieces(name: &[u8]) -> [Piece<'_>; 3]
    ensures text { flat_map piece_text result ≡ member_line name.now }
    ensures short { length (flat_map piece_text result) ≡ length name.now + 8 }
{
    [
        Piece::Bytes(b"member "),
        Piece::Bytes(name),
        Piece::Bytes(b"\n"),
    ]
}

fn entry_pieces(entry: &Entry) -> [Piece<'_>; 10]
    ensures text { flat_map piece_text result ≡ entry_line (entry_of entry.now) }
    ensures short { length (flat_map piece_text result) ≤ entry_room }
{
    [
        Piece::Bytes(&entry.code),
        Piece::Bytes(b" account "),
        Piece::signed(entry.account.0),
        Piece::Bytes(b" in "),
        Piece::number(entry.paid_in.0),
        Piece::Bytes(b" out "),
        Piece::number(entry.paid_out.0),
        Piece::Bytes(b" due "),
        Piece::number(entry.due.0),
        Piece::Bytes(b"\n"),
    ]
}

fn pairs_pieces(settled: u64, waiting: u64) -> [Piece<'static>; 5]
    ensures text { flat_map piece_text result ≡ pairs_line settled waiting }
    ensures short { length (flat_map piece_text result) ≤ pairs_room }
{
    [
        Piece::Bytes(b"settled "),
        Piece::number(settled),
        Piece::Bytes(b" waiting "),
        Piece::number(waiting),
        Piece::Bytes(b"\n"),
    ]
}
