ghost use Rattle.std.specs.Prelude.{◌≡◌, ◌≤◌, vec_len};
ghost use Rattle.rules.specs.Bounds.{most_members};

use book::Book;
use intake::Member;
use sheet::Sheet;

/// What a pair is tested on and moves: the sheet, the members with their limits, and a row for each of them.
///
/// The members and their rows are two lists: the roster's own list is handed on as it is, and the memory of the rows is
/// found before there are rows to make.
#[derive(Drop)]
pub struct Accounts {
    pub sheet: Sheet,
    pub members: Vec<Member>,
    pub book: Book,
    ghost even: { vec_len book.rows ≡ vec_len members },
    ghost few: { vec_len members ≤ most_members },
}
