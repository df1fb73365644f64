ghost use Rattle.std.specs.Prelude.{◌≡◌, ℕ, vec_len};
ghost use Rattle.book.specs.Rows.{in_row, position, Lapsed};

use crate::position::Position;
use crate::row::Row;
use crate::table::Book;
use units::Amount;

impl Position {
    /// The position with what is reserved back in the account.
    pub fn lapsed(mut self) -> Position
        ensures { Lapsed self result }
    {
        let reserved = self.reserved;
        self.account += reserved;
        self.reserved = Amount(0);
        self
    }
}

impl Row {
    // Every position with what is reserved back in its account.
    fn lapse(&mut self)
        ensures { (c : ℕ) → Lapsed (in_row self.old c) (in_row self.new c) }
    {
        for position in &mut self.positions {
            *position = position.lapsed();
        }
    }
}

impl Book {
    /// Puts every reservation back into its account.
    pub fn lapse(&mut self)
        ensures len { vec_len self.new.rows ≡ vec_len self.old.rows }
        ensures rows { (m c : ℕ) → Lapsed (position self.old m c) (position self.new m c) }
    {
        // `iter_mut`, whose rows are told by their numbers.
        for row in self.rows.iter_mut() {
            row.lapse();
        }
    }
}
