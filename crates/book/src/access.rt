ghost use Rattle.std.specs.Prelude.{◌≡◌, ℕ};
ghost use Rattle.book.specs.Rows.{nothing, in_row, position, Put, Holds};

use crate::position::Position;
use crate::row::Row;
use crate::table::Book;
use rules::MOST_CURRENCIES;
use units::{Amount, Units};

// No `Default`: it cannot be derived beside a ghost field, and `nothing` says what it is.
impl Position {
    /// The position of a member that has done nothing.
    pub fn nothing() -> Position
        ensures { result ≡ nothing }
    {
        Position {
            account: Units(0),
            reserved: Amount(0),
            paid_in: Amount(0),
            paid_out: Amount(0),
        }
    }
}

impl Row {
    /// The row of a member that has done nothing.
    pub fn nothing() -> Row
        ensures { (c : ℕ) → in_row result c ≡ nothing }
    {
        Row {
            positions: [Position::nothing(); MOST_CURRENCIES],
        }
    }

    /// The position in a currency; nothing where no currency has the number.
    pub fn position(&self, currency: u8) -> Position
        ensures { result ≡ in_row self.now currency }
    {
        self.positions
            .get(usize::from(currency))
            .copied()
            .unwrap_or(Position::nothing())
    }
}

impl Book {
    /// The position of a member in a currency; nothing where there is none.
    pub fn position(&self, member: u8, currency: u8) -> Position
        ensures { result ≡ position self.now member currency }
    {
        self.rows
            .get(usize::from(member))
            .map_or(Position::nothing(), |row| row.position(currency))
    }

    /// Puts a position at a member and a currency of the book; elsewhere nothing happens.
    pub fn put(&mut self, member: u8, currency: u8, position: Position)
        ensures put { Holds self.old member currency → Put self.old self.new member currency position }
        ensures off { (Holds self.old member currency → ⊥) → self.new ≡ self.old }
    {
        let place = usize::from(currency);
        if place < MOST_CURRENCIES
            && let Some(row) = self.rows.get_mut(usize::from(member))
        {
            // A write by index is proved to leave the other currencies as they are; one through `get_mut` of an array is not.
            row.positions[place] = position;
        }
    }
}
