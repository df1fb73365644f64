use crate::position::Position;
use rules::MOST_CURRENCIES;

/// One member's positions, by currency number.
#[derive(Clone, Copy, Debug, PartialEq, Eq)]
pub struct Row {
    pub positions: [Position; MOST_CURRENCIES],
}
