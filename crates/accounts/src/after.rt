use crate::leg::Leg;
use book::Book;

/// A member's row as it would be after one leg.
#[derive(Clone, Copy)]
pub struct After<'a> {
    pub book: &'a Book,
    pub member: u8,
    pub leg: Leg,
}
