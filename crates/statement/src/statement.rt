use crate::entry::Entry;
use arrayvec::ArrayVec;
use rules::{LONGEST_NAME, MOST_CURRENCIES};

/// A statement in the making: the name of its member, and its first currencies.
#[derive(Drop)]
pub struct Statement {
    // A copy, so that the statement, which is public, borrows nothing.
    pub(crate) name: ArrayVec<u8, LONGEST_NAME>,
    pub(crate) entries: ArrayVec<Entry, MOST_CURRENCIES>,
}

/// Why a currency is not added: the statement has as many as a day has at most.
#[derive(Clone, Copy, Debug, PartialEq, Eq)]
pub struct NoLineLeft;
