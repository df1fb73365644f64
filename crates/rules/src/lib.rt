//! The rules of a settlement day, as definitions that the contracts of the other crates cite.
//!
//! The definitions stand in `specs/`, one subject a file, and the lemmas about them in `proofs/`.
//! Each function here carries a theorem in its contract, so that the check asks for its proof. The constants are the
//! house numbers for the code of all crates.
#![tactic(auto)]

ghost use Rattle.rules.specs.MatchingLaws.{MatchingPairsMirrors};
ghost use Rattle.rules.specs.Settling.{SettleIsPassesUntilOneSettlesNothing, QueueIsInOrder, QueueIsTheOnlyOne};
ghost use Rattle.rules.specs.Worked.{WorkedCases};

mod bounds;

pub use bounds::{
    CODE_SIZE, LAST_HOUR, LONGEST_FILE, LONGEST_NAME, MOST_CURRENCIES, MOST_HAIRCUT,
    MOST_INSTALMENTS, MOST_INSTRUCTIONS, MOST_MARKS, MOST_MEMBERS, MOST_RATE, MOST_STEPS, MOST_SUM,
    MOST_UNITS,
};

/// Settle makes passes over the waiting pairs, in queue order, until one settles nothing.
pub fn settle_makes_passes()
    ensures { SettleIsPassesUntilOneSettlesNothing }
{}

/// Under every queue order the queue is in order and holds each pair once.
pub fn queue_is_in_order()
    ensures { QueueIsInOrder }
{}

/// Under every queue order two lists of the same pairs that are both in order are one list: the queue is the only one.
pub fn queue_is_the_only_one()
    ensures { QueueIsTheOnlyOne }
{}

/// After every list of instructions, two kept ones are a pair if they are mirrors, and only if; each is in at most one.
pub fn matching_pairs_mirrors()
    ensures { MatchingPairsMirrors }
{}

/// The worked cases come out as listed.
pub fn worked_cases_hold()
    ensures { WorkedCases }
{}
