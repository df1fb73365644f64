//! The fields of a step's record.
ghost use Rattle.std.specs.Prelude.{◌≡◌};
ghost use Rattle.daywriter.specs.Fields.{fields_of};

use dayfile::{StepKind, StepRecord};

// The fields of a step's record, with 0 in those that its kind does not read.
#[derive(Clone, Copy)]
pub(crate) struct StepFields {
    pub(crate) kind: StepKind,
    pub(crate) member: u8,
    pub(crate) currency: u8,
    pub(crate) hour: u8,
    pub(crate) amount: u32,
}

// The fields of a step that reads nothing but its kind.
const SETTLE_FIELDS: StepFields = StepFields {
    kind: StepKind::Settle,
    member: 0,
    currency: 0,
    hour: 0,
    amount: 0,
};

impl From<StepRecord> for StepFields {
    ghost from_gives = { λ s f. f ≡ fields_of s };

    fn from(step: StepRecord) -> StepFields {
        match step {
            StepRecord::PayIn {
                member,
                currency,
                amount,
            } => StepFields {
                kind: StepKind::PayIn,
                member,
                currency,
                amount,
                ..SETTLE_FIELDS
            },
            StepRecord::Clock { hour } => StepFields {
                kind: StepKind::Clock,
                hour,
                ..SETTLE_FIELDS
            },
            StepRecord::Settle => SETTLE_FIELDS,
            StepRecord::PayOut {
                member,
                currency,
                amount,
            } => StepFields {
                kind: StepKind::PayOut,
                member,
                currency,
                amount,
                ..SETTLE_FIELDS
            },
        }
    }
}
