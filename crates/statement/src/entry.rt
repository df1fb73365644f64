use rules::CODE_SIZE;
use units::{Amount, Units};

/// One currency of a statement.
#[derive(Clone, Copy, Debug, Default, PartialEq, Eq)]
pub struct Entry {
    pub code: [u8; CODE_SIZE],
    pub account: Units,
    pub paid_in: Amount,
    pub paid_out: Amount,
    pub due: Amount,
}
