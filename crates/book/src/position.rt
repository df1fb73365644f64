ghost use Rattle.book.specs.Ranges.{InRange};

use units::{Amount, Units};

/// What a member has in one currency: its account, what of it is reserved, and what it has paid in and been paid out today.
#[derive(Clone, Copy, Debug, PartialEq, Eq)]
pub struct Position {
    pub account: Units,
    pub reserved: Amount,
    pub paid_in: Amount,
    pub paid_out: Amount,
    ghost sound: { InRange account.0 reserved.0 paid_in.0 paid_out.0 },
}
