use units::Amount;

/// An amount of a member's account that is set aside to be paid out.
///
/// It cannot be let go: each path pays it, or gives it to the closed day as lapsed.
#[derive(Debug, PartialEq, Eq)]
pub struct Reservation {
    pub(crate) member: u8,
    pub(crate) currency: u8,
    pub(crate) amount: Amount,
}
