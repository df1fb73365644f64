use units::Amount;

/// What a member asks for: to buy an amount of one currency from a counterparty, and to sell it an amount of another.
#[derive(Clone, Copy, Debug, PartialEq, Eq)]
pub struct Instruction {
    pub submitter: u8,
    pub counterparty: u8,
    pub buys: u8,
    pub bought: Amount,
    pub sells: u8,
    pub sold: Amount,
    pub reference: u32,
}
