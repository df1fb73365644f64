ghost use Rattle.std.specs.Prelude.{◌≡◌};
ghost use Rattle.nostro.specs.Cash.{Received, Paid};
ghost use Rattle.nostro.specs.Holdings.{first_part, second_part, both, PartsReceive, PartsPay};

use crate::correspondent::Nostro;
use refusal::Refusal;
use units::Amount;

/// Two nostros as one: pay-ins arrive at the first, and payments leave from the first as far as its cash goes.
#[derive(Drop)]
pub struct Split<A, B> {
    first: A,
    second: B,
}

impl<A, B> Split<A, B> {
    /// The split over two nostros.
    pub fn new(first: A, second: B) -> Split<A, B>
        ensures first { first_part result ≡ first }
        ensures second { second_part result ≡ second }
    {
        Split { first, second }
    }

    /// The part that receives, and that pays first.
    pub fn first(&self) -> &A
        ensures { result.now ≡ first_part self.now }
    {
        &self.first
    }

    /// The part that pays what the first cannot.
    pub fn second(&self) -> &B
        ensures { result.now ≡ second_part self.now }
    {
        &self.second
    }
}

impl<A: Nostro, B: Nostro> Nostro for Split<A, B> {
    ghost cash = { both A.Nostro.cash B.Nostro.cash };

    fn cash_in(&self, currency: u8) -> Amount {
        let second = self.second.cash_in(currency);
        self.first.cash_in(currency).saturating_add(second)
    }

    fn receive(&mut self, currency: u8, amount: Amount) -> Result<(), Refusal>
        ensures received { Received (both A.Nostro.cash B.Nostro.cash self.old) currency amount.0 (both A.Nostro.cash B.Nostro.cash self.new) result }
        ensures parts { PartsReceive A.Nostro.cash B.Nostro.cash self.old currency amount.0 self.new result }
    {
        self.may_receive(currency, amount)?;
        self.first.receive(currency, amount)
    }

    fn pay(&mut self, currency: u8, amount: Amount) -> Result<(), Refusal>
        ensures paid { Paid (both A.Nostro.cash B.Nostro.cash self.old) currency amount.0 (both A.Nostro.cash B.Nostro.cash self.new) result }
        ensures parts { PartsPay A.Nostro.cash B.Nostro.cash self.old currency amount.0 self.new result }
    {
        self.may_pay(currency, amount)?;
        let first = self.first.cash_in(currency);
        if amount <= first {
            return self.first.pay(currency, amount);
        }
        self.first.pay(currency, first)?;
        self.second.pay(currency, amount - first)
    }
}
