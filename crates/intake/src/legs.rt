ghost use Rattle.std.specs.Prelude.{◌≡◌, ℕ, ◌+◌, ◌*◌, ◌≤◌};
ghost use Rattle.rules.specs.Bounds.{most_units};
ghost use Rattle.rules.specs.Statements.{party_to};
ghost use Rattle.rules.specs.Sums.{only};
ghost use Rattle.rules.specs.Pairs.{buys_by, sells_by};
ghost use Rattle.intake.specs.Parties.{pair_of};

use crate::pair::Pair;

impl Pair {
    /// Whether a member is one of the two parties.
    pub fn has_party(&self, m: u8) -> bool
        ensures { result ≡ party_to m (pair_of self.now) }
    {
        self.first == m || self.second == m
    }

    // What a member has of a currency if one party has the bought leg and the other the sold one.
    fn share(&self, of_bought: u8, of_sold: u8, m: u8, c: u8) -> u64
        ensures value { result ≡ only of_bought self.now.buys self.now.bought.0 m c + only of_sold self.now.sells self.now.sold.0 m c }
        ensures bound { result ≤ 2 * most_units }
    {
        let bought = self.bought.when(of_bought == m && self.buys == c);
        let sold = self.sold.when(of_sold == m && self.sells == c);
        bought.0 + sold.0
    }

    /// What a member buys in a currency by this pair.
    pub fn bought_by(&self, m: u8, c: u8) -> u64
        ensures value { result ≡ buys_by (pair_of self.now) m c }
        ensures bound { result ≤ 2 * most_units }
    {
        self.share(self.first, self.second, m, c)
    }

    /// What a member sells in a currency by this pair.
    pub fn sold_by(&self, m: u8, c: u8) -> u64
        ensures value { result ≡ sells_by (pair_of self.now) m c }
        ensures bound { result ≤ 2 * most_units }
    {
        self.share(self.second, self.first, m, c)
    }
}
