ghost use Rattle.std.specs.Prelude.{◌≡◌, ◌≤◌, vec_len};
ghost use Rattle.rules.specs.Bounds.{most_instructions};
ghost use Rattle.sheet.specs.Meaning.{sheet_of};
ghost use Rattle.intake.specs.Parties.{Listed};

use accounts::Accounts;
use intake::Pair;

/// A session but for its nostro and its queue order: the accounts, all pairs, those that wait in queue order, and the hour.
#[derive(Drop)]
pub struct Ledger {
    pub accounts: Accounts,
    pub pairs: Vec<Pair>,
    pub waiting: Vec<Pair>,
    pub hour: u8,
    ghost few: { vec_len pairs ≤ most_instructions },
    ghost listed: { Listed waiting.items (vec_len accounts.members) (sheet_of accounts.sheet).currencies },
}
