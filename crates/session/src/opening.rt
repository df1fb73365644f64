ghost use Rattle.std.specs.Prelude.{◌≡◌, ℕ, ◌≤◌, vec_len, vec_capacity};
ghost use Rattle.rules.specs.Books.{opened};
ghost use Rattle.book.specs.Rows.{Untouched};
ghost use Rattle.session.specs.Meaning.{setting_of, books_of};
ghost use Rattle.session.specs.Opening.{day_of};

use crate::session::Session;
use accounts::Accounts;
use book::{Book, Row};
use intake::{Intake, Opening};
use ledger::Ledger;
use nostro::Nostro;
use queue::{QueueOrder, queue_up};

// A row of nothing for each member, in memory that is there already: so the resize never fails.
fn empty_book(mut rows: Vec<Row>, members: usize) -> Book
    requires empty { vec_len rows ≡ 0 }
    requires room { members ≤ vec_capacity rows }
    ensures len { vec_len result.rows ≡ members }
    ensures nothing { Untouched result.rows.items }
{
    rows.resize(members, Row::nothing()).unwrap();
    Book { rows }
}

impl<N: Nostro, O: QueueOrder> Session<N, O> {
    /// The session that an intake becomes: all accounts are 0, all pairs wait in queue order, and unmatched instructions lapse.
    pub fn open(intake: Intake, nostro: N, order: O) -> Session<N, O>
        ensures setting { setting_of N.Nostro.cash O.QueueOrder.before result ≡ day_of (O.QueueOrder.before order) intake }
        ensures books { books_of N.Nostro.cash O.QueueOrder.before result ≡ opened (day_of (O.QueueOrder.before order) intake) (N.Nostro.cash nostro) }
    {
        let Opening {
            sheet,
            members,
            pairs,
            mut queue,
            rows,
        } = intake.finish();
        // There is room for all pairs, so this is never refused.
        queue_up(&order, &pairs, &mut queue).unwrap();
        let book = empty_book(rows, members.len());
        let accounts = Accounts {
            sheet,
            members,
            book,
        };
        let ledger = Ledger {
            accounts,
            pairs,
            waiting: queue,
            hour: 0,
        };
        Session {
            ledger,
            nostro,
            order,
        }
    }
}
