ghost use Rattle.std.specs.Prelude.{◌≡◌, ◌<◌, ◌≤◌, true, ◌++◌, length, is_ok, vec_len};
ghost use Rattle.rules.specs.Statements.{entry_of};
ghost use Rattle.rules.specs.Wording.{member_line, entry_lines};
ghost use Rattle.sheet.specs.Meaning.{sheet_of};
ghost use Rattle.statement.specs.Meaning.{written, entry_of as line_of};
ghost use Rattle.statement.specs.Room.{room};
ghost use Rattle.ledger.specs.Meaning.{books_within};
ghost use Rattle.session.specs.Closing.{setting_after, books_after};
ghost use Rattle.session.specs.Statements.{Stated, unordered};

use crate::closed::ClosedDay;
use ledger::{Ledger, own_pairs};
use nostro::Nostro;
use queue::QueueOrder;
use refusal::{Cause, Layer, Refusal, refuse_if};
use statement::{Entry, Statement};

// A member of the roster, in the ledger that its statement is of.
#[derive(Clone, Copy)]
struct Subject<'a> {
    ledger: &'a Ledger,
    member: u8,
    ghost on_roster: { member < vec_len ledger.now.accounts.members },
}

impl Subject<'_> {
    // What a statement says of one currency of the sheet.
    fn entry(&self, c: u8) -> Entry
        requires { c < (sheet_of self.now.ledger.now.accounts.sheet).currencies }
        ensures { line_of result ≡ entry_of (unordered self.now.ledger.now) (books_within self.now.ledger.now) self.now.member c }
    {
        let position = self.ledger.accounts.book.position(self.member, c);
        // An array goes into a literal by a name: a call that gives it straight there has no proof.
        let code = self.ledger.accounts.sheet.currency(c).unwrap().code;
        Entry {
            code,
            account: position.account,
            paid_in: position.paid_in,
            paid_out: position.paid_out,
            due: self.ledger.amount_due(self.member, c).unwrap(),
        }
    }

    // The lines of all currencies, after the member's own.
    fn lines(&self) -> Statement
        ensures { written result ≡ member_line ((unordered self.now.ledger.now).roster.member self.now.member).name ++ entry_lines (entry_of (unordered self.now.ledger.now) (books_within self.now.ledger.now) self.now.member) (sheet_of self.now.ledger.now.accounts.sheet).currencies }
    {
        let member = &self.ledger.accounts.members[usize::from(self.member)];
        let mut text = Statement::begin(member.name.as_bytes());
        // By number: the ledger is asked for each currency's line by it.
        for c in 0..self.ledger.accounts.sheet.len() {
            text.entry(&self.entry(c)).unwrap();
        }
        text
    }
}

// The statement of a member into a buffer.
fn write(ledger: &Ledger, member: u8, buf: &mut [u8]) -> Result<usize, Refusal>
    ensures stated { Stated (unordered ledger.now) (books_within ledger.now) member buf.old result buf.new }
    ensures succeeds { member < vec_len ledger.now.accounts.members → room ≤ length buf.old → is_ok result ≡ true }
{
    refuse_if(
        !ledger.accounts.has_member(member),
        Refusal::by(Layer::Session, Cause::Member).of(member),
    )?;
    let subject = Subject { ledger, member };
    let all = own_pairs(&ledger.pairs, member) as u64;
    let waiting = own_pairs(&ledger.waiting, member) as u64;
    subject
        .lines()
        .end(all.saturating_sub(waiting), waiting, buf)
        .ok_or(Refusal::by(Layer::Session, Cause::Buffer).of(member))
}

impl<N: Nostro, O: QueueOrder> ClosedDay<N, O> {
    /// Writes the statement of a member into a buffer, and answers its length.
    ///
    /// Refused where the member is not on the roster, or the buffer is shorter than the statement; the buffer is then as it was.
    pub fn statement(&self, member: u8, buf: &mut [u8]) -> Result<usize, Refusal>
        ensures stated { Stated (setting_after N.Nostro.cash O.QueueOrder.before self.now) (books_after N.Nostro.cash O.QueueOrder.before self.now) member buf.old result buf.new }
        ensures succeeds { member < (setting_after N.Nostro.cash O.QueueOrder.before self.now).roster.members → room ≤ length buf.old → is_ok result ≡ true }
    {
        write(&self.day.ledger, member, buf)
    }
}
