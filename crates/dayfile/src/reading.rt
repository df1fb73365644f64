//! The records of a day file, by their number among those of their kind or among all.
ghost use Rattle.std.specs.Prelude.{◌≡◌, ℕ, ◌+◌, ◌*◌, ◌<◌, ◌≤◌, length, MatchOption};
ghost use Rattle.rules.specs.FileForm.{currencies_in, members_in, instructions_in, steps_in};
ghost use Rattle.rules.specs.FileRecords.{part};
ghost use Rattle.dayfile.specs.Meaning.{file_of};
ghost use Rattle.dayfile.specs.Laid.{Lays};
ghost use Rattle.dayfile.specs.Answer.{CurrencyAt, MemberAt, InstructionAt, StepAt, RecordAt};

use crate::dayfile::DayFile;
use crate::fields::Stored;
use crate::layout::{Block, Layout};
use crate::records::{CurrencyRecord, InstructionRecord, MemberRecord, Record, StepRecord};

// The i-th record of a block, or none where the block has no more than i.
fn nth<'a, R: Stored<'a>>(file: &'a [u8], block: Block, i: usize) -> Option<R>
    requires ends { block.first + block.size * block.count ≤ length file.now }
    requires stands { (k : ℕ) → k < block.count → R.stands (part file.now (block.first + block.size * k) block.size) }
    ensures { MatchOption result (block.count ≤ i) (λ r. (i < block.count) × R.says (part file.now (block.first + block.size * i) block.size) r) }
{
    // No `then`: that the record is within the file is not proved inside a closure.
    if i >= block.count {
        return None;
    }
    let at = block.place(i);
    Some(R::read(&file[at..at + block.size]))
}

impl<'a> DayFile<'a> {
    fn layout(self) -> Layout
        ensures { Lays (file_of self.entry) result }
    {
        Layout::of(self.bytes)
    }

    /// How many currencies the file has.
    pub fn currencies(self) -> usize
        ensures count { result ≡ currencies_in (file_of self.entry) }
        ensures bound { result < 65536 }
    {
        self.layout().currencies.count
    }

    /// How many members the file has.
    pub fn members(self) -> usize
        ensures count { result ≡ members_in (file_of self.entry) }
        ensures bound { result < 65536 }
    {
        self.layout().members.count
    }

    /// How many instructions the file has.
    pub fn instructions(self) -> usize
        ensures count { result ≡ instructions_in (file_of self.entry) }
        ensures bound { result < 65536 }
    {
        self.layout().instructions.count
    }

    /// How many steps the file has.
    pub fn steps(self) -> usize
        ensures count { result ≡ steps_in (file_of self.entry) }
        ensures bound { result < 65536 }
    {
        self.layout().steps.count
    }

    // One method for each kind: a caller names the kind, and the answer's type is its record.
    /// The i-th currency, or none where the file has no more than i.
    pub fn currency(self, i: usize) -> Option<CurrencyRecord<'a>>
        ensures { CurrencyAt (file_of self.entry) i result }
    {
        nth(self.bytes, self.layout().currencies, i)
    }

    /// The i-th member, likewise.
    pub fn member(self, i: usize) -> Option<MemberRecord<'a>>
        ensures { MemberAt (file_of self.entry) i result }
    {
        nth(self.bytes, self.layout().members, i)
    }

    /// The i-th instruction, likewise.
    pub fn instruction(self, i: usize) -> Option<InstructionRecord>
        ensures { InstructionAt (file_of self.entry) i result }
    {
        nth(self.bytes, self.layout().instructions, i)
    }

    /// The i-th step, likewise.
    pub fn step(self, i: usize) -> Option<StepRecord>
        ensures { StepAt (file_of self.entry) i result }
    {
        nth(self.bytes, self.layout().steps, i)
    }

    /// The k-th record, whatever its kind: currencies, members, instructions and steps follow in that order.
    pub fn record(self, k: usize) -> Option<Record<'a>>
        ensures { RecordAt (file_of self.entry) k result }
    {
        // No chain of `or_else`: a closure whose record borrows from the file, which it does not capture, is not covered.
        if let Some(currency) = self.currency(k) {
            return Some(Record::Currency(currency));
        }
        let k = k - self.currencies();
        if let Some(member) = self.member(k) {
            return Some(Record::Member(member));
        }
        let k = k - self.members();
        if let Some(instruction) = self.instruction(k) {
            return Some(Record::Instruction(instruction));
        }
        let k = k - self.instructions();
        Some(Record::Step(self.step(k)?))
    }
}
