//! Where the records of a file stand.
ghost use Rattle.std.specs.Prelude.{◌≡◌, ℕ, List, ◌+◌, ◌*◌, ◌^◌, ◌<◌, ◌≤◌, length};
ghost use Rattle.rules.specs.FileForm.{counts_size, two_bytes, steps_in, step_at, counts_wrong};

use crate::bytes::field;
use crate::counts::Counts;

// Bytes of the four counts, which come first.
pub(crate) const COUNTS_SIZE: usize = 8;

// Bytes of a currency's record.
const CURRENCY_SIZE: usize = 10;

// Bytes of a member's record before its short limits, of which it has one for each currency.
pub(crate) const MEMBER_SIZE: usize = 24;

// Bytes of a short limit.
const LIMIT_SIZE: usize = 4;

// Bytes of an instruction's record.
const INSTRUCTION_SIZE: usize = 16;

// Bytes of a step's record.
const STEP_SIZE: usize = 8;

// The records of a kind: how many there are, where the first begins, and how many bytes each has.
#[derive(Clone, Copy)]
pub(crate) struct Block {
    pub count: usize,
    pub first: usize,
    pub size: usize,
    ghost few: { count < 65536 },
    ghost bounded: { first + size * count < 2 ^ 40 },
}

impl Block {
    // Where the i-th record begins, or, at their count, where the last one ends.
    pub(crate) fn place(self, i: usize) -> usize
        requires { i ≤ self.count }
        ensures { result ≡ self.first + self.size * i }
    {
        self.first + self.size * i
    }

    fn end(self) -> usize
        ensures { result ≡ self.first + self.size * self.count }
    {
        self.place(self.count)
    }
}

// The records of each kind: currencies, members, instructions and steps follow in that order.
#[derive(Clone, Copy)]
pub(crate) struct Layout {
    pub currencies: Block,
    pub members: Block,
    pub instructions: Block,
    pub steps: Block,
}

impl Layout {
    ghost use Rattle.dayfile.specs.Laid.{Lays};

    // What the counts at the head of a file give, whatever follows them.
    pub(crate) fn of(file: &[u8]) -> Layout
        requires { counts_size ≤ length file.now }
        ensures { Lays file.now result }
    {
        let currencies = Block {
            count: count_at(file, 0),
            first: COUNTS_SIZE,
            size: CURRENCY_SIZE,
        };
        let members = Block {
            count: count_at(file, 2),
            first: currencies.end(),
            size: MEMBER_SIZE + LIMIT_SIZE * currencies.count,
        };
        let instructions = Block {
            count: count_at(file, 4),
            first: members.end(),
            size: INSTRUCTION_SIZE,
        };
        let steps = Block {
            count: count_at(file, 6),
            first: instructions.end(),
            size: STEP_SIZE,
        };
        Layout {
            currencies,
            members,
            instructions,
            steps,
        }
    }

    // Whether a count is above its most.
    pub(crate) fn has_too_many(&self) -> bool
        ensures { (f : List ℕ) → Lays f self.now → result ≡ counts_wrong f }
    {
        let counts = Counts {
            currencies: self.currencies.count,
            members: self.members.count,
            instructions: self.instructions.count,
            steps: self.steps.count,
        };
        counts.has_too_many()
    }

    // How long a file with these records is.
    pub(crate) fn end(&self) -> usize
        ensures { (f : List ℕ) → Lays f self.now → result ≡ step_at f (steps_in f) }
    {
        self.steps.end()
    }
}

fn count_at(file: &[u8], at: usize) -> usize
    requires { at + 2 ≤ length file.now }
    ensures count { result ≡ two_bytes file.now at }
    ensures bound { result < 65536 }
{
    usize::from(u16::from_le_bytes(field(file, at)))
}
