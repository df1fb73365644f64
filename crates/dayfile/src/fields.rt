//! How each record is read from its bytes.
ghost use Rattle.std.specs.Prelude.{◌≡◌, ℕ, ◌+◌, ◌*◌, ◌≤◌, List, length, true};
ghost use Rattle.rules.specs.FileForm.{byte, known_kind};
ghost use Rattle.rules.specs.FileRecords.{trimmed, currency_from, member_from, instruction_from, step_from};
ghost use Rattle.dayfile.specs.Meaning.{currency_of, member_of, shorts_of, instruction_of, step_of};
ghost use Rattle.dayfile.specs.Answer.{In};
ghost use Rattle.dayfile.specs.declared.layout.TheConstants.{CURRENCY_SIZE, MEMBER_SIZE, LIMIT_SIZE, INSTRUCTION_SIZE, STEP_SIZE};

use crate::bytes::field;
use crate::kind::StepKind;
use crate::layout::MEMBER_SIZE;
use crate::records::{CurrencyRecord, InstructionRecord, MemberRecord, StepRecord};
use rules::{CODE_SIZE, LONGEST_NAME};

// A record that stands in a file.
pub(crate) trait Stored<'a>: Sized {
    // Which bytes are a record of the kind, and what record they are.
    ghost stands: { List ℕ → Type 0 };

    ghost says: { List ℕ → Self → Type 0 };

    // The record of these bytes, which it may borrow.
    fn read(bytes: &'a [u8]) -> Self
        requires { stands bytes.now }
        ensures { says bytes.now result };
}

impl<'a> Stored<'a> for CurrencyRecord<'a> {
    ghost stands = { λ b. length b ≡ CURRENCY_SIZE };

    ghost says = { λ b c. currency_of c ≡ currency_from b 0 };

    fn read(bytes: &'a [u8]) -> CurrencyRecord<'a> {
        CurrencyRecord {
            code: &bytes[..CODE_SIZE],
            instalments: bytes[3],
            rate: u32::from_le_bytes(field(bytes, 4)),
            haircut: u16::from_le_bytes(field(bytes, 8)),
        }
    }
}

impl<'a> Stored<'a> for MemberRecord<'a> {
    ghost stands = { λ b. MEMBER_SIZE ≤ length b };

    ghost says = { λ b m. (n : ℕ) → length b ≡ MEMBER_SIZE + LIMIT_SIZE * n → member_of m ≡ member_from b n 0 };

    fn read(bytes: &'a [u8]) -> MemberRecord<'a> {
        MemberRecord {
            name: without_spaces(&bytes[..LONGEST_NAME]),
            aggregate: u64::from_le_bytes(field(bytes, LONGEST_NAME)),
            shorts: &bytes[MEMBER_SIZE..],
        }
    }
}

// What is left of a name's field when the spaces that fill it up are taken off.
fn without_spaces(field: &[u8]) -> &[u8]
    ensures { result.now ≡ trimmed field.now }
{
    field
        .iter()
        .rposition(|b| *b != b' ')
        .map_or(&[], |last| &field[..=last])
}

impl MemberRecord<'_> {
    /// The member's short limit in a currency, in units; none where the file has no such currency.
    pub fn short_limit(self, c: usize) -> Option<u32>
        ensures { In (shorts_of self.entry) c result }
    {
        let (limits, _) = self.shorts.as_chunks::<4>();
        let limit = limits.get(c)?;
        Some(u32::from_le_bytes(*limit))
    }
}

impl<'a> Stored<'a> for InstructionRecord {
    ghost stands = { λ b. length b ≡ INSTRUCTION_SIZE };

    ghost says = { λ b i. instruction_of i ≡ instruction_from b 0 };

    fn read(bytes: &'a [u8]) -> InstructionRecord {
        let [submitter, counterparty, buys, sells] = field::<4>(bytes, 0);
        InstructionRecord {
            submitter,
            counterparty,
            buys,
            bought: u32::from_le_bytes(field(bytes, 4)),
            sells,
            sold: u32::from_le_bytes(field(bytes, 8)),
            reference: u32::from_le_bytes(field(bytes, 12)),
        }
    }
}

impl<'a> Stored<'a> for StepRecord {
    ghost stands = { λ b. (length b ≡ STEP_SIZE) × (known_kind (byte b 0) ≡ true) };

    ghost says = { λ b s. step_of s ≡ step_from b 0 };

    // The fields that the step's kind does not read are passed over.
    fn read(bytes: &'a [u8]) -> StepRecord {
        let [kind, member, currency, hour] = field::<4>(bytes, 0);
        let amount = u32::from_le_bytes(field(bytes, 4));
        match StepKind::try_from(kind).unwrap() {
            StepKind::PayIn => StepRecord::PayIn {
                member,
                currency,
                amount,
            },
            StepKind::Clock => StepRecord::Clock { hour },
            StepKind::Settle => StepRecord::Settle,
            StepKind::PayOut => StepRecord::PayOut {
                member,
                currency,
                amount,
            },
        }
    }
}
