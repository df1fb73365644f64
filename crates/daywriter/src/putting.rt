//! Records and numbers, put after the bytes that are written already.
ghost use Rattle.std.specs.Prelude.{◌≡◌, ℕ, ◌^◌, ◌<◌, List, ◌++◌, OnOk};
ghost use Rattle.std.specs.List.{flat_map, AllByRecursion};
ghost use Rattle.dayfile.specs.Meaning.{currency_of, instruction_of, step_of};
ghost use Rattle.rules.specs.FileWriting.{number_bytes, name_bytes, currency_bytes, member_bytes, instruction_bytes, step_bytes};
ghost use Rattle.rules.specs.FileAgain.{CurrencyFits, MemberFits, InstructionFits, StepFits};
ghost use Rattle.daywriter.specs.Meaning.{member_of};
ghost use Rattle.daywriter.specs.Fields.{fields_bytes, FieldsFit, fields_of};

use crate::fields::StepFields;
use crate::records::NewMember;
use dayfile::{CurrencyRecord, InstructionRecord, StepRecord};
use rules::LONGEST_NAME;
use std::alloc::AllocError;

const SPACES: [u8; LONGEST_NAME] = [b' '; LONGEST_NAME];

// A record or a number of a file: its bytes, and that its numbers fit them.
pub(crate) trait Put {
    ghost bytes: { Self → List ℕ };

    ghost fits: { Self → Type 0 };

    // Puts its bytes after those that are there.
    fn put(&self, out: &mut Vec<u8>) -> Result<(), AllocError>
        ensures { OnOk result ((out.new.items ≡ out.old.items ++ bytes self.now) × fits self.now) };
}

// Puts all records of a kind, in their order.
pub(crate) fn put_all<T: Put>(out: &mut Vec<u8>, records: &[T]) -> Result<(), AllocError>
    ensures { OnOk result ((out.new.items ≡ out.old.items ++ flat_map T.Put.bytes records.now) × AllByRecursion T.Put.fits records.now) }
{
    for x in records {
        x.put(out)?;
    }
    Ok(())
}

// Puts a name, and spaces up to 16 bytes.
fn put_name(out: &mut Vec<u8>, name: &[u8]) -> Result<(), AllocError>
    ensures { OnOk result (out.new.items ≡ out.old.items ++ name_bytes name.now) }
{
    out.extend_from_slice(name)?;
    out.extend_from_slice(&SPACES[name.len().min(LONGEST_NAME)..])
}

// One impl for each width: no trait of std has `to_le_bytes`, and a macro writes no ghost item.
impl Put for u8 {
    ghost bytes = { λ n. number_bytes 1 n };

    ghost fits = { λ n. n < 2 ^ 8 };

    fn put(&self, out: &mut Vec<u8>) -> Result<(), AllocError> {
        out.extend_from_slice(&u8::to_le_bytes(*self))
    }
}

impl Put for u16 {
    ghost bytes = { λ n. number_bytes 2 n };

    ghost fits = { λ n. n < 2 ^ 16 };

    fn put(&self, out: &mut Vec<u8>) -> Result<(), AllocError> {
        out.extend_from_slice(&u16::to_le_bytes(*self))
    }
}

impl Put for u32 {
    ghost bytes = { λ n. number_bytes 4 n };

    ghost fits = { λ n. n < 2 ^ 32 };

    fn put(&self, out: &mut Vec<u8>) -> Result<(), AllocError> {
        out.extend_from_slice(&u32::to_le_bytes(*self))
    }
}

impl Put for u64 {
    ghost bytes = { λ n. number_bytes 8 n };

    ghost fits = { λ n. n < 2 ^ 64 };

    fn put(&self, out: &mut Vec<u8>) -> Result<(), AllocError> {
        out.extend_from_slice(&u64::to_le_bytes(*self))
    }
}

impl Put for CurrencyRecord<'_> {
    ghost bytes = { λ c. currency_bytes (currency_of c) };

    ghost fits = { λ c. CurrencyFits (currency_of c) };

    fn put(&self, out: &mut Vec<u8>) -> Result<(), AllocError> {
        out.extend_from_slice(self.code)?;
        self.instalments.put(out)?;
        self.rate.put(out)?;
        self.haircut.put(out)
    }
}

impl Put for NewMember<'_> {
    ghost bytes = { λ m. member_bytes (member_of m) };

    ghost fits = { λ m. MemberFits (member_of m) };

    fn put(&self, out: &mut Vec<u8>) -> Result<(), AllocError> {
        put_name(out, self.name)?;
        self.aggregate.put(out)?;
        put_all(out, self.shorts)
    }
}

impl Put for InstructionRecord {
    ghost bytes = { λ i. instruction_bytes (instruction_of i) };

    ghost fits = { λ i. InstructionFits (instruction_of i) };

    fn put(&self, out: &mut Vec<u8>) -> Result<(), AllocError> {
        put_all(
            out,
            &[self.submitter, self.counterparty, self.buys, self.sells],
        )?;
        put_all(out, &[self.bought, self.sold, self.reference])
    }
}

impl Put for StepFields {
    ghost bytes = { fields_bytes };

    ghost fits = { FieldsFit };

    fn put(&self, out: &mut Vec<u8>) -> Result<(), AllocError> {
        put_all(
            out,
            &[self.kind as u8, self.member, self.currency, self.hour],
        )?;
        self.amount.put(out)
    }
}

impl Put for StepRecord {
    ghost bytes = { λ s. step_bytes (step_of s) };

    ghost fits = { λ s. StepFits (step_of s) };

    fn put(&self, out: &mut Vec<u8>) -> Result<(), AllocError> {
        StepFields::from(*self).put(out)
    }
}
