//! Writes the worked day, from its records, to standard output.
#![tactic(auto)]

use anyhow::anyhow;
use dayfile::{CurrencyRecord, InstructionRecord, StepRecord};
use daywriter::{DayRecords, NewMember};
use std::io::Write;

const CURRENCIES: [CurrencyRecord<'static>; 2] = [
    CurrencyRecord {
        code: b"USD",
        rate: 10_000,
        haircut: 20,
        instalments: 5,
    },
    CurrencyRecord {
        code: b"EUR",
        rate: 11_000,
        haircut: 100,
        instalments: 3,
    },
];

const MEMBERS: [NewMember<'static>; 2] = [
    NewMember {
        name: b"ALFA",
        aggregate: 20_000_000,
        shorts: &[1_000, 1_000],
    },
    NewMember {
        name: b"BETA",
        aggregate: 20_000_000,
        shorts: &[1_000, 1_000],
    },
];

const INSTRUCTIONS: [InstructionRecord; 2] = [
    InstructionRecord {
        submitter: 0,
        counterparty: 1,
        buys: 1,
        bought: 100,
        sells: 0,
        sold: 110,
        reference: 7,
    },
    InstructionRecord {
        submitter: 1,
        counterparty: 0,
        buys: 0,
        bought: 110,
        sells: 1,
        sold: 100,
        reference: 7,
    },
];

const STEPS: [StepRecord; 6] = [
    StepRecord::PayIn {
        member: 0,
        currency: 0,
        amount: 13,
    },
    StepRecord::PayIn {
        member: 1,
        currency: 1,
        amount: 100,
    },
    StepRecord::Settle,
    StepRecord::Clock { hour: 1 },
    StepRecord::PayOut {
        member: 1,
        currency: 0,
        amount: 14,
    },
    StepRecord::PayOut {
        member: 1,
        currency: 0,
        amount: 13,
    },
];

fn main(rt: HostRuntime) -> anyhow::Result<()> {
    let day = DayRecords {
        currencies: &CURRENCIES,
        members: &MEMBERS,
        instructions: &INSTRUCTIONS,
        steps: &STEPS,
    };
    // The records stand above and are the worked day's, so that why they are refused is of no use here.
    let file = day
        .write(rt.alloc())
        .map_err(|_| anyhow!("the day was not written"))?;
    rt.stdout().write_all(file.as_slice())?;
    Ok(())
}
