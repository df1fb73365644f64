use crate::day::{RepeatedDay, SmallDay};
use crate::due::DUE;
use crate::form::FORM;
use crate::full::FULL;
use crate::instructions::INSTRUCTIONS;
use crate::limits::LIMITS;
use crate::records::{ALFA, BETA, EUR, USD};
use crate::repeated::REPEATED;
use crate::roster::ROSTER;
use crate::settling::SETTLING;
use crate::sheets::SHEET;
use crate::steps::STEPS;
use crate::texts::{ALFA_QUIET, BETA_QUIET};
use runner::run;
use std::alloc::{AllocError, Global};
use std::process::Abort;
use std::test::Fail;

/// Adds the parts to the end, one after the other.
fn append(all: &mut Vec<u8>, parts: &[&[u8]]) -> Result<(), AllocError> {
    for part in parts {
        all.extend_from_slice(part)?;
    }
    Ok(())
}

/// Runs a file and compares what is printed, byte for byte.
fn hold(
    rt: &impl Abort,
    heap: Global,
    file: &[u8],
    printed: &[&[u8]],
    title: &str,
) -> Result<(), Fail> {
    let text = run(heap, file)?;
    let mut expected = Vec::new(heap);
    append(&mut expected, printed)?;
    assert!(rt; text.as_slice() == expected.as_slice(), "{}", title);
    Ok(())
}

fn hold_days(rt: &impl Abort, heap: Global, days: &[SmallDay]) -> Result<(), Fail> {
    for day in days {
        let mut file = Vec::new(heap);
        append(&mut file, day.records)?;
        hold(rt, heap, file.as_slice(), day.printed, day.title)?;
    }
    Ok(())
}

/// The file of a day whose repeated part stands as often as it says.
fn unrolled(heap: Global, day: &RepeatedDay) -> Result<Vec<u8>, AllocError> {
    let mut file = Vec::new(heap);
    append(&mut file, day.before)?;
    for _ in 0..day.times {
        append(&mut file, day.repeated)?;
    }
    append(&mut file, day.after)?;
    Ok(file)
}

// Beside `hold_days`: a trait of the two kinds of day would be longer than the line in which the loops differ.
fn hold_repeated(rt: &impl Abort, heap: Global, days: &[RepeatedDay]) -> Result<(), Fail> {
    for day in days {
        let file = unrolled(heap, day)?;
        hold(rt, heap, file.as_slice(), day.printed, day.title)?;
    }
    Ok(())
}

/// As many instructions as there can be: ALFA buys 100 EUR from BETA for 110 USD, under references from 1 on.
fn full_intake(heap: Global) -> Result<Vec<u8>, AllocError> {
    let mut file = Vec::new(heap);
    append(
        &mut file,
        &[b"\x02\x00\x02\x00\x00\x04\x00\x00", USD, EUR, ALFA, BETA],
    )?;
    for reference in 1..=1_024u32 {
        file.extend_from_slice(b"\x00\x01\x01\x00\x64\x00\x00\x00\x6e\x00\x00\x00")?;
        file.extend_from_slice(&reference.to_le_bytes())?;
    }
    Ok(file)
}

#[test]
fn form(rt: HostRuntime) -> Result<(), Fail> {
    hold_days(&rt, rt.alloc(), FORM)
}

#[test]
fn sheet(rt: HostRuntime) -> Result<(), Fail> {
    hold_days(&rt, rt.alloc(), SHEET)
}

#[test]
fn roster(rt: HostRuntime) -> Result<(), Fail> {
    hold_days(&rt, rt.alloc(), ROSTER)
}

#[test]
fn instructions(rt: HostRuntime) -> Result<(), Fail> {
    hold_days(&rt, rt.alloc(), INSTRUCTIONS)
}

#[test]
fn steps(rt: HostRuntime) -> Result<(), Fail> {
    hold_days(&rt, rt.alloc(), STEPS)
}

#[test]
fn settling(rt: HostRuntime) -> Result<(), Fail> {
    hold_days(&rt, rt.alloc(), SETTLING)
}

#[test]
fn limits(rt: HostRuntime) -> Result<(), Fail> {
    hold_days(&rt, rt.alloc(), LIMITS)
}

#[test]
fn due(rt: HostRuntime) -> Result<(), Fail> {
    hold_days(&rt, rt.alloc(), DUE)
}

#[test]
fn full(rt: HostRuntime) -> Result<(), Fail> {
    hold_days(&rt, rt.alloc(), FULL)
}

#[test]
fn repeated(rt: HostRuntime) -> Result<(), Fail> {
    hold_repeated(&rt, rt.alloc(), REPEATED)
}

#[test]
fn instructions_at_their_most(rt: HostRuntime) -> Result<(), Fail> {
    let heap = rt.alloc();
    let file = full_intake(heap)?;
    hold(
        &rt,
        heap,
        file.as_slice(),
        &[ALFA_QUIET, BETA_QUIET],
        "1,024 instructions",
    )
}
