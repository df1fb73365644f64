//! The steps of a day file: each is carried out, and a refused one prints its line.
ghost use Rattle.std.specs.Prelude.{◌≡◌, ◌++◌, OnOk};
ghost use Rattle.rules.specs.FileForm.{steps_in};
ghost use Rattle.dayfile.specs.Meaning.{file_of, step_of};
ghost use Rattle.rules.specs.FileDay.{setting_in, carried_out, books_after};
ghost use Rattle.rules.specs.Printed.{refusal_in, step_lines};
ghost use Rattle.runner.specs.Sessions.{setting, books, refused};

use crate::printing::{Printer, print_refused};
use dayfile::StepRecord;
use nostro::{Nostro, SingleBook};
use queue::ByNumber;
use refusal::Refusal;
use session::Session;
use std::alloc::AllocError;
use units::Amount;

// Carries one step out: a pay-out is a reserve whose reservation is paid directly.
fn take_step(session: &mut Session<SingleBook, ByNumber>, step: StepRecord) -> Result<(), Refusal>
    ensures setting { setting session.new ≡ setting session.old }
    ensures books { books session.new ≡ (carried_out (setting session.old) (books session.old) (step_of step)).books }
    ensures refusal { refused result ≡ refusal_in (carried_out (setting session.old) (books session.old) (step_of step)).answer }
{
    match step {
        StepRecord::PayIn {
            member,
            currency,
            amount,
        } => session.pay_in(member, currency, Amount::from(amount)),
        StepRecord::Clock { hour } => session.clock(hour),
        StepRecord::Settle => {
            session.settle();
            Ok(())
        }
        StepRecord::PayOut {
            member,
            currency,
            amount,
        } => {
            let reservation = session.reserve(member, currency, Amount::from(amount))?;
            session.pay(reservation)
        }
    }
}

impl Printer<'_> {
    /// Takes all steps of the file, in order, and prints the lines of those refused.
    pub(crate) fn take_steps(
        &mut self,
        session: &mut Session<SingleBook, ByNumber>,
    ) -> Result<(), AllocError>
        requires setting { setting session.old ≡ setting_in (file_of self.old.day) }
        requires opened { books session.old ≡ books_after (file_of self.old.day) 0 }
        ensures day { self.new.day ≡ self.old.day }
        ensures setting { setting session.new ≡ setting_in (file_of self.old.day) }
        ensures books { OnOk result (books session.new ≡ books_after (file_of self.old.day) (steps_in (file_of self.old.day))) }
        ensures text { OnOk result (self.new.text.items ≡ self.old.text.items ++ step_lines (file_of self.old.day) (steps_in (file_of self.old.day))) }
    {
        let day = self.day;
        // By number, which is the place that a refusal's line names.
        for k in 0..day.steps() {
            let answer = take_step(session, day.step(k).unwrap());
            print_refused(&mut self.text, answer, k)?;
        }
        Ok(())
    }
}
