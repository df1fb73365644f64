//! What is printed: the lines of refusals, and the statements.
ghost use Rattle.std.specs.Prelude.{◌≡◌, ◌<◌, ◌≤◌, [], ◌++◌, OnOk};
ghost use Rattle.rules.specs.FileForm.{members_in};
ghost use Rattle.rules.specs.Wording.{refusal_line};
ghost use Rattle.refusal.specs.Meaning.{refusal_of};
ghost use Rattle.dayfile.specs.Meaning.{file_of};
ghost use Rattle.rules.specs.Statements.{statement_of};
ghost use Rattle.rules.specs.Printed.{line_at, statements};
ghost use Rattle.runner.specs.Sessions.{closed_setting, closed_books, refused};

use dayfile::DayFile;
use nostro::SingleBook;
use queue::ByNumber;
use refusal::Refusal;
use session::ClosedDay;
use statement::{LONGEST_LINE, LONGEST_STATEMENT, write_refusal};
use std::alloc::{AllocError, Global};

/// The text of a day, as far as it is printed, and the file that the day is of.
#[derive(Drop)]
pub(crate) struct Printer<'a> {
    pub day: DayFile<'a>,
    pub text: Vec<u8>,
}

impl<'a> Printer<'a> {
    pub(crate) fn new(heap: Global, day: DayFile<'a>) -> Printer<'a>
        ensures day { result.day ≡ day.entry }
        ensures text { result.text.items ≡ [] }
    {
        Printer {
            day,
            text: Vec::new(heap),
        }
    }

    /// Prints the statements of all members of the file, by number.
    pub(crate) fn print_statements(
        &mut self,
        day: &ClosedDay<SingleBook, ByNumber>,
    ) -> Result<(), AllocError>
        requires { (closed_setting day.now).roster.members ≡ members_in (file_of self.old.day) }
        ensures { OnOk result (self.new.text.items ≡ self.old.text.items ++ statements (closed_setting day.now) (closed_books day.now) (members_in (file_of self.old.day))) }
    {
        // By number, by which a closed day is asked for a statement.
        for m in 0..self.day.members() as u8 {
            print_statement(&mut self.text, day, m)?;
        }
        Ok(())
    }
}

/// Adds the line of a refusal to the text.
pub(crate) fn print_refusal(text: &mut Vec<u8>, e: &Refusal) -> Result<(), AllocError>
    ensures { OnOk result (text.new.items ≡ text.old.items ++ refusal_line (refusal_of e.now)) }
{
    // The text comes into a buffer that is lent, since what writes it allocates nothing.
    let mut line = [0; LONGEST_LINE];
    let n = write_refusal(e, &mut line).unwrap();
    text.extend_from_slice(&line[..n])
}

/// Adds the line of a call that is refused, which names a place in the file.
pub(crate) fn print_refused(
    text: &mut Vec<u8>,
    answer: Result<(), Refusal>,
    place: usize,
) -> Result<(), AllocError>
    ensures { OnOk result (text.new.items ≡ text.old.items ++ line_at place (refused answer)) }
{
    if let Err(e) = answer {
        print_refusal(text, &e.at(place))?;
    }
    Ok(())
}

// Adds the statement of a member.
fn print_statement(
    text: &mut Vec<u8>,
    day: &ClosedDay<SingleBook, ByNumber>,
    member: u8,
) -> Result<(), AllocError>
    requires { member < (closed_setting day.now).roster.members }
    ensures { OnOk result (text.new.items ≡ text.old.items ++ statement_of (closed_setting day.now) (closed_books day.now) member) }
{
    let mut statement = [0; LONGEST_STATEMENT];
    let n = day.statement(member, &mut statement).unwrap();
    text.extend_from_slice(&statement[..n])
}
