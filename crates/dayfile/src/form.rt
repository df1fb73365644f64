//! What is wrong with the form of a file, if anything is.
ghost use Rattle.std.specs.Prelude.{◌≡◌, ◌<◌, ◌≤◌, length, IfSome, option_map};
ghost use Rattle.rules.specs.FileForm.{instructions_in, steps_in, instruction_at, step_at, kind_cause};
ghost use Rattle.rules.specs.First.{first_of};
ghost use Rattle.rules.specs.Below.{listed};
ghost use Rattle.dayfile.specs.Answer.{Read};
ghost use Rattle.dayfile.specs.Laid.{IsBlock};
ghost use Rattle.dayfile.specs.declared.layout.TheConstants.{STEP_SIZE};

use crate::dayfile::DayFile;
use crate::kind::StepKind;
use crate::layout::{Block, COUNTS_SIZE, Layout};
use refusal::{Cause, Layer, Refusal, refuse_if};
use rules::LONGEST_FILE;

impl<'a> DayFile<'a> {
    /// The file, if it has the right form; else the first thing that is wrong with it.
    #[tactic(auto, using(std::proofs::lemmas::Bool::Decides::nat_tests), unfolding(rules::specs::FileForm::form_refusal))]
    pub fn read(file: &'a [u8]) -> Result<DayFile<'a>, Refusal>
        ensures { Read file.now result }
    {
        let refusal = |cause| Refusal::by(Layer::File, cause);
        refuse_if(
            file.len() < COUNTS_SIZE || file.len() > LONGEST_FILE,
            refusal(Cause::FileLength),
        )?;
        let layout = Layout::of(file);
        refuse_if(layout.has_too_many(), refusal(Cause::Counts))?;
        refuse_if(file.len() != layout.end(), refusal(Cause::FileForm))?;
        if let Some(k) = first_unknown(file, layout.steps) {
            return Err(refusal(Cause::StepKind).at(layout.steps.place(k)));
        }
        Ok(DayFile { bytes: file })
    }
}

// The number of the first step of no known kind.
fn first_unknown(file: &[u8], steps: Block) -> Option<usize>
    requires block { IsBlock steps (steps_in file.now) (instruction_at file.now (instructions_in file.now)) STEP_SIZE }
    requires ends { step_at file.now (steps_in file.now) ≤ length file.now }
    ensures first { first_of (listed (steps_in file.now) (kind_cause file.now)) ≡ option_map (λ k. (kind_cause file.now k).name) result }
    ensures bound { IfSome result (λ k. k < steps.count) }
{
    (0..steps.count).find(|k| StepKind::try_from(file[steps.place(*k)]).is_err())
}
