ghost use Rattle.std.specs.Prelude.{◌≡◌, ℕ, ◌+◌, map};
ghost use Rattle.rules.specs.MatchingLaws.{Empty, Laws, after_all};
ghost use Rattle.intake.specs.Rosters.{terms_of};
ghost use Rattle.intake.specs.Books.{instruction_of, book_of, roster_under, kept_for_queue, kept_for_rows};

use crate::instruction::Instruction;
use crate::intake::Intake;

impl Intake {
    /// How many of these instructions are kept: each is submitted, in their order, and a refused one changes nothing.
    ///
    /// From an empty intake on, two kept instructions are a pair if they are mirrors, and only if.
    pub fn submit_all(&mut self, instructions: &[Instruction]) -> usize
        ensures book { book_of self.new ≡ after_all (terms_of (roster_under self.old)) (book_of self.old) (map instruction_of instructions.now) }
        ensures count { (book_of self.new).kept ≡ (book_of self.old).kept + result }
        ensures roster { roster_under self.new ≡ roster_under self.old }
        ensures queue { kept_for_queue self.new ≡ kept_for_queue self.old }
        ensures rows { kept_for_rows self.new ≡ kept_for_rows self.old }
        ensures matched { Empty (book_of self.old) → Laws (terms_of (roster_under self.new)) (book_of self.new) }
        ensures lawful { Laws (terms_of (roster_under self.old)) (book_of self.old) → Laws (terms_of (roster_under self.new)) (book_of self.new) }
    {
        // Not by `filter` and `count`: of a closure that submits, a proof knows nothing of the book that it leaves.
        // A refusal changes nothing, so what is kept tells how many were taken.
        let before = self.kept.len();
        for i in instructions {
            let _ = self.submit(*i);
        }
        self.kept.len() - before
    }
}
