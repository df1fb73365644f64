//! The bytes of a day file, from its records.
ghost use Rattle.std.specs.Prelude.{◌≡◌, ◌++◌, false, OnOk};
ghost use Rattle.std.specs.List.{flat_map};
ghost use Rattle.rules.specs.FileWriting.{number_bytes, has_too_many, count_bytes, day_bytes};
ghost use Rattle.rules.specs.FileAgain.{Fits};
ghost use Rattle.daywriter.specs.Meaning.{day_of, Wrote};

use crate::putting::put_all;
use crate::records::{DayRecords, Unwritten};
use std::alloc::{AllocError, Global};

impl DayRecords<'_> {
    /// The day file that has these records, and reads back as them. Nothing is written where no file has such records.
    pub fn write(self, heap: Global) -> Result<Vec<u8>, Unwritten>
        ensures { Wrote (day_of self.entry) result }
    {
        if let Some(fault) = self.fault() {
            return Err(fault.into());
        }
        let mut out = Vec::new(heap);
        self.put_records(&mut out)?;
        Ok(out)
    }

    // Puts the counts, and after them all records. Each kind has a type of its own, so no one list holds them all.
    fn put_records(self, out: &mut Vec<u8>) -> Result<(), AllocError>
        requires { has_too_many (day_of self) ≡ false }
        ensures { OnOk result ((out.new.items ≡ out.old.items ++ day_bytes (day_of self.entry)) × Fits (day_of self.entry)) }
    {
        put_all(out, &self.counts())?;
        put_all(out, self.currencies)?;
        put_all(out, self.members)?;
        put_all(out, self.instructions)?;
        put_all(out, self.steps)
    }

    // How many records of each kind there are. Each is at most its most, and so fits two bytes.
    fn counts(self) -> [u16; 4]
        requires { has_too_many (day_of self) ≡ false }
        ensures { flat_map (number_bytes 2) result ≡ count_bytes (day_of self.entry) }
    {
        [
            self.currencies.len() as u16,
            self.members.len() as u16,
            self.instructions.len() as u16,
            self.steps.len() as u16,
        ]
    }
}
