// The bytes of a job's sections, and the programs, one in each section but the last.
ghost use Rattle.std.specs.Prelude.{◌≡◌, ℕ, ◌≤◌, [], length, take, slice_index_or};
ghost use Rattle.bounded.specs.Fixed.{elements};
ghost use Rattle.jobs.specs.Programs.{cut, nowhere, programs_after, programs_of};

use crate::fault::{FileFault, Refusal};
use crate::head::Head;
use crate::section::Section;
use languages::program::ProgramLine;
use languages::read_program::Program;
use std::array;

impl Section {
    // The bytes of the section.
    pub fn cut<'a>(self, file: &'a [u8]) -> &'a [u8]
        ensures { result.now ≡ cut file.now self }
    {
        let start = self.offset.min(file.len());
        let rest = &file[start..];
        &rest[..self.length.min(rest.len())]
    }
}

impl Head {
    // Reads the program of each thread; the places past the last thread are empty programs.
    // An array of four, since a run takes the states of four threads.
    pub fn programs<I: ProgramLine>(
        &self,
        file: &[u8],
    ) -> Result<[Program<I>; 4], Refusal<FileFault>>
        ensures { programs_of self.now.job.scope.threads result ≡ programs_after (I.ProgramLine.reads self.now.job.scope.locations) file.now 1 [] (take self.now.job.scope.threads (elements self.now.sections)) }
    {
        let scope = self.job.scope;
        let threads = scope.threads() as usize;
        let sections = self.sections.as_slice();
        let mut programs = array::from_fn(|_| Program::<I>::empty());
        for (i, section) in sections[..threads].iter().enumerate() {
            match Program::<I>::read(section.cut(file), scope) {
                Ok(program) => programs[i] = program,
                Err(refusal) => return Err(Refusal::in_section(refusal, (i + 1) as u8)),
            }
        }
        Ok(programs)
    }

    // The bytes of the trace: its section follows those of the programs.
    pub fn trace<'a>(&self, file: &'a [u8]) -> &'a [u8]
        ensures { result.now ≡ cut file.now (slice_index_or (elements self.now.sections) self.now.job.scope.threads nowhere) }
    {
        let sections = self.sections.as_slice();
        sections[self.job.scope.threads() as usize].cut(file)
    }
}
