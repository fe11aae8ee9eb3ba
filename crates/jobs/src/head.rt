// The head of a job file: its first line, and a line for each section.
ghost use Rattle.std.specs.Prelude.{◌≡◌, ◌+◌, length};
ghost use Rattle.bounded.specs.Fixed.{elements};

use crate::job::JobLine;
use crate::section::Section;
use bounded::fixed::Fixed;

pub const MOST_FILE: usize = 65535;

// There is a section for each thread, and one for the trace.
#[derive(Clone, Copy)]
pub struct Head {
    pub job: JobLine,
    pub sections: Fixed<Section, 5>,
    ghost whole: { length (elements sections) ≡ job.scope.threads + 1 },
}
