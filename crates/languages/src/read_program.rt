// How a program is read from its section.
ghost use Rattle.std.specs.Prelude.{◌≡◌, ℕ, ◌≤◌, []};
ghost use Rattle.languages.specs.Programs.{program_lines, lines_of, program, with_line, Adds};
ghost use Rattle.languages.specs.declared.read_program.ProgramFault.TheVariants.{Line, TooMany};

use crate::program::{MOST_LINES, ProgramLine};
use bounded::fixed::Fixed;
use bounded::{Bounded, Full};
use lines::reader::{LineFault, Reader};
use lines::refusal::LineRefusal;
use lines::scope::Scope;

// Why a program line is refused.
#[derive(Clone, Copy, PartialEq, Eq, Debug)]
pub enum ProgramFault {
    Line(LineFault),
    // there are 64 lines before it
    TooMany,
}

impl From<LineFault> for ProgramFault {
    ghost from_gives = { λ fault r. r ≡ Line fault };

    fn from(fault: LineFault) -> ProgramFault {
        ProgramFault::Line(fault)
    }
}

impl From<Full> for ProgramFault {
    ghost from_gives = { λ _ r. r ≡ TooMany };

    fn from(_full: Full) -> ProgramFault {
        ProgramFault::TooMany
    }
}

#[derive(Clone, Copy)]
pub struct Program<I> {
    lines: Fixed<I, MOST_LINES>,
}

// Reads one line more, if there is room for it.
fn read_line<I: ProgramLine>(
    lines: &mut Bounded<I, MOST_LINES>,
    reader: &mut Reader,
    scope: Scope,
) -> Result<(), ProgramFault>
    ensures { Adds (with_line lines.old (I.ProgramLine.reads scope.locations reader.old.rest.now)) result lines.new reader.new.rest.now }
{
    let line = I::read_line(reader, scope)?;
    lines.push(line)?;
    Ok(())
}

impl<I: ProgramLine> Program<I> {
    pub fn empty() -> Program<I>
        ensures { program_lines result ≡ [] }
    {
        Program {
            lines: Bounded::new(I::filler()).fixed(),
        }
    }

    // The lines of the program.
    pub fn lines(&self) -> &[I]
        ensures { result.now ≡ program_lines self.now }
    {
        self.lines.as_slice()
    }

    // Reads lines to the section's end. A loop of its own beside that over a trace: what grows here is the program.
    pub fn read(section: &[u8], scope: Scope) -> Result<Program<I>, LineRefusal<ProgramFault>>
        ensures { lines_of result ≡ program (I.ProgramLine.reads scope.locations) section.now }
    {
        let mut lines = Bounded::new(I::filler());
        let mut reader = Reader::new(section);
        while reader.left() > 0 {
            let line = lines.len() + 1;
            if let Err(fault) = read_line(&mut lines, &mut reader, scope) {
                return Err(LineRefusal { fault, line });
            }
        }
        Ok(Program {
            lines: lines.fixed(),
        })
    }
}
