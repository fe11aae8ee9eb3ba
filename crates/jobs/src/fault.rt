// Why a file is refused, and where.
ghost use Rattle.std.specs.Prelude.{◌≡◌, ℕ};
ghost use Rattle.lines.specs.declared.layer.Layer.{Layer};
ghost use Rattle.jobs.specs.declared.fault.FileFault.TheVariants.{Line as LineOf};
ghost use Rattle.jobs.specs.Faults.{fault_number, fault_layer, program_fault};

use languages::read_program::ProgramFault;
use lines::layer::Layer;
use lines::reader::LineFault;
use lines::refusal::LineRefusal;

// A fault, which a report gives by its number and its layer.
pub trait Numbered: Copy {
    ghost numbered: { Self → ℕ };

    ghost layered: { Self → Layer };

    fn number(self) -> u8
        ensures { result ≡ numbered self };

    fn layer(self) -> Layer
        ensures { result ≡ layered self };
}

// What is wrong with the form of a file.
#[derive(Clone, Copy, PartialEq, Eq, Debug)]
pub enum FileFault {
    // the file is over 65,535 bytes
    FileSize,
    // a line is not of its form, or a field is out of range
    Line(LineFault),
    // the sections do not tile the rest of the file
    Sections,
    // program line 65
    TooManyLines,
}

impl Numbered for FileFault {
    ghost numbered = { fault_number };

    ghost layered = { fault_layer };

    fn number(self) -> u8 {
        match self {
            FileFault::FileSize => 2,
            FileFault::Line(LineFault::Form) => 3,
            FileFault::Line(LineFault::Range) => 4,
            FileFault::Sections => 5,
            FileFault::TooManyLines => 6,
        }
    }

    fn layer(self) -> Layer {
        match self {
            FileFault::Line(_) => Layer::Line,
            FileFault::FileSize | FileFault::Sections | FileFault::TooManyLines => Layer::File,
        }
    }
}

impl From<LineFault> for FileFault {
    ghost from_gives = { λ f e. e ≡ LineOf f };

    fn from(fault: LineFault) -> FileFault {
        FileFault::Line(fault)
    }
}

impl From<ProgramFault> for FileFault {
    ghost from_gives = { λ f e. e ≡ program_fault f };

    fn from(fault: ProgramFault) -> FileFault {
        match fault {
            ProgramFault::Line(fault) => FileFault::Line(fault),
            ProgramFault::TooMany => FileFault::TooManyLines,
        }
    }
}

// A fault with its section, 0 for the head, and its line in the section, from 1; a file that is too long has line 0.
// Numbers, as a report prints them.
#[derive(Clone, Copy, PartialEq, Eq, Debug)]
pub struct Refusal<F> {
    pub fault: F,
    pub section: u8,
    pub line: usize,
}

impl<F> Refusal<F> {
    // The refusal of a line of a section.
    pub fn in_section<E>(refusal: LineRefusal<E>, section: u8) -> Refusal<F>
    where
        F: From<E>,
        ensures fault { F.from_gives refusal.fault result.fault }
        ensures section { result.section ≡ section }
        ensures line { result.line ≡ refusal.line }
    {
        Refusal {
            fault: refusal.fault.into(),
            section,
            line: refusal.line,
        }
    }

    // The same refusal, where there are more kinds of faults. No `From`, since std has one of each type into itself.
    pub fn widen<G: From<F>>(self) -> Refusal<G>
        ensures fault { G.from_gives self.fault result.fault }
        ensures section { result.section ≡ self.section }
        ensures line { result.line ≡ self.line }
    {
        Refusal {
            fault: self.fault.into(),
            section: self.section,
            line: self.line,
        }
    }
}
