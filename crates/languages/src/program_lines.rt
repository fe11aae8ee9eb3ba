// Register lines and strip lines are lines of programs.
ghost use Rattle.lines.specs.Families.{reads as family_reads};
ghost use Rattle.languages.specs.RegisterLines.{register_filling, register_lines};
ghost use Rattle.languages.specs.StripLines.{strip_filling, strip_lines};
ghost use Rattle.lines.proofs.Familiar.{reads_shorter};
ghost use Rattle.languages.specs.RegisterCodec.{register_codec};
ghost use Rattle.languages.specs.StripCodec.{strip_codec};

use crate::program::ProgramLine;
use crate::registers::RegisterLine;
use crate::strips::StripLine;
use lines::family::Spelled;
use lines::reader::{LineFault, Reader};
use lines::scope::Scope;

// An impl each, since one for all `Spelled` lines would leave no other crate an impl of its own.
impl ProgramLine for RegisterLine {
    ghost filling = { register_filling };

    ghost reads = { λ l bs. family_reads (register_lines l) bs };

    ghost shortens = { λ l h bs line rest e. reads_shorter (register_lines l) (register_codec l h) bs line rest e };

    fn read_line(reader: &mut Reader, scope: Scope) -> Result<RegisterLine, LineFault> {
        RegisterLine::read(reader, scope)
    }

    fn filler() -> RegisterLine {
        RegisterLine::Print { register: 0 }
    }
}

impl ProgramLine for StripLine {
    ghost filling = { strip_filling };

    ghost reads = { λ l bs. family_reads (strip_lines l) bs };

    ghost shortens = { λ l h bs line rest e. reads_shorter (strip_lines l) (strip_codec l h) bs line rest e };

    fn read_line(reader: &mut Reader, scope: Scope) -> Result<StripLine, LineFault> {
        StripLine::read(reader, scope)
    }

    fn filler() -> StripLine {
        StripLine::Print { value: 0 }
    }
}
