// A program: at most 64 lines.
ghost use Rattle.std.specs.Prelude.{◌≡◌, ℕ, ◌<◌, ◌≤◌, List, [], length, Ok, Result};
ghost use Rattle.lines.specs.declared.reader.LineFault.{LineFault};
ghost use Rattle.lines.specs.Reading.{read, unread};

use lines::reader::{LineFault, Reader};
use lines::scope::Scope;

pub const MOST_LINES: usize = 64;

// A line of a program, in one of the languages.
pub trait ProgramLine: Copy {
    // The line in front, in a job of so many locations, and what follows it.
    ghost reads: { ℕ → List ℕ → Result (Self × List ℕ) LineFault };

    // Reads the line in front. A line that is refused is not passed.
    fn read_line(reader: &mut Reader, scope: Scope) -> Result<Self, LineFault>
        ensures value { result ≡ read (reads scope.locations reader.old.rest.now) }
        ensures left { reader.new.rest.now ≡ unread (reads scope.locations reader.old.rest.now) reader.old.rest.now };

    // The line for the places past the last one. Nothing that a program answers shows it.
    ghost filling: { Self };

    fn filler() -> Self
        ensures { result ≡ filling };

    ghost shortens: { (l : ℕ) → l ≤ 8 → (bs : List ℕ) (line : Self) (rest : List ℕ) → reads l bs ≡ Ok (line, rest) → length rest < length bs };
}
