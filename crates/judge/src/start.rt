// How the threads of each language start.
ghost use Rattle.std.specs.Prelude.{◌≡◌, List, map};
ghost use Rattle.languages.specs.Behaviours.{Behaviour};
ghost use Rattle.languages.specs.Programs.{program_lines};
ghost use Rattle.languages.specs.Registers.{register_start};
ghost use Rattle.languages.specs.Strips.{strip_start};

use languages::language::Language;
use languages::program::ProgramLine;
use languages::read_program::Program;
use languages::register_thread::RegisterThread;
use languages::registers::RegisterLine;
use languages::strip_thread::StripThread;
use languages::strips::StripLine;

// A thread that starts from a program of such lines.
pub(crate) trait Starts<'a, I>: Language + Copy {
    // What the thread of a program does.
    ghost starts: { List I → Behaviour };

    fn start(program: &'a [I]) -> Self
        ensures { Self.behaves result ≡ starts program.now };
}

impl<'a> Starts<'a, RegisterLine> for RegisterThread<'a> {
    ghost starts = { register_start };

    fn start(program: &'a [RegisterLine]) -> Self {
        RegisterThread::new(program)
    }
}

impl<'a> Starts<'a, StripLine> for StripThread<'a> {
    ghost starts = { strip_start };

    fn start(program: &'a [StripLine]) -> Self {
        StripThread::new(program)
    }
}

// A thread for each program.
pub(crate) fn threads<'a, I: ProgramLine, L: Starts<'a, I>>(programs: &'a [Program<I>; 4]) -> [L; 4]
    ensures { map L.behaves result ≡ map L.starts (map program_lines programs.now) }
{
    // one by one: `map` of an array owes a bound on sizes, and a closure for `from_fn` wants a clause written out
    [
        L::start(programs[0].lines()),
        L::start(programs[1].lines()),
        L::start(programs[2].lines()),
        L::start(programs[3].lines()),
    ]
}
