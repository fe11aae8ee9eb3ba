// What is found of a job file.
ghost use Rattle.std.specs.Prelude.{◌≡◌, ℕ, ◌≤◌, map, length};
ghost use Rattle.bounded.specs.Fixed.{elements};
ghost use Rattle.judge.specs.declared.fault.Fault.TheVariants.{Step as StepOf};
ghost use Rattle.judge.specs.JobLaws.{Judges};
ghost use Rattle.judge.specs.Layouts.{Addressed, JobsAddressed};
ghost use Rattle.judge.specs.Verdicts.{with_trace, judged};
ghost use Rattle.judge.specs.Reports.{told};
ghost use Rattle.jobs.specs.Reports.{told_by};

use crate::account::accepted;
use crate::fault::Refusal;
use crate::start::threads;
use crate::trace::follow;
use jobs::head::Head;
pub use jobs::head::MOST_FILE;
use jobs::job::LanguageChoice;
use jobs::text::Text;
use languages::language::Language;
use languages::register_thread::RegisterThread;
use languages::registers::RegisterLine;
use languages::strip_thread::StripThread;
use languages::strips::StripLine;
use rowstore::rows::Rows;
use rules::fault::StepFault;
use run::state::Run;
use stores::store::Store;

// A run that cannot be made is refused at the J line, which asks for it.
// No `From`: std's trait for another crate's type is implemented in that crate alone.
fn not_made(fault: StepFault) -> Refusal
    ensures { result ≡ record { fault = StepOf fault; section = 0; line = 1 } }
{
    Refusal {
        fault: fault.into(),
        section: 0,
        line: 1,
    }
}

// Makes a run of the threads and gives it the trace: the report on it, where all is accepted.
// Generic code that makes a run owes a bound on its size, which a trait cannot state as a law of each store.
fn report_run<L: Language + Copy, S: Store>(
    head: &Head,
    file: &[u8],
    threads: [L; 4],
    store: S,
) -> Result<Text, Refusal>
    requires layout { Addressed L.row S.row }
    requires small { length file.now ≤ 65535 }
    ensures { told_by result ≡ told (with_trace (S.Store.capacity store) file.now head.now.job.scope.threads head.now.job.scope.locations (elements head.now.sections) (map L.Language.behaves threads)) }
{
    let scope = head.job.scope;
    let mut run = match Run::new(threads, scope.threads(), scope.locations(), store) {
        Ok(run) => run,
        Err(fault) => return Err(not_made(fault)),
    };
    match follow(&mut run, head.trace(file), scope) {
        Ok(count) => Ok(accepted(count, &run)),
        Err(refusal) => Err(Refusal::in_section(refusal, scope.threads() + 1)),
    }
}

// Judges the file in the store: the report on its run, where the file is accepted.
pub(crate) fn report_accepted<S: Store>(file: &[u8], store: S) -> Result<Text, Refusal>
    requires layout { JobsAddressed S.row }
    ensures { told_by result ≡ told (judged (S.Store.capacity store) file.now) }
{
    // by match: with `map_err` and `?` the clause would be one of `map_err`, at each of the three refusals
    let head = match Head::of_file(file) {
        Ok(head) => head,
        Err(refusal) => return Err(refusal.widen()),
    };
    // an arm for each language: a thread's type has the lifetime of the programs that are read here
    match head.job.language {
        LanguageChoice::Registers => match head.programs::<RegisterLine>(file) {
            Ok(programs) => {
                report_run(&head, file, threads::<_, RegisterThread>(&programs), store)
            }
            Err(refusal) => Err(refusal.widen()),
        },
        LanguageChoice::Strips => match head.programs::<StripLine>(file) {
            Ok(programs) => report_run(&head, file, threads::<_, StripThread>(&programs), store),
            Err(refusal) => Err(refusal.widen()),
        },
    }
}

/// The report on a job file of any length, or why and where the file is refused: the first thing that is
/// wrong with it. The file is judged on the row store.
pub fn verdict(file: &[u8]) -> Result<Text, Refusal>
    ensures value { told_by result ≡ told (judged 64 file.now) }
    ensures law { Judges file.now (told_by result) }
{
    report_accepted(file, Rows::new())
}
