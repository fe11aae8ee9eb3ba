// The trace of a job: its last section, line by line on a run.
ghost use Rattle.std.specs.Prelude.{◌≡◌, ◌≤◌, length, IfOk};
ghost use Rattle.lines.specs.Families.{reads};
ghost use Rattle.lines.specs.Reading.{unread};
ghost use Rattle.lines.specs.TraceLines.{trace_lines};
ghost use Rattle.run.specs.Models.{run_of};
ghost use Rattle.judge.specs.Traces.{line_taken, followed, run_left, trace_judged, Took, Follows};

use crate::fault::Fault;
use languages::language::Language;
use lines::family::Spelled;
use lines::reader::Reader;
use lines::refusal::LineRefusal;
use lines::scope::Scope;
use lines::trace::Line;
use run::state::Run;
use stores::store::Store;

// Reads the line in front, and gives it to the run. A line that cannot be read is not passed, one that the
// run refuses is; either leaves the run as it was.
fn take_line<L: Language, S: Store>(
    run: &mut Run<L, S>,
    reader: &mut Reader,
    scope: Scope,
) -> Result<(), Fault>
    ensures value { let before = run_of L.Language S.Store run.old in
        Took before
        (line_taken before (reads (trace_lines scope.threads scope.locations) reader.old.rest.now)) result
        (run_of L.Language S.Store run.new) }
    ensures left { reader.new.rest.now
        ≡ unread (reads (trace_lines scope.threads scope.locations) reader.old.rest.now) reader.old.rest.now }
{
    let line = Line::read(reader, scope)?;
    run.step(line)?;
    Ok(())
}

// Gives the lines of the section to the run, up to the first that is refused, and answers how many were accepted.
// Either way the run is left where the accepted lines led.
// A loop that yields the fault or the count by break: a rule of the project.
fn take_lines<L: Language, S: Store>(
    run: &mut Run<L, S>,
    section: &[u8],
    scope: Scope,
) -> Result<usize, LineRefusal<Fault>>
    ensures value { let before = run_of L.Language S.Store run.old in
        Follows (followed scope.threads scope.locations before section.now)
        (run_left scope.threads scope.locations before section.now) result
        (run_of L.Language S.Store run.new) }
    ensures few { IfOk result (λ n. n ≤ length section.now) }
{
    let mut reader = Reader::new(section);
    let mut count = 0;
    loop {
        if reader.left() == 0 {
            break Ok(count);
        }
        match take_line(run, &mut reader, scope) {
            Err(fault) => {
                break Err(LineRefusal {
                    fault,
                    line: count + 1,
                });
            }
            Ok(()) => count += 1,
        }
    }
}

// The same for a whole trace, which has to end between turns. One that does not leaves the run where its
// lines led.
pub(crate) fn follow<L: Language, S: Store>(
    run: &mut Run<L, S>,
    section: &[u8],
    scope: Scope,
) -> Result<usize, LineRefusal<Fault>>
    ensures value { let before = run_of L.Language S.Store run.old in
        Follows (trace_judged scope.threads scope.locations before section.now)
        (run_left scope.threads scope.locations before section.now) result
        (run_of L.Language S.Store run.new) }
    ensures few { IfOk result (λ n. n ≤ length section.now) }
{
    let count = take_lines(run, section, scope)?;
    if !run.is_between() {
        return Err(LineRefusal {
            fault: Fault::Unfinished,
            line: count,
        });
    }
    Ok(count)
}
