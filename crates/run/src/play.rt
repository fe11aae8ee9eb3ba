// A run, line by line.
ghost use Rattle.std.specs.Prelude.{◌≡◌, true, map};
ghost use Rattle.rules.specs.Rules.{Agrees, act_in, line_result, made};
ghost use Rattle.run.specs.Models.{run_of, RunAgrees};
ghost use Rattle.run.specs.Plays.{outcome_of, plays, Obeys};
ghost use Rattle.run.specs.Moments.{in_range, moment_result};

use crate::state::{Phase, Run};
use languages::language::Language;
use lines::trace::Line;
use rules::fault::StepFault;
use stores::store::Store;

impl<L: Language, S: Store> Run<L, S> {
    // whether the thread or the location that a line names is there
    fn in_range(&self, line: Line) -> bool
        ensures { result ≡ in_range line (run_of L.Language S.Store self.now) }
    {
        match line {
            Line::Turn { thread } => thread < self.scope.threads(),
            Line::Promise { location, .. } => location < self.scope.locations(),
            _ => true,
        }
    }

    // N, R, W, U or H of the thread whose turn or showing it is
    #[inline(always)]
    fn step_of_thread(&mut self, line: Line) -> Result<(), StepFault>
        ensures { RunAgrees L.Language S.Store (λ r. act_in r line r.phase) self.old result self.new }
    {
        let closing = self.may_act()?;
        self.act(closing, line)
    }

    // a line in range: the line and the phase together decide whether this is its moment
    // Each pair is an arm of its own: where arms are joined, the proof does not learn which line and phase it is.
    #[inline(always)]
    fn at_moment(&mut self, line: Line) -> Result<(), StepFault>
        requires { in_range line (run_of L.Language S.Store self.old) ≡ true }
        ensures { RunAgrees L.Language S.Store (moment_result line) self.old result self.new }
    {
        match (line, &self.phase) {
            (Line::Turn { thread }, Phase::Between) => self.begin(thread),
            (
                Line::Promise {
                    location,
                    value,
                    span,
                },
                Phase::Turn(_),
            ) => self.promise(location, value, span),
            (Line::Show, Phase::Turn(_)) => self.show(),
            (Line::EndTurn, Phase::Turn(_)) => self.end(),
            (Line::EndTurn, Phase::Showing(..)) => self.end(),
            (Line::Next, _) => self.step_of_thread(line),
            (Line::Read { .. }, _) => self.step_of_thread(line),
            (Line::Write { .. }, _) => self.step_of_thread(line),
            (Line::Update { .. }, _) => self.step_of_thread(line),
            (Line::Keep { .. }, _) => self.step_of_thread(line),
            (Line::Turn { .. }, Phase::Turn(_)) => Err(StepFault::Moment),
            (Line::Turn { .. }, Phase::Showing(..)) => Err(StepFault::Moment),
            (Line::Promise { .. }, Phase::Between) => Err(StepFault::Moment),
            (Line::Promise { .. }, Phase::Showing(..)) => Err(StepFault::Moment),
            (Line::Show, Phase::Between) => Err(StepFault::Moment),
            (Line::Show, Phase::Showing(..)) => Err(StepFault::Moment),
            (Line::EndTurn, Phase::Between) => Err(StepFault::Moment),
        }
    }

    /// One line of a trace, with any thread, location, value and ends: accepted, or refused for its first
    /// reason, and then the run stands for what it stood for before.
    #[inline(always)]
    pub fn step(&mut self, line: Line) -> Result<(), StepFault>
        ensures { Agrees (line_result line (run_of L.Language S.Store self.old)) (run_of L.Language S.Store self.old) result (run_of L.Language S.Store self.new) }
    {
        if !self.in_range(line) {
            return Err(StepFault::Range);
        }
        self.at_moment(line)
    }
}

/// What lines led to.
#[derive(Drop)]
pub struct Played<L, S> {
    /// The run after the lines.
    pub run: Run<L, S>,
    /// How many of the lines were accepted.
    pub accepted: usize,
}

/// Makes a run as `Run::new` does and gives it the lines, one after another: each is judged on the run that
/// the ones before it led to, and a refused one leaves it as it was. Refused only where no run can be made.
pub fn play<L: Language, S: Store>(
    threads: [L; 4],
    n: u8,
    locations: u8,
    store: S,
    lines: &[Line],
) -> Result<Played<L, S>, StepFault>
    ensures ends { outcome_of L.Language S.Store result
        ≡ plays (made (map L.Language.behaves threads) n locations (S.Store.capacity store)) lines.now }
    ensures law { Obeys locations
        (made (map L.Language.behaves threads) n locations (S.Store.capacity store)) lines.now
        (outcome_of L.Language S.Store result) }
{
    let mut run = Run::new(threads, n, locations, store)?;
    let mut accepted = 0;
    for line in lines {
        if run.step(*line).is_ok() {
            accepted += 1;
        }
    }
    Ok(Played { run, accepted })
}
