// The lines of a turn and of a showing.
ghost use Rattle.std.specs.Prelude.{◌≡◌, ◌<◌, if◌then◌else◌, Some};
ghost use Rattle.rules.specs.declared.fault.StepFault.TheVariants.{Moment, StillOwing};
ghost use Rattle.rules.specs.Models.{between, turn, thread_at, part_at, part_back, in_phase};
ghost use Rattle.rules.specs.Threads.{none_owed};
ghost use Rattle.rules.specs.Rules.{went, refused, lifted, act_result, promise_result, show_in};
ghost use Rattle.rules.specs.Histories.{undone};
ghost use Rattle.run.specs.Models.{part_of, PartAgrees, run_of, RunAgrees, line_of, saved_of};
ghost use Rattle.run.specs.Moments.{closing_of, may_act_in};
ghost use Rattle.run.specs.Turns.{whose};

use crate::accesses::{read, update, write};
use crate::parts::{Closing, Turn};
use crate::promises::{keep, promise};
use crate::state::{Phase, Run, Saved, Shared, Thread};
use crate::steps::next;
use languages::language::Language;
use lines::span::Span;
use lines::trace::Line;
use rules::fault::StepFault;
use stores::store::Store;

// a line by which the thread whose turn it is acts
// Thread and shared stay two borrows of one run: a struct of both would be made only to be taken apart.
#[inline(always)]
fn act<L: Language, S: Store>(
    thread: &mut Thread<L>,
    shared: &mut Shared<S>,
    turn: Turn,
    line: Line,
) -> Result<(), StepFault>
    ensures { PartAgrees L.Language S.Store (act_result turn.scope.locations turn.who (line_of turn.closing) line) thread.old shared.old result thread.new shared.new }
{
    match line {
        Line::Next => next(thread, shared, turn),
        Line::Read { end } => read(thread, shared, turn, end),
        Line::Write { span } => write(thread, shared, turn, span),
        Line::Update { span } => update(thread, shared, turn, span),
        Line::Keep { end } => keep(thread, shared, turn, end),
        Line::Turn { .. } | Line::Promise { .. } | Line::Show | Line::EndTurn => Err(
            StepFault::Moment,
        ),
    }
}

// puts back what a showing of the thread saved
// Copied, since a phase that is taken apart is moved whole before its thread is.
fn put_back<L: Language, S: Store>(thread: &mut Thread<L>, shared: &mut Shared<S>, saved: &Saved<L>)
    ensures { part_of L.Language S.Store thread.new shared.new ≡ part_back (saved_of L.Language saved.now) (part_of L.Language S.Store thread.old shared.old) }
{
    thread.become_copy(&saved.thread);
    shared.sc = saved.sc;
    shared.store.keep(saved.messages);
    shared.log.keep(saved.prints);
}

impl<L: Language, S: Store> Run<L, S> {
    // the thread whose turn or showing it is, 0 between turns
    fn whose(&self) -> u8
        ensures value { result ≡ whose self.now.phase }
        ensures there { result < self.now.scope.threads }
    {
        match &self.phase {
            Phase::Between => 0,
            Phase::Turn(i) | Phase::Showing(i, _) => *i,
        }
    }

    // whether that thread owes nothing
    fn owes_none(&self) -> bool
        ensures { result ≡ none_owed (thread_at (run_of L.Language S.Store self.now) (whose self.now.phase)).owed }
    {
        self.threads[self.whose() as usize].owed.none()
    }

    // the closing line above which that thread has to write, none in a turn; or why no thread may act:
    // between turns, and in a showing once nothing is owed
    pub(crate) fn may_act(&self) -> Result<Option<Closing>, StepFault>
        ensures { let r = run_of L.Language S.Store self.now in closing_of result ≡ may_act_in r r.phase }
    {
        match &self.phase {
            Phase::Between => Err(StepFault::Moment),
            Phase::Turn(_) => Ok(None),
            Phase::Showing(_, saved) => {
                if self.owes_none() {
                    return Err(StepFault::Moment);
                }
                Ok(Some(saved.closing))
            }
        }
    }

    // T i
    // The thread is one of this run's: its own number of threads bounds it, and no type can say which run that is.
    pub(crate) fn begin(&mut self, i: u8) -> Result<(), StepFault>
        requires { i < self.old.scope.threads }
        ensures { RunAgrees L.Language S.Store (λ r. went (in_phase r (turn i))) self.old result self.new }
    {
        self.phase = Phase::Turn(i);
        Ok(())
    }

    // N, R, W, U and H of that thread
    #[inline(always)]
    pub(crate) fn act(&mut self, closing: Option<Closing>, line: Line) -> Result<(), StepFault>
        ensures { let i = whose self.old.phase in RunAgrees L.Language S.Store (λ r. lifted r i (act_result r.locations i (line_of closing) line (part_at r i))) self.old result self.new }
    {
        let turn = Turn {
            who: self.whose(),
            scope: self.scope,
            closing,
        };
        act(
            &mut self.threads[turn.who as usize],
            &mut self.shared,
            turn,
            line,
        )
    }

    // G x v f t of that thread
    pub(crate) fn promise(&mut self, location: u8, value: u16, span: Span) -> Result<(), StepFault>
        ensures { let i = whose self.old.phase in RunAgrees L.Language S.Store (λ r. lifted r i (promise_result location value span (part_at r i))) self.old result self.new }
    {
        let i = self.whose();
        promise(
            &mut self.threads[i as usize],
            &mut self.shared,
            location,
            value,
            span,
        )
    }

    // X in the turn of that thread
    #[inline(always)]
    pub(crate) fn show(&mut self) -> Result<(), StepFault>
        ensures { let i = whose self.old.phase in RunAgrees L.Language S.Store (λ r. show_in r (turn i)) self.old result self.new }
    {
        if self.owes_none() {
            return Err(StepFault::Moment);
        }
        let i = self.whose();
        self.phase = Phase::Showing(
            i,
            Saved {
                closing: Closing::of(&self.shared.store),
                sc: self.shared.sc,
                messages: self.shared.store.len(),
                prints: self.shared.log.len(),
                thread: self.threads[i as usize].copied(),
            },
        );
        Ok(())
    }

    // puts back what a showing saved, where there is one; the phase stays
    #[inline(always)]
    fn undo(&mut self)
        ensures { let r = run_of L.Language S.Store self.old in run_of L.Language S.Store self.new ≡ in_phase (undone r) r.phase }
    {
        let i = self.whose();
        let thread = &mut self.threads[i as usize];
        match &self.phase {
            Phase::Between | Phase::Turn(_) => {}
            Phase::Showing(_, saved) => put_back(thread, &mut self.shared, saved),
        }
    }

    // E in the turn or the showing of that thread
    #[inline(always)]
    pub(crate) fn end(&mut self) -> Result<(), StepFault>
        ensures { let i = whose self.old.phase in RunAgrees L.Language S.Store (λ r. if none_owed (thread_at r i).owed then went (in_phase (undone r) between) else refused StillOwing) self.old result self.new }
    {
        if !self.owes_none() {
            return Err(StepFault::StillOwing);
        }
        self.undo();
        self.phase = Phase::Between;
        Ok(())
    }
}
