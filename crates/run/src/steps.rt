// What one thread does by itself.
ghost use Rattle.std.specs.Prelude.{◌≡◌};
ghost use Rattle.languages.specs.Meanings.{Located};
ghost use Rattle.rules.specs.Rules.{fence_result, print_result, next_result};
ghost use Rattle.rules.specs.Threads.{next_of};
ghost use Rattle.run.specs.Models.{PartAgrees};

use crate::parts::{Print, Turn};
use crate::state::{Shared, Thread};
use languages::action::{Action, FenceKind};
use languages::language::Language;
use lines::scope::Scope;
use rules::fault::StepFault;
use stores::store::Store;

// the next action: one at a location that the run lacks counts as ended
pub(crate) fn next_action<L: Language>(state: &L, scope: Scope) -> Action
    ensures value { result ≡ next_of scope.locations (L.Language.behaves state.now) }
    ensures located { Located result }
{
    let action = state.next();
    match action {
        Action::Read { location, .. }
        | Action::Write { location, .. }
        | Action::Update { location, .. } => {
            if location < scope.locations() {
                action
            } else {
                Action::Ended
            }
        }
        Action::Silent | Action::Fence { .. } | Action::Print { .. } | Action::Ended => action,
    }
}

fn fence<L: Language, S: Store>(
    thread: &mut Thread<L>,
    shared: &mut Shared<S>,
    kind: FenceKind,
) -> Result<(), StepFault>
    ensures { PartAgrees L.Language S.Store (λ p. fence_result p kind) thread.old shared.old result thread.new shared.new }
{
    match kind {
        FenceKind::Acquire => thread.views.acquire(),
        _ if !thread.owed.none() => return Err(StepFault::Owing),
        FenceKind::Release => thread.views.release(),
        FenceKind::Both => {
            let acq = thread.views.acq;
            thread.views.become_all(acq);
        }
        FenceKind::Sequential => {
            let sc = shared.sc.join(thread.views.acq);
            shared.sc = sc;
            thread.views.become_all(sc);
        }
    }
    thread.state.go_on(0);
    Ok(())
}

fn print<L: Language, S: Store>(
    thread: &mut Thread<L>,
    shared: &mut Shared<S>,
    who: u8,
    value: u16,
) -> Result<(), StepFault>
    ensures { PartAgrees L.Language S.Store (λ p. print_result who p value) thread.old shared.old result thread.new shared.new }
{
    if !thread.owed.none() {
        return Err(StepFault::Owing);
    }
    let print = Print { thread: who, value };
    shared.log.add(print)?;
    thread.state.go_on(0);
    Ok(())
}

// N: a silent step, a fence or a print
#[inline(always)]
pub(crate) fn next<L: Language, S: Store>(
    thread: &mut Thread<L>,
    shared: &mut Shared<S>,
    turn: Turn,
) -> Result<(), StepFault>
    ensures { PartAgrees L.Language S.Store (next_result turn.scope.locations turn.who) thread.old shared.old result thread.new shared.new }
{
    match next_action(&thread.state, turn.scope) {
        Action::Silent => {
            thread.state.go_on(0);
            Ok(())
        }
        Action::Fence { kind } => fence(thread, shared, kind),
        Action::Print { value } => print(thread, shared, turn.who, value),
        _ => Err(StepFault::Kind),
    }
}
