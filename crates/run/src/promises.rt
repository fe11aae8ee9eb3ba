// Promises of one thread, made and kept.
ghost use Rattle.rules.specs.Rules.{promise_result, keep_result};
ghost use Rattle.run.specs.Models.{PartAgrees};

use crate::accesses::check_span;
use crate::owed::message_at;
use crate::parts::Turn;
use crate::state::{Shared, Thread};
use crate::steps::next_action;
use languages::action::{Action, WriteMode};
use languages::language::Language;
use lines::End;
use lines::span::Span;
use rules::fault::StepFault;
use stores::message::Message;
use stores::store::Store;
use stores::view::View;

// G x v f t: promises a relaxed write
pub(crate) fn promise<L: Language, S: Store>(
    thread: &mut Thread<L>,
    shared: &mut Shared<S>,
    location: u8,
    value: u16,
    span: Span,
) -> Result<(), StepFault>
    ensures { PartAgrees L.Language S.Store (promise_result location value span) thread.old shared.old result thread.new shared.new }
{
    if thread.views.seen(location) >= span.to {
        return Err(StepFault::TooNew);
    }
    check_span(&shared.store, None, location, span)?;
    let k = shared.store.len();
    let one = View::single(location, span.to);
    shared.store.add(Message {
        location,
        span,
        value,
        view: thread.views.released(location).join(one),
    })?;
    thread.owed.set(k, true);
    Ok(())
}

// H t: keeps the promise of the location that ends at t, by a relaxed write of its value
#[inline(always)]
pub(crate) fn keep<L: Language, S: Store>(
    thread: &mut Thread<L>,
    shared: &Shared<S>,
    turn: Turn,
    end: End,
) -> Result<(), StepFault>
    ensures { PartAgrees L.Language S.Store (keep_result turn.scope.locations end) thread.old shared.now result thread.new shared.now }
{
    let Action::Write {
        location,
        value,
        mode: WriteMode::Relaxed,
    } = next_action(&thread.state, turn.scope)
    else {
        return Err(StepFault::Kind);
    };
    let found = thread.owed.find(&shared.store, location, end);
    let k = found.ok_or(StepFault::NoMessage)?;
    if thread.views.seen(location) >= end {
        return Err(StepFault::TooNew);
    }
    if message_at(&shared.store, k).value != value {
        return Err(StepFault::Value);
    }
    thread.views.write(WriteMode::Relaxed, location, end);
    thread.owed.set(k, false);
    thread.state.go_on(0);
    Ok(())
}
