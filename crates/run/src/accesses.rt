// Reads, writes and updates of one thread.
ghost use Rattle.std.specs.Prelude.{◌≡◌, Some};
ghost use Rattle.rules.specs.Rules.{read_result, release_owes, span_refusal, write_result, update_found, update_result};
ghost use Rattle.rules.specs.Threads.{reads};
ghost use Rattle.run.specs.Models.{part_of, PartAgrees, line_of};
ghost use Rattle.run.specs.Refusals.{allowed};

use crate::owed::message_at;
use crate::parts::{Closing, Turn};
use crate::state::{Shared, Thread};
use crate::steps::next_action;
use languages::action::{Action, ReadMode, Taking, WriteMode};
use languages::language::Language;
use lines::End;
use lines::span::Span;
use rules::fault::StepFault;
use stores::message::Message;
use stores::store::Store;

// the location and the mode with which an action can read
fn reads(action: Action) -> Option<(u8, ReadMode)>
    ensures { result ≡ reads action }
{
    match action {
        Action::Read { location, mode } => Some((location, mode)),
        Action::Update { location, read, .. } => Some((location, read)),
        _ => None,
    }
}

// R t: reads the message of the location that ends at t, a value that is only read
#[inline(always)]
pub(crate) fn read<L: Language, S: Store>(
    thread: &mut Thread<L>,
    shared: &Shared<S>,
    turn: Turn,
    end: End,
) -> Result<(), StepFault>
    ensures { PartAgrees L.Language S.Store (read_result turn.scope.locations end) thread.old shared.now result thread.new shared.now }
{
    let action = next_action(&thread.state, turn.scope);
    let (location, mode) = reads(action).ok_or(StepFault::Kind)?;
    let k = shared
        .store
        .find(location, end)
        .ok_or(StepFault::NoMessage)?;
    if thread.views.seen(location) > end {
        return Err(StepFault::TooNew);
    }
    let message = message_at(&shared.store, k);
    let Taking::OnlyRead = thread.state.takes(message.value) else {
        return Err(StepFault::Value);
    };
    thread.views.read(mode, location, end, message.view);
    thread.state.go_on(message.value);
    Ok(())
}

// a release, while the thread owes something at the location
fn release_owes<L: Language, S: Store>(
    thread: &Thread<L>,
    shared: &Shared<S>,
    mode: WriteMode,
    location: u8,
) -> bool
    ensures { result ≡ release_owes mode location (part_of L.Language S.Store thread.now shared.now) }
{
    match mode {
        WriteMode::Relaxed => false,
        WriteMode::Release => thread.owed.owes_at(&shared.store, location),
    }
}

// whether the span can be written, or why not
#[inline(always)]
pub(crate) fn check_span<S: Store>(
    store: &S,
    closing: Option<Closing>,
    location: u8,
    span: Span,
) -> Result<(), StepFault>
    ensures { result ≡ allowed (span_refusal (line_of closing) location span (S.Store.held store.now)) }
{
    if span.from >= span.to || !store.is_free(location, span) {
        return Err(StepFault::Span);
    }
    match closing {
        Some(line) if !line.is_below(location, span.from) => Err(StepFault::ClosingLine),
        _ => Ok(()),
    }
}

// W f t: writes a message with the span (f, t]
#[inline(always)]
pub(crate) fn write<L: Language, S: Store>(
    thread: &mut Thread<L>,
    shared: &mut Shared<S>,
    turn: Turn,
    span: Span,
) -> Result<(), StepFault>
    ensures { PartAgrees L.Language S.Store (write_result turn.scope.locations (line_of turn.closing) span) thread.old shared.old result thread.new shared.new }
{
    let Action::Write {
        location,
        value,
        mode,
    } = next_action(&thread.state, turn.scope)
    else {
        return Err(StepFault::Kind);
    };
    if release_owes(thread, shared, mode, location) {
        return Err(StepFault::Owing);
    }
    if thread.views.seen(location) >= span.to {
        return Err(StepFault::TooNew);
    }
    check_span(&shared.store, turn.closing, location, span)?;
    // The views change only once the store has taken the message, so its view is found first.
    let views = &thread.views;
    shared.store.add(Message {
        location,
        span,
        value,
        view: views.rel_written(views.cur, mode, location, span.to),
    })?;
    thread.views.write(mode, location, span.to);
    thread.state.go_on(0);
    Ok(())
}

// the update from the message that arrived as number k
#[inline(always)]
fn update_from<L: Language, S: Store>(
    thread: &mut Thread<L>,
    shared: &mut Shared<S>,
    closing: Option<Closing>,
    modes: (ReadMode, WriteMode),
    location: u8,
    span: Span,
    k: usize,
) -> Result<(), StepFault>
    ensures { PartAgrees L.Language S.Store (λ p. update_found (line_of closing) p modes.0 modes.1 location span (Some k)) thread.old shared.old result thread.new shared.new }
{
    if thread.views.seen(location) > span.from {
        return Err(StepFault::TooNew);
    }
    let read = message_at(&shared.store, k);
    let Taking::Replaced { value } = thread.state.takes(read.value) else {
        return Err(StepFault::Value);
    };
    check_span(&shared.store, closing, location, span)?;
    let views = &thread.views;
    let cur = views.cur_read(modes.0, location, span.from, read.view);
    let released = views.rel_written(cur, modes.1, location, span.to);
    shared.store.add(Message {
        location,
        span,
        value,
        view: released.join(read.view),
    })?;
    thread.views.read(modes.0, location, span.from, read.view);
    thread.views.write(modes.1, location, span.to);
    thread.state.go_on(read.value);
    Ok(())
}

// U f t: reads the message that ends at f, a value that is replaced, and writes one with the span (f, t]
#[inline(always)]
pub(crate) fn update<L: Language, S: Store>(
    thread: &mut Thread<L>,
    shared: &mut Shared<S>,
    turn: Turn,
    span: Span,
) -> Result<(), StepFault>
    ensures { PartAgrees L.Language S.Store (update_result turn.scope.locations (line_of turn.closing) span) thread.old shared.old result thread.new shared.new }
{
    let Action::Update {
        location,
        read,
        write,
    } = next_action(&thread.state, turn.scope)
    else {
        return Err(StepFault::Kind);
    };
    if release_owes(thread, shared, write, location) {
        return Err(StepFault::Owing);
    }
    let found = shared.store.find(location, span.from);
    let k = found.ok_or(StepFault::NoMessage)?;
    update_from(
        thread,
        shared,
        turn.closing,
        (read, write),
        location,
        span,
        k,
    )
}
