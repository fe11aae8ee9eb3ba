// The report on an accepted run.
ghost use Rattle.std.specs.Prelude.{◌≡◌, ℕ, ◌+◌, ◌<◌, ◌≤◌, ◌∷◌, length, take, slice_index};
ghost use Rattle.rules.specs.Models.{thread_at};
ghost use Rattle.run.specs.Models.{run_of};
ghost use Rattle.jobs.specs.Texts.{added};
ghost use Rattle.judge.specs.Reports.{owner, messages_text, first_ends, views_text, prints_text, accepted_text};
ghost use Rattle.judge.specs.Printable.{Printable};

use bounded::Bounded;
use jobs::text::Text;
use languages::language::Language;
use run::state::Run;
use stores::store::Store;

// 0, or the owing thread plus 1, as a report prints it
fn owner(who: Option<u8>) -> u64
    ensures { result ≡ owner who }
{
    who.map_or(0, |thread| thread as u64 + 1)
}

// A run is asked by number, so what goes over its messages, threads and prints goes over numbers.
// That a run can be printed is asked below: it holds of runs that were made and given lines, and a ghost field
// cannot speak of what the language and the store of a run mean.

// m x f t v w for each message
fn add_messages<L: Language, S: Store>(text: &mut Text, run: &Run<L, S>)
    requires { Printable (run_of L.Language S.Store run.now) }
    ensures after { text.new.bytes ≡ added text.old.bytes (messages_text (run_of L.Language S.Store run.now)) }
    ensures short { length (messages_text (run_of L.Language S.Store run.now)) ≤ 1536 }
{
    for k in 0..run.message_count() {
        let message = run.message(k).message;
        let numbers = [
            message.location as u64,
            message.span.from as u64,
            message.span.to as u64,
            message.value as u64,
            owner(run.owing(k)),
        ];
        text.line(b'm', &numbers);
    }
}

// a thread's number, and the ends of its cur at the locations of the run
fn view_numbers<L: Language, S: Store>(run: &Run<L, S>, thread: u8) -> Bounded<u64, 9>
    ensures value { result ≡ thread ∷ first_ends (run_of L.Language S.Store run.now).locations (thread_at (run_of L.Language S.Store run.now) thread).views.cur }
    ensures narrow { (k : ℕ) → slice_index result k < 65536 }
{
    let mut numbers = Bounded::from_slice(&[thread as u64], 0);
    for x in 0..run.location_count() {
        // never full: there are eight locations at most
        let _ = numbers.push(run.seen(thread, x) as u64);
    }
    numbers
}

// c i e… for each thread
fn add_views<L: Language, S: Store>(text: &mut Text, run: &Run<L, S>)
    ensures after { text.new.bytes ≡ added text.old.bytes (views_text (run_of L.Language S.Store run.now)) }
    ensures short { length (views_text (run_of L.Language S.Store run.now)) ≤ 208 }
{
    for i in 0..run.thread_count() {
        text.line(b'c', view_numbers(run, i).as_slice());
    }
}

// p i v for each print
fn add_prints<L: Language, S: Store>(text: &mut Text, run: &Run<L, S>)
    requires { Printable (run_of L.Language S.Store run.now) }
    ensures after { text.new.bytes ≡ added text.old.bytes (prints_text (run_of L.Language S.Store run.now)) }
    ensures short { length (prints_text (run_of L.Language S.Store run.now)) ≤ 640 }
{
    for k in 0..run.print_count() {
        if let Some(print) = run.print(k) {
            text.line(b'p', &[print.thread as u64, print.value as u64]);
        }
    }
}

// OK n, then the messages, the threads' views and the prints
pub(crate) fn accepted<L: Language, S: Store>(count: usize, run: &Run<L, S>) -> Text
    requires lines { count ≤ 65535 }
    requires run { Printable (run_of L.Language S.Store run.now) }
    ensures { result.bytes ≡ accepted_text (record { count = count; run = run_of L.Language S.Store run.now }) }
{
    let mut text = Text::new();
    text.push(b'O');
    text.line(b'K', &[count as u64]);
    add_messages(&mut text, run);
    add_views(&mut text, run);
    add_prints(&mut text, run);
    text
}
