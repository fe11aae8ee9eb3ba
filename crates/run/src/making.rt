// Making a run.
ghost use Rattle.std.specs.Prelude.{◌≡◌, map, if◌then◌else◌, Ok, Err, nat_le, min};
ghost use Rattle.stores.specs.declared.kept.StoreFault.TheVariants.{Full};
ghost use Rattle.rules.specs.Rules.{initial, initials, made};
ghost use Rattle.run.specs.Models.{tried};

use crate::log::Log;
use crate::state::{Phase, Run, Shared, Thread};
use languages::language::Language;
use lines::scope::Scope;
use lines::span::Span;
use rules::fault::StepFault;
use stores::kept::StoreFault;
use stores::message::Message;
use stores::store::Store;
use stores::view::View;

// the initial message of a location
fn initial(location: u8) -> Message
    ensures { result ≡ initial location }
{
    Message {
        location,
        span: Span { from: 0, to: 0 },
        value: 0,
        view: View::zero(),
    }
}

// empties the store and adds the initial messages, by location; where there is no room for all of them, it is
// left with those that it has room for
fn fill<S: Store>(store: &mut S, locations: u8) -> Result<(), StoreFault>
    ensures value { result ≡ (if nat_le locations (S.Store.capacity store.old) then Ok tt else Err Full) }
    ensures after { S.Store.held store.new ≡ initials (min locations (S.Store.capacity store.old)) }
    ensures same { S.Store.capacity store.new ≡ S.Store.capacity store.old }
{
    store.keep(0);
    for x in 0..locations {
        store.add(initial(x))?;
    }
    Ok(())
}

impl<L: Language, S: Store> Run<L, S> {
    /// A run of the first n of the threads (1 to 4), on that many locations (1 to 8), in the store, which is
    /// emptied. Other numbers are refused as out of range, and then a store with fewer places than locations
    /// as full.
    pub fn new(threads: [L; 4], n: u8, locations: u8, store: S) -> Result<Run<L, S>, StepFault>
        ensures { tried L.Language S.Store result ≡ made (map L.Language.behaves threads) n locations (S.Store.capacity store) }
    {
        let scope = Scope::new(n, locations).ok_or(StepFault::Range)?;
        let mut store = store;
        fill(&mut store, locations)?;
        Ok(Run {
            scope,
            // one by one: `map` of an array owes a bound on sizes, and a closure for `from_fn` wants a clause
            threads: [
                Thread::new(&threads[0]),
                Thread::new(&threads[1]),
                Thread::new(&threads[2]),
                Thread::new(&threads[3]),
            ],
            shared: Shared {
                store,
                sc: View::zero(),
                log: Log::new(),
            },
            phase: Phase::Between,
        })
    }
}
