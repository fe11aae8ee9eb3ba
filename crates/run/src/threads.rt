// A thread of a run.
ghost use Rattle.std.specs.Prelude.{◌≡◌};
ghost use Rattle.rules.specs.Models.{fresh};
ghost use Rattle.run.specs.Models.{thread_of};

use crate::parts::{Owed, ThreadViews};
use crate::state::Thread;
use languages::language::Language;

impl<L: Language> Thread<L> {
    // one at a copy of the state that has done nothing
    pub(crate) fn new(state: &L) -> Thread<L>
        ensures { thread_of L.Language result ≡ fresh (L.Language.behaves state.now) }
    {
        Thread {
            state: state.copy(),
            views: ThreadViews::new(),
            owed: Owed::new(),
        }
    }

    // its state is copied by the language: a bound `Copy` would ask more of it
    pub(crate) fn copied(&self) -> Thread<L>
        ensures { thread_of L.Language result ≡ thread_of L.Language self.now }
    {
        Thread {
            state: self.state.copy(),
            views: self.views,
            owed: self.owed,
        }
    }

    // becomes a copy of the other, part by part, so that no whole thread is made to be moved
    pub(crate) fn become_copy(&mut self, other: &Thread<L>)
        ensures { thread_of L.Language self.new ≡ thread_of L.Language other.now }
    {
        self.state = other.state.copy();
        self.views.become_copy(&other.views);
        self.owed = other.owed;
    }
}
