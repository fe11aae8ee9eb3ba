// What a report asks of a run.
ghost use Rattle.std.specs.Prelude.{◌≡◌, ◌<◌, ◌≤◌, length, IfSome};
ghost use Rattle.std.specs.List.{slice_get as place};
ghost use Rattle.stores.specs.Memory.{nth};
ghost use Rattle.stores.specs.Views.{at};
ghost use Rattle.rules.specs.Models.{thread_at};
ghost use Rattle.run.specs.Reports.{owing_thread, is_between};
ghost use Rattle.run.specs.Models.{run_of, print_in};

use crate::parts::Print;
use crate::state::{Phase, Run};
use languages::language::Language;
use lines::End;
use stores::kept::Kept;
use stores::store::Store;

impl<L: Language, S: Store> Run<L, S> {
    pub fn thread_count(&self) -> u8
        ensures value { result ≡ length (run_of L.Language S.Store self.now).threads }
        ensures few { result ≤ 4 }
    {
        self.scope.threads()
    }

    pub fn location_count(&self) -> u8
        ensures value { result ≡ (run_of L.Language S.Store self.now).locations }
        ensures few { result ≤ 8 }
    {
        self.scope.locations()
    }

    pub fn message_count(&self) -> usize
        ensures value { result ≡ length (run_of L.Language S.Store self.now).memory }
        ensures few { result ≤ 64 }
    {
        self.shared.store.len()
    }

    // the k-th message from 0
    pub fn message(&self, k: usize) -> Kept
        ensures { result ≡ nth k (run_of L.Language S.Store self.now).memory }
    {
        self.shared.store.nth(k)
    }

    // the thread that owes the k-th message
    pub fn owing(&self, k: usize) -> Option<u8>
        ensures value { result ≡ owing_thread k (run_of L.Language S.Store self.now).threads }
        ensures few { IfSome result (λ i. i < 4) }
    {
        let threads = &self.threads[..self.scope.threads() as usize];
        let owing = threads.iter().position(|thread| thread.owed.is_owed(k));
        owing.map(|i| i as u8)
    }

    // the end of a thread's cur at a location, 0 where there is no such thread or location
    pub fn seen(&self, thread: u8, location: u8) -> End
        ensures { result ≡ at (thread_at (run_of L.Language S.Store self.now) thread).views.cur location }
    {
        if thread < self.scope.threads() {
            self.threads[thread as usize].views.seen(location)
        } else {
            0
        }
    }

    pub fn print_count(&self) -> usize
        ensures value { result ≡ length (run_of L.Language S.Store self.now).log }
        ensures few { result ≤ 64 }
    {
        self.shared.log.len()
    }

    // the k-th print from 0
    pub fn print(&self, k: usize) -> Option<Print>
        ensures { print_in result ≡ place (run_of L.Language S.Store self.now).log k }
    {
        self.shared.log.nth(k)
    }

    pub fn is_between(&self) -> bool
        ensures { result ≡ is_between (run_of L.Language S.Store self.now).phase }
    {
        matches!(self.phase, Phase::Between)
    }
}
