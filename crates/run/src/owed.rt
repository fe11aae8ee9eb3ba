// The messages that a thread owes.
ghost use Rattle.std.specs.Prelude.{◌≡◌, false, replicate, slice_index_or, slice_set};
ghost use Rattle.rules.specs.Rules.{message_at};
ghost use Rattle.rules.specs.Threads.{none_owed, owes_at, find_owed};

use crate::parts::Owed;
use lines::End;
use stores::message::Message;
use stores::store::Store;

// the message that arrived as number k, the zero message where there is none
pub(crate) fn message_at<S: Store>(store: &S, k: usize) -> Message
    ensures { result ≡ message_at (S.Store.held store.now) k }
{
    store.nth(k).message
}

impl Owed {
    pub(crate) fn new() -> Owed
        ensures { result.marks ≡ replicate 64 false }
    {
        Owed {
            marks: [false; 64],
            count: 0,
            from: 64,
            to: 0,
        }
    }

    pub(crate) fn is_owed(&self, k: usize) -> bool
        ensures { result ≡ slice_index_or self.now.marks k false }
    {
        self.marks.get(k).copied().unwrap_or(false)
    }

    pub(crate) fn none(&self) -> bool
        ensures { result ≡ none_owed self.now.marks }
    {
        self.count == 0
    }

    // nothing past the last mark
    pub(crate) fn set(&mut self, k: usize, owed: bool)
        ensures { self.new.marks ≡ slice_set self.old.marks k owed }
    {
        if k < 64 {
            let others = self.count - self.marks[k] as usize;
            self.marks[k] = owed;
            self.count = others + owed as usize;
            // the range grows with each mark, and begins anew once none is set
            if owed {
                self.from = self.from.min(k);
                self.to = self.to.max(k + 1);
            } else if self.count == 0 {
                self.from = 64;
                self.to = 0;
            }
        }
    }

    // whether a message of the location is owed
    pub(crate) fn owes_at<S: Store>(&self, store: &S, location: u8) -> bool
        ensures { result ≡ owes_at location self.now.marks (S.Store.held store.now) }
    {
        let mut numbers = self.from..self.to.min(store.len());
        numbers.any(|k| self.is_owed(k) && message_at(store, k).location == location)
    }

    // the arrival number of the owed message of the location with that end
    pub(crate) fn find<S: Store>(&self, store: &S, location: u8, end: End) -> Option<usize>
        ensures { result ≡ find_owed location end self.now.marks (S.Store.held store.now) }
    {
        let mut numbers = self.from..self.to.min(store.len());
        numbers.find(|k| self.is_owed(*k) && message_at(store, *k).ends_at(location, end))
    }
}
