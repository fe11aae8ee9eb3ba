// The parts of a run that know neither its language nor its store.
ghost use Rattle.std.specs.Prelude.{◌≡◌, ℕ, ◌<◌, ◌≤◌, false, length, slice_index_or};
ghost use Rattle.std.specs.List.{count_by};
ghost use Rattle.stores.specs.Views.{Below};
ghost use Rattle.run.specs.Orders.{AllBelow};

pub use crate::log::Log;
use lines::scope::Scope;
use stores::view::View;

// The views of a thread, with rel(x) ≤ cur ≤ acq at each place.
#[derive(Clone, Copy)]
pub struct ThreadViews {
    pub(crate) cur: View,
    pub(crate) acq: View,
    pub(crate) rel: [View; 8],
    ghost eight: { length rel ≡ 8 },
    ghost cur_acq: { Below cur acq },
    ghost rel_cur: { AllBelow rel cur },
}

// A mark for each arrival number, set where the thread owes that message; how many are set, and between which
// numbers all of them lie, so that what is owed is found without a look at every mark.
// Beside the messages, since a message knows no thread and the store no marks.
#[derive(Clone, Copy)]
pub struct Owed {
    pub(crate) marks: [bool; 64],
    pub(crate) count: usize,
    pub(crate) from: usize,
    pub(crate) to: usize,
    ghost whole: { length marks ≡ 64 },
    ghost counted: { count ≡ count_by (λ mark. mark) marks },
    ghost before: { (k : ℕ) → k < from → slice_index_or marks k false ≡ false },
    ghost past: { (k : ℕ) → to ≤ k → slice_index_or marks k false ≡ false },
}

// The closing line of a showing: the greatest end of each location when it began.
#[derive(Clone, Copy)]
pub struct Closing {
    pub(crate) ends: View,
}

// Whose turn or showing it is, in a run of so many threads and locations; in a showing the closing line.
#[derive(Clone, Copy)]
pub(crate) struct Turn {
    pub(crate) who: u8,
    pub(crate) scope: Scope,
    pub(crate) closing: Option<Closing>,
}

// A value that a thread printed.
#[derive(Clone, Copy)]
pub struct Print {
    pub thread: u8,
    pub value: u16,
}
