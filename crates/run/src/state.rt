// What a run holds.
ghost use Rattle.std.specs.Prelude.{◌≡◌, ◌<◌, length};
ghost use Rattle.run.specs.Turns.{whose};

use crate::log::Log;
use crate::parts::{Closing, Owed, ThreadViews};
use lines::scope::Scope;
use stores::view::View;

// Copied with its language: a run of threads that are `Copy` can be let go in generic code.
#[derive(Clone, Copy, Drop)]
pub struct Thread<L> {
    pub(crate) state: L,
    pub(crate) views: ThreadViews,
    pub(crate) owed: Owed,
}

// What the threads share: the messages, the view S and the prints.
#[derive(Drop)]
pub struct Shared<S> {
    pub(crate) store: S,
    pub(crate) sc: View,
    pub(crate) log: Log,
}

// What a showing puts back when it ends, and its closing line.
#[derive(Drop)]
pub struct Saved<L> {
    pub(crate) thread: Thread<L>,
    pub(crate) sc: View,
    pub(crate) messages: usize,
    pub(crate) prints: usize,
    pub(crate) closing: Closing,
}

#[derive(Drop)]
pub enum Phase<L> {
    Between,
    Turn(u8),
    Showing(u8, Saved<L>),
}

// A run of the first of the threads, as many as its scope says.
// They are an array: a list of bounded length copies its elements, and a thread's language need not be Copy.
#[derive(Drop)]
pub struct Run<L, S> {
    pub(crate) scope: Scope,
    pub(crate) threads: [Thread<L>; 4],
    pub(crate) shared: Shared<S>,
    pub(crate) phase: Phase<L>,
    ghost whole: { length threads ≡ 4 },
    ghost turn_of: { whose phase < scope.threads },
}
