// The row store: the messages as they arrived, and a row for each location in order of their ends.
ghost use Rattle.std.specs.Prelude.{◌≡◌, []};
ghost use Rattle.rowstore.specs.Ordered.{Indexed};
ghost use Rattle.std.proofs.Common.{rules};

use crate::index::Index;
use lines::End;
use lines::span::Span;
use stores::flat::Flat;
use stores::kept::{Kept, StoreFault};
use stores::message::Message;
use stores::store::Store;

#[derive(Drop)]
pub struct Rows {
    arrivals: Flat,
    index: Index,
    ghost indexed: { Indexed arrivals.messages index },
}

impl Rows {
    pub fn new() -> Rows
        ensures { result.arrivals.messages ≡ [] }
    {
        Rows {
            arrivals: Flat::new(),
            index: Index::new(),
        }
    }
}

impl Store for Rows {
    ghost held = { λ s. s.arrivals.messages };

    ghost capacity = { λ _. 64 };

    ghost bounded = { Prim.search rules };

    ghost small = { Prim.search rules };

    #[inline(always)]
    fn add(&mut self, message: Message) -> Result<(), StoreFault> {
        let number = self.arrivals.len();
        self.arrivals.add(message)?;
        self.index.add(message, number as u8);
        Ok(())
    }

    #[inline(always)]
    fn find(&self, location: u8, end: End) -> Option<usize> {
        self.index.row(location).find(location, end)
    }

    #[inline(always)]
    fn is_free(&self, location: u8, span: Span) -> bool {
        self.index.row(location).is_free(location, span)
    }

    fn greatest_end(&self, location: u8) -> End {
        self.index.row(location).greatest_end(location)
    }

    #[inline(always)]
    fn nth(&self, k: usize) -> Kept {
        self.arrivals.nth(k)
    }

    #[inline(always)]
    fn len(&self) -> usize {
        self.arrivals.len()
    }

    fn keep(&mut self, n: usize) {
        self.index.keep(n, self.arrivals.since(n));
        self.arrivals.keep(n);
    }
}
