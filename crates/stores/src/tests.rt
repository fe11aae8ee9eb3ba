// Views, and every question asked of the flat store and of a store with room for three.
ghost use Rattle.std.specs.Prelude.{◌≤◌, length};
ghost use Rattle.std.proofs.Common.{rules};

use crate::flat::Flat;
use crate::kept::{Kept, StoreFault};
use crate::message::Message;
use crate::store::Store;
use crate::view::View;
use lines::End;
use lines::span::Span;
use std::process::Abort;
use std::test::Fail;

#[derive(Drop)]
struct Small {
    inner: Flat,
    ghost few: { length (inner.messages) ≤ 3 },
}

impl Store for Small {
    ghost held = { λ s. s.inner.messages };

    ghost capacity = { λ _. 3 };

    ghost bounded = { Prim.search rules };

    ghost small = { Prim.search rules };

    fn add(&mut self, message: Message) -> Result<(), StoreFault> {
        if self.inner.len() == 3 {
            return Err(StoreFault::Full);
        }
        self.inner.add(message)
    }

    fn find(&self, location: u8, end: End) -> Option<usize> {
        self.inner.find(location, end)
    }

    fn is_free(&self, location: u8, span: Span) -> bool {
        self.inner.is_free(location, span)
    }

    fn greatest_end(&self, location: u8) -> End {
        self.inner.greatest_end(location)
    }

    fn nth(&self, k: usize) -> Kept {
        self.inner.nth(k)
    }

    fn len(&self) -> usize {
        self.inner.len()
    }

    fn keep(&mut self, n: usize) {
        self.inner.keep(n)
    }
}

fn message(location: u8, from: End, to: End, value: u16) -> Message {
    Message {
        location,
        span: Span { from, to },
        value,
        view: View::single(location, to),
    }
}

fn answers<S: Store>(rt: &impl Abort, store: &mut S) -> Result<(), Fail> {
    store.add(message(1, 0, 0, 0))?;
    store.add(message(1, 3, 5, 7))?;
    store.add(message(2, 0, 9, 8))?;
    assert_eq!(rt; store.len(), 3);
    assert_eq!(rt; store.find(1, 5), Some(1));
    assert_eq!(rt; store.find(2, 5), None);
    assert!(rt; store.is_free(1, Span { from: 5, to: 7 }));
    assert!(rt; !store.is_free(1, Span { from: 4, to: 7 }));
    assert_eq!(rt; store.greatest_end(1), 5);
    assert_eq!(rt; store.greatest_end(3), 0);
    assert_eq!(rt;
        store.nth(2),
        Kept {
            there: true,
            message: message(2, 0, 9, 8)
        }
    );
    assert_eq!(rt;
        store.nth(3),
        Kept {
            there: false,
            message: Message::zero()
        }
    );
    store.keep(2);
    assert_eq!(rt; store.len(), 2);
    assert_eq!(rt; store.find(2, 9), None);
    Ok(())
}

#[test]
fn flat_answers(rt: HostRuntime) -> Result<(), Fail> {
    let mut store = Flat::new();
    answers(&rt, &mut store)
}

#[test]
fn small_answers_and_refuses(rt: HostRuntime) -> Result<(), Fail> {
    let mut store = Small { inner: Flat::new() };
    answers(&rt, &mut store)?;
    store.add(message(2, 0, 4, 1))?;
    assert_eq!(rt; store.add(message(2, 4, 5, 1)), Err(StoreFault::Full));
    assert_eq!(rt; store.len(), 3);
    Ok(())
}

#[test]
fn views_join(rt: HostRuntime) {
    let a = View::single(1, 5).join(View::single(2, 3));
    let b = a.join(View::single(1, 4));
    assert_eq!(rt;
        b,
        View {
            ends: [0, 5, 3, 0, 0, 0, 0, 0]
        }
    );
    assert_eq!(rt; b.at(2), 3);
    assert_eq!(rt; b.at(8), 0);
    assert!(rt; b.at_most(a));
    assert!(rt; !a.at_most(View::single(1, 5)));
}
