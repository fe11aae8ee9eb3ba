// Every question asked of the row store and of the flat one.
use crate::rows::Rows;
use lines::End;
use lines::span::Span;
use std::process::Abort;
use std::test::Fail;
use stores::flat::Flat;
use stores::kept::{Kept, StoreFault};
use stores::message::Message;
use stores::store::Store;
use stores::view::View;

fn message(location: u8, from: End, to: End, value: u16) -> Message {
    Message {
        location,
        span: Span { from, to },
        value,
        view: View::zero(),
    }
}

// out of order of their ends, two with one end, and two at no location of a view
fn arrive<S: Store>(rt: &impl Abort, store: &mut S) -> Result<(), Fail> {
    store.add(message(1, 6, 9, 1))?;
    store.add(message(1, 0, 0, 2))?;
    store.add(message(2, 1, 4, 3))?;
    store.add(message(1, 3, 5, 4))?;
    store.add(message(1, 4, 5, 5))?;
    store.add(message(9, 0, 7, 6))?;
    store.add(message(200, 2, 7, 7))?;
    assert_eq!(rt; store.len(), 7);
    Ok(())
}

fn answers<S: Store>(rt: &impl Abort, store: &S) {
    assert_eq!(rt; store.find(1, 5), Some(3));
    assert_eq!(rt; store.find(1, 9), Some(0));
    assert_eq!(rt; store.find(1, 4), None);
    assert_eq!(rt; store.find(200, 7), Some(6));
    assert!(rt; store.is_free(1, Span { from: 5, to: 6 }));
    assert!(rt; !store.is_free(1, Span { from: 5, to: 7 }));
    assert!(rt; store.is_free(9, Span { from: 7, to: 8 }));
    assert!(rt; !store.is_free(200, Span { from: 0, to: 3 }));
    assert_eq!(rt; store.greatest_end(1), 9);
    assert_eq!(rt; store.greatest_end(9), 7);
    assert_eq!(rt; store.greatest_end(10), 0);
    assert_eq!(rt;
        store.nth(4),
        Kept {
            there: true,
            message: message(1, 4, 5, 5)
        }
    );
    assert_eq!(rt;
        store.nth(7),
        Kept {
            there: false,
            message: Message::zero()
        }
    );
}

fn shortened<S: Store>(rt: &impl Abort, store: &mut S) {
    store.keep(2);
    assert_eq!(rt; store.len(), 2);
    assert_eq!(rt; store.find(1, 5), None);
    assert_eq!(rt; store.find(1, 0), Some(1));
    assert!(rt; store.is_free(1, Span { from: 0, to: 6 }));
    store.keep(0);
    assert_eq!(rt; store.greatest_end(1), 0);
}

fn asked<S: Store>(rt: &impl Abort, store: &mut S) -> Result<(), Fail> {
    arrive(rt, store)?;
    answers(rt, store);
    shortened(rt, store);
    Ok(())
}

#[test]
fn rows_answer(rt: HostRuntime) -> Result<(), Fail> {
    let mut store = Rows::new();
    asked(&rt, &mut store)
}

#[test]
fn flat_answers(rt: HostRuntime) -> Result<(), Fail> {
    let mut store = Flat::new();
    asked(&rt, &mut store)
}

#[test]
fn rows_fill(rt: HostRuntime) -> Result<(), Fail> {
    let mut store = Rows::new();
    for k in 0..64 {
        store.add(message(3, 1000 - k, 1000 - k, k))?;
    }
    assert_eq!(rt; store.add(message(3, 1, 2, 3)), Err(StoreFault::Full));
    assert_eq!(rt; store.len(), 64);
    assert_eq!(rt; store.find(3, 1000), Some(0));
    assert_eq!(rt; store.find(3, 937), Some(63));
    assert_eq!(rt; store.greatest_end(3), 1000);
    Ok(())
}
