// The flat store: the messages as they arrived, in an array.
ghost use Rattle.std.specs.Prelude.{◌≡◌, ◌≤◌, [], length, drop};
ghost use Rattle.stores.specs.Memory.{overlap_from};
ghost use Rattle.std.proofs.Common.{rules};

use crate::kept::{Kept, StoreFault};
use crate::message::Message;
use crate::store::Store;
use bounded::Bounded;
use lines::End;
use lines::span::Span;

#[derive(Drop)]
pub struct Flat {
    messages: Bounded<Message, 64>,
    ghost few: { length messages ≤ 64 },
}

impl Flat {
    pub fn new() -> Flat
        ensures { result.messages ≡ [] }
    {
        Flat {
            messages: Bounded::new(Message::zero()),
        }
    }

    // the messages from the n-th on
    pub fn since(&self, n: usize) -> &[Message]
        ensures { result.now ≡ drop n self.now.messages }
    {
        let messages = self.messages.as_slice();
        &messages[n.min(messages.len())..]
    }

    // The arrival number of the first message of the location that overlaps the span.
    // Here and in `find` a loop, and no `position`: a rule of the project.
    fn first_overlap(&self, location: u8, span: Span) -> Option<usize>
        ensures { result ≡ overlap_from 0 location span self.now.messages }
    {
        for (k, m) in self.messages.as_slice().iter().enumerate() {
            if m.overlaps(location, span) {
                return Some(k);
            }
        }
        None
    }
}

impl Store for Flat {
    ghost held = { λ s. s.messages };

    ghost capacity = { λ _. 64 };

    ghost bounded = { Prim.search rules };

    ghost small = { Prim.search rules };

    fn add(&mut self, message: Message) -> Result<(), StoreFault> {
        self.messages.push(message)?;
        Ok(())
    }

    fn find(&self, location: u8, end: End) -> Option<usize> {
        for (k, m) in self.messages.as_slice().iter().enumerate() {
            if m.ends_at(location, end) {
                return Some(k);
            }
        }
        None
    }

    fn is_free(&self, location: u8, span: Span) -> bool {
        self.first_overlap(location, span).is_none()
    }

    fn greatest_end(&self, location: u8) -> End {
        let mut end = 0;
        for m in self.messages.as_slice() {
            if m.location == location {
                end = m.span.to.max(end);
            }
        }
        end
    }

    fn nth(&self, k: usize) -> Kept {
        let message = self.messages.get(k);
        Kept {
            there: message.is_some(),
            message: message.unwrap_or(Message::zero()),
        }
    }

    fn len(&self) -> usize {
        self.messages.len()
    }

    fn keep(&mut self, n: usize) {
        self.messages.truncate(n);
    }
}
