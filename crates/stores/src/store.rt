// A message store: messages in order of arrival, up to a capacity.
ghost use Rattle.std.specs.Prelude.{◌≡◌, ℕ, ◌<◌, ◌≤◌, List, length, take, IfSome};
ghost use Rattle.stores.specs.declared.message.Message.{Message};
ghost use Rattle.stores.specs.Memory.{add_answer, added, find, is_free, greatest_end, nth};
ghost use Rattle.stores.specs.StoreLaws.{Finds, Free, Greatest};
ghost use Rattle.stores.specs.ViewLaws.{Decides};

use crate::kept::{Kept, StoreFault};
use crate::message::Message;
use lines::End;
use lines::span::Span;

pub trait Store: Drop {
    // the messages, in order of arrival
    ghost held: { Self → List Message };

    ghost capacity: { Self → ℕ };

    // refused, with nothing changed, exactly when the list has reached its capacity
    fn add(&mut self, message: Message) -> Result<(), StoreFault>
        ensures value { result ≡ add_answer (capacity self.old) (held self.old) }
        ensures after { held self.new ≡ added (capacity self.old) message (held self.old) }
        ensures same { capacity self.new ≡ capacity self.old };

    // the arrival number of the message of the location with that end; of several the first
    fn find(&self, location: u8, end: End) -> Option<usize>
        ensures value { result ≡ find location end (held self.now) }
        ensures inside { IfSome result (λ k. k < length (held self.now)) }
        ensures exact { Finds location end (held self.now) result };

    // whether the span overlaps no message of the location
    fn is_free(&self, location: u8, span: Span) -> bool
        ensures value { result ≡ is_free location span (held self.now) }
        ensures exact { Decides result (Free location span (held self.now)) };

    // 0 where the location has no message
    fn greatest_end(&self, location: u8) -> End
        ensures value { result ≡ greatest_end location (held self.now) }
        ensures exact { Greatest location (held self.now) result };

    // the k-th message from 0
    fn nth(&self, k: usize) -> Kept
        ensures { result ≡ nth k (held self.now) };

    fn len(&self) -> usize
        ensures { result ≡ length (held self.now) };

    // keeps only the first n messages
    fn keep(&mut self, n: usize)
        ensures after { held self.new ≡ take n (held self.old) }
        ensures same { capacity self.new ≡ capacity self.old };

    ghost bounded: { (s : Self) → length (held s) ≤ capacity s };

    ghost small: { (s : Self) → capacity s ≤ 64 };
}
