// The log of prints.
ghost use Rattle.std.specs.Prelude.{◌≡◌, ◌≤◌, [], length, take, slice_get, if◌then◌else◌, nat_lt, Ok, Err};
ghost use Rattle.bounded.specs.Bounds.{push_within};
ghost use Rattle.rules.specs.declared.fault.StepFault.TheVariants.{LogFull};

use crate::parts::Print;
use bounded::Bounded;
use rules::fault::StepFault;
use std::marker::Model;

// The prints, in order.
#[derive(Drop)]
pub struct Log {
    prints: Bounded<Print, 64>,
}

impl Model for Log {
    ghost use Rattle.std.specs.Prelude.{List};
    ghost use Rattle.run.specs.declared.parts.Print.{Print};

    ghost Value = { List Print };

    ghost view = { λ l. l.prints };
}

impl Log {
    pub(crate) fn new() -> Log
        ensures { result ≡ [] }
    {
        let filler = Print {
            thread: 0,
            value: 0,
        };
        Log {
            prints: Bounded::new(filler),
        }
    }

    // refused, with nothing changed, when there are 64 prints
    pub(crate) fn add(&mut self, print: Print) -> Result<(), StepFault>
        ensures value { result ≡ (if nat_lt (length self.old) 64 then Ok tt else Err LogFull) }
        ensures after { self.new ≡ push_within 64 self.old print }
    {
        self.prints.push(print).map_err(|_| StepFault::LogFull)
    }

    pub(crate) fn len(&self) -> usize
        ensures value { result ≡ length self.now }
        ensures few { result ≤ 64 }
    {
        self.prints.len()
    }

    // the k-th print from 0
    pub(crate) fn nth(&self, k: usize) -> Option<Print>
        ensures { result ≡ slice_get self.now k }
    {
        self.prints.get(k)
    }

    // keeps only the first n prints
    pub(crate) fn keep(&mut self, n: usize)
        ensures { self.new ≡ take n self.old }
    {
        self.prints.truncate(n);
    }
}
