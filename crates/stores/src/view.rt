// A view: one end for each of eight locations, 0 where unused.
ghost use Rattle.std.specs.Prelude.{◌≡◌};
ghost use Rattle.stores.specs.ViewLaws.{Decides, GreaterAtEach, LeastUpperBound, Least, OnlyAt};
ghost use Rattle.stores.specs.Views.{at, zero_view, single, join, at_most, Below};

use lines::End;
use std::array;

#[derive(Clone, Copy, PartialEq, Eq, Debug)]
pub struct View {
    pub ends: [End; 8],
}

impl View {
    #[tactic(auto, using(crate::proofs::ViewLaws::zero_law))]
    pub fn zero() -> View
        ensures value { result ≡ zero_view }
        ensures least { Least result }
    {
        View { ends: [0; 8] }
    }

    // {x@t}: the end t at location x, and 0 elsewhere
    // A product at each location: all eight are made at once, with no jump.
    #[inline(always)]
    pub fn single(location: u8, end: End) -> View
        ensures value { result ≡ single location end }
        ensures places { OnlyAt location end result }
    {
        View {
            ends: array::from_fn(|x| end * End::from(x as u16 == u16::from(location))),
        }
    }

    // 0 past the last location
    #[inline(always)]
    pub fn at(self, location: u8) -> End
        ensures { result ≡ at self location }
    {
        self.ends.get(usize::from(location)).copied().unwrap_or(0)
    }

    #[inline(always)]
    pub fn join(self, other: View) -> View
        ensures value { result ≡ join self other }
        ensures places { GreaterAtEach self other result }
        ensures bound { LeastUpperBound self other result }
    {
        View {
            ends: array::from_fn(|x| self.ends[x].max(other.ends[x])),
        }
    }

    // whether this view is at most the other at each location
    // No PartialOrd: a derived one would go by the first ends that differ, and views are ordered in part.
    pub fn at_most(self, other: View) -> bool
        ensures value { result ≡ at_most self other }
        ensures order { Decides result (Below self other) }
    {
        self.ends.iter().zip(&other.ends).all(|(a, b)| a <= b)
    }
}
