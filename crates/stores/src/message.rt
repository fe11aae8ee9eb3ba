// A message: a value at a location over a span, with the view that it carries.
ghost use Rattle.std.specs.Prelude.{◌≡◌};
ghost use Rattle.stores.specs.Memory.{ends_at, overlaps, zero_message};
ghost use Rattle.stores.specs.StoreLaws.{EndsAt, Overlaps};
ghost use Rattle.stores.specs.ViewLaws.{Decides};

use crate::view::View;
use lines::End;
use lines::span::Span;

#[derive(Clone, Copy, PartialEq, Eq, Debug)]
pub struct Message {
    pub location: u8,
    pub span: Span,
    pub value: u16,
    pub view: View,
}

impl Message {
    pub fn zero() -> Message
        ensures { result ≡ zero_message }
    {
        Message {
            location: 0,
            span: Span { from: 0, to: 0 },
            value: 0,
            view: View { ends: [0; 8] },
        }
    }

    #[tactic(auto, using(crate::proofs::StoreLaws::ends_at_law))]
    pub fn ends_at(&self, location: u8, end: End) -> bool
        ensures value { result ≡ ends_at location end self.now }
        ensures exact { Decides result (EndsAt location end self.now) }
    {
        self.location == location && self.span.to == end
    }

    // whether the message is at the location and its span overlaps that one
    #[tactic(auto, using(crate::proofs::StoreLaws::overlaps_law))]
    pub fn overlaps(&self, location: u8, span: Span) -> bool
        ensures value { result ≡ overlaps location span self.now }
        ensures exact { Decides result (Overlaps location span self.now) }
    {
        self.location == location && span.from < self.span.to && self.span.from < span.to
    }
}
