// The span (from, to] of a message.
use crate::End;

#[derive(Clone, Copy, PartialEq, Eq, Debug)]
pub struct Span {
    pub from: End,
    pub to: End,
}
