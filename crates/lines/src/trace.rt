// The lines of a trace.
ghost use Rattle.std.specs.Prelude.{◌≡◌, ◌≤◌, Some};
ghost use Rattle.lines.specs.TraceLines.{most_end, trace_lines, TraceFits};
ghost use Rattle.lines.specs.declared.trace.Line.{Line};
ghost use Rattle.lines.specs.TraceCodec.{trace_codec};

use crate::family::Spelled;
use crate::reader::Numbers;
use crate::scope::Scope;
use crate::span::Span;
use crate::{End, MOST_END, MOST_VALUE};

#[derive(Clone, Copy, PartialEq, Eq, Debug)]
pub enum Line {
    // T i: begins the turn of a thread
    Turn {
        thread: u8,
    },
    // N: a silent step, a fence or a print
    Next,
    // R t: reads the message that ends at t
    Read {
        end: End,
    },
    // W f t: writes a message with the span (f, t]
    Write {
        span: Span,
    },
    // U f t: reads the message that ends at f, and writes one with the span (f, t]
    Update {
        span: Span,
    },
    // G x v f t: promises a message
    Promise {
        location: u8,
        value: u16,
        span: Span,
    },
    // H t: keeps the promise that ends at t
    Keep {
        end: End,
    },
    // X: opens a showing
    Show,
    // E: ends the turn
    EndTurn,
}

#[derive(Clone, Copy)]
pub enum Kind {
    Turn,
    Next,
    Read,
    Write,
    Update,
    Promise,
    Keep,
    Show,
    EndTurn,
}

// The span that two numbers make, none where one is too large for an end.
fn span_of(from: u32, to: u32) -> Option<Span>
    ensures { (from ≤ most_end) → (to ≤ most_end) → result ≡ Some (record { from = from; to = to }) }
{
    Some(Span {
        from: End::try_from(from).ok()?,
        to: End::try_from(to).ok()?,
    })
}

impl Spelled for Line {
    type Kind = Kind;

    type Scope = Scope;

    ghost Shown = { Line };

    ghost shown = { λ a. a };

    ghost family = { λ s. trace_lines s.threads s.locations };

    ghost Fits = { λ s. TraceFits s.threads s.locations };

    ghost codec = { λ s. trace_codec s.threads s.locations s.some_threads.1 s.some_locations.1 };

    fn kind_of(letter: char) -> Option<Kind> {
        match letter {
            'T' => Some(Kind::Turn),
            'N' => Some(Kind::Next),
            'R' => Some(Kind::Read),
            'W' => Some(Kind::Write),
            'U' => Some(Kind::Update),
            'G' => Some(Kind::Promise),
            'H' => Some(Kind::Keep),
            'X' => Some(Kind::Show),
            'E' => Some(Kind::EndTurn),
            _ => None,
        }
    }

    fn limits(kind: Kind, scope: Scope) -> Numbers {
        match kind {
            Kind::Turn => Numbers::from_slice(&[u32::from(scope.threads() - 1)], 0),
            Kind::Read | Kind::Keep => Numbers::from_slice(&[MOST_END], 0),
            Kind::Write | Kind::Update => Numbers::from_slice(&[MOST_END, MOST_END], 0),
            Kind::Promise => {
                let last = u32::from(scope.locations() - 1);
                Numbers::from_slice(&[last, MOST_VALUE, MOST_END, MOST_END], 0)
            }
            Kind::Next | Kind::Show | Kind::EndTurn => Numbers::new(0),
        }
    }

    #[inline(always)]
    fn make(kind: Kind, numbers: &[u32]) -> Option<Line> {
        match (kind, numbers) {
            (Kind::Turn, [thread]) => Some(Line::Turn {
                thread: u8::try_from(*thread).ok()?,
            }),
            (Kind::Next, []) => Some(Line::Next),
            (Kind::Read, [end]) => Some(Line::Read {
                end: End::try_from(*end).ok()?,
            }),
            (Kind::Write, [from, to]) => Some(Line::Write {
                span: span_of(*from, *to)?,
            }),
            (Kind::Update, [from, to]) => Some(Line::Update {
                span: span_of(*from, *to)?,
            }),
            (Kind::Promise, [location, value, from, to]) => Some(Line::Promise {
                location: u8::try_from(*location).ok()?,
                value: u16::try_from(*value).ok()?,
                span: span_of(*from, *to)?,
            }),
            (Kind::Keep, [end]) => Some(Line::Keep {
                end: End::try_from(*end).ok()?,
            }),
            (Kind::Show, []) => Some(Line::Show),
            (Kind::EndTurn, []) => Some(Line::EndTurn),
            _ => None,
        }
    }
}
