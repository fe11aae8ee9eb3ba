// How strip lines are read.
ghost use Rattle.languages.specs.StripLines.{strip_lines, StripFits};
ghost use Rattle.languages.specs.declared.strips.StripLine.{StripLine};
ghost use Rattle.languages.specs.StripCodec.{strip_codec};

use crate::action::{FenceKind, ReadMode, WriteMode};
use crate::strips::StripLine;
use lines::MOST_VALUE;
use lines::family::Spelled;
use lines::reader::Numbers;
use lines::scope::Scope;

#[derive(Clone, Copy)]
pub enum StripKind {
    Read,
    Store,
    FetchAdd,
    Fence,
    Print,
}

impl Spelled for StripLine {
    type Kind = StripKind;

    type Scope = Scope;

    ghost Shown = { StripLine };

    ghost shown = { λ a. a };

    ghost family = { λ s. strip_lines s.locations };

    ghost Fits = { λ s. StripFits s.locations };

    ghost codec = { λ s. strip_codec s.locations s.some_locations.1 };

    fn kind_of(letter: char) -> Option<StripKind> {
        match letter {
            'R' => Some(StripKind::Read),
            'S' => Some(StripKind::Store),
            'U' => Some(StripKind::FetchAdd),
            'F' => Some(StripKind::Fence),
            'P' => Some(StripKind::Print),
            _ => None,
        }
    }

    fn limits(kind: StripKind, scope: Scope) -> Numbers {
        let last = u32::from(scope.locations() - 1);
        match kind {
            StripKind::Read | StripKind::Store => Numbers::from_slice(&[last, MOST_VALUE, 1], 0),
            StripKind::FetchAdd => Numbers::from_slice(&[last, MOST_VALUE, 1, 1], 0),
            StripKind::Fence => Numbers::from_slice(&[3], 0),
            StripKind::Print => Numbers::from_slice(&[MOST_VALUE], 0),
        }
    }

    fn make(kind: StripKind, numbers: &[u32]) -> Option<StripLine> {
        match (kind, numbers) {
            (StripKind::Read, [location, value, mode]) => Some(StripLine::Read {
                location: u8::try_from(*location).ok()?,
                value: u16::try_from(*value).ok()?,
                mode: ReadMode::try_from(*mode).ok()?,
            }),
            (StripKind::Store, [location, value, mode]) => Some(StripLine::Store {
                location: u8::try_from(*location).ok()?,
                value: u16::try_from(*value).ok()?,
                mode: WriteMode::try_from(*mode).ok()?,
            }),
            (StripKind::FetchAdd, [location, value, read, write]) => Some(StripLine::FetchAdd {
                location: u8::try_from(*location).ok()?,
                value: u16::try_from(*value).ok()?,
                read: ReadMode::try_from(*read).ok()?,
                write: WriteMode::try_from(*write).ok()?,
            }),
            (StripKind::Fence, [kind]) => Some(StripLine::Fence {
                kind: FenceKind::try_from(*kind).ok()?,
            }),
            (StripKind::Print, [value]) => Some(StripLine::Print {
                value: u16::try_from(*value).ok()?,
            }),
            _ => None,
        }
    }
}
