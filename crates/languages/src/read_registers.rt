// How register lines are read.
ghost use Rattle.languages.specs.RegisterLines.{register_lines, RegisterFits};
ghost use Rattle.languages.specs.declared.registers.RegisterLine.{RegisterLine};
ghost use Rattle.languages.specs.RegisterCodec.{register_codec};

use crate::action::{FenceKind, ReadMode, WriteMode};
use crate::registers::RegisterLine;
use lines::MOST_VALUE;
use lines::family::Spelled;
use lines::reader::Numbers;
use lines::scope::Scope;

#[derive(Clone, Copy)]
pub enum RegisterKind {
    Constant,
    Add,
    Equal,
    Branch,
    Load,
    Store,
    FetchAdd,
    CompareExchange,
    Fence,
    Print,
}

impl Spelled for RegisterLine {
    type Kind = RegisterKind;

    type Scope = Scope;

    ghost Shown = { RegisterLine };

    ghost shown = { λ a. a };

    ghost family = { λ s. register_lines s.locations };

    ghost Fits = { λ s. RegisterFits s.locations };

    ghost codec = { λ s. register_codec s.locations s.some_locations.1 };

    fn kind_of(letter: char) -> Option<RegisterKind> {
        match letter {
            'C' => Some(RegisterKind::Constant),
            'A' => Some(RegisterKind::Add),
            'Q' => Some(RegisterKind::Equal),
            'B' => Some(RegisterKind::Branch),
            'L' => Some(RegisterKind::Load),
            'S' => Some(RegisterKind::Store),
            'U' => Some(RegisterKind::FetchAdd),
            'K' => Some(RegisterKind::CompareExchange),
            'F' => Some(RegisterKind::Fence),
            'P' => Some(RegisterKind::Print),
            _ => None,
        }
    }

    fn limits(kind: RegisterKind, scope: Scope) -> Numbers {
        let last = u32::from(scope.locations() - 1);
        match kind {
            RegisterKind::Constant => Numbers::from_slice(&[7, MOST_VALUE], 0),
            RegisterKind::Add | RegisterKind::Equal => Numbers::from_slice(&[7, 7, 7], 0),
            RegisterKind::Branch => Numbers::from_slice(&[7, 64], 0),
            RegisterKind::Load => Numbers::from_slice(&[7, last, 1], 0),
            RegisterKind::Store => Numbers::from_slice(&[last, 7, 1], 0),
            RegisterKind::FetchAdd => Numbers::from_slice(&[7, last, 7, 1, 1], 0),
            RegisterKind::CompareExchange => Numbers::from_slice(&[7, last, 7, 7, 1, 1], 0),
            RegisterKind::Fence => Numbers::from_slice(&[3], 0),
            RegisterKind::Print => Numbers::from_slice(&[7], 0),
        }
    }

    fn make(kind: RegisterKind, numbers: &[u32]) -> Option<RegisterLine> {
        match (kind, numbers) {
            (RegisterKind::Constant, [register, value]) => Some(RegisterLine::Constant {
                register: u8::try_from(*register).ok()?,
                value: u16::try_from(*value).ok()?,
            }),
            (RegisterKind::Add, [register, left, right]) => Some(RegisterLine::Add {
                register: u8::try_from(*register).ok()?,
                left: u8::try_from(*left).ok()?,
                right: u8::try_from(*right).ok()?,
            }),
            (RegisterKind::Equal, [register, left, right]) => Some(RegisterLine::Equal {
                register: u8::try_from(*register).ok()?,
                left: u8::try_from(*left).ok()?,
                right: u8::try_from(*right).ok()?,
            }),
            (RegisterKind::Branch, [register, line]) => Some(RegisterLine::Branch {
                register: u8::try_from(*register).ok()?,
                line: u8::try_from(*line).ok()?,
            }),
            (RegisterKind::Load, [register, location, mode]) => Some(RegisterLine::Load {
                register: u8::try_from(*register).ok()?,
                location: u8::try_from(*location).ok()?,
                mode: ReadMode::try_from(*mode).ok()?,
            }),
            (RegisterKind::Store, [location, register, mode]) => Some(RegisterLine::Store {
                location: u8::try_from(*location).ok()?,
                register: u8::try_from(*register).ok()?,
                mode: WriteMode::try_from(*mode).ok()?,
            }),
            (RegisterKind::FetchAdd, [register, location, addend, read, write]) => {
                Some(RegisterLine::FetchAdd {
                    register: u8::try_from(*register).ok()?,
                    location: u8::try_from(*location).ok()?,
                    addend: u8::try_from(*addend).ok()?,
                    read: ReadMode::try_from(*read).ok()?,
                    write: WriteMode::try_from(*write).ok()?,
                })
            }
            (RegisterKind::CompareExchange, [register, location, expected, desired, read, write]) =>
                Some(RegisterLine::CompareExchange {
                    register: u8::try_from(*register).ok()?,
                    location: u8::try_from(*location).ok()?,
                    expected: u8::try_from(*expected).ok()?,
                    desired: u8::try_from(*desired).ok()?,
                    read: ReadMode::try_from(*read).ok()?,
                    write: WriteMode::try_from(*write).ok()?,
                }),
            (RegisterKind::Fence, [kind]) => Some(RegisterLine::Fence {
                kind: FenceKind::try_from(*kind).ok()?,
            }),
            (RegisterKind::Print, [register]) => Some(RegisterLine::Print {
                register: u8::try_from(*register).ok()?,
            }),
            _ => None,
        }
    }
}
