// The lines of a strip program, which run straight through.
use crate::action::{FenceKind, ReadMode, WriteMode};

#[derive(Clone, Copy, PartialEq, Eq, Debug)]
pub enum StripLine {
    // R x v o: reads x, and takes only v
    Read {
        location: u8,
        value: u16,
        mode: ReadMode,
    },
    // S x v o: writes v to x
    Store {
        location: u8,
        value: u16,
        mode: WriteMode,
    },
    // U x v o p: adds v to x
    FetchAdd {
        location: u8,
        value: u16,
        read: ReadMode,
        write: WriteMode,
    },
    // F o
    Fence {
        kind: FenceKind,
    },
    // P v: prints v
    Print {
        value: u16,
    },
}
