// The lines of a register program.
use crate::action::{FenceKind, ReadMode, WriteMode};

#[derive(Clone, Copy, PartialEq, Eq, Debug)]
pub enum RegisterLine {
    // C r v: sets r to v
    Constant {
        register: u8,
        value: u16,
    },
    // A r s u: sets r to s + u modulo 65,536
    Add {
        register: u8,
        left: u8,
        right: u8,
    },
    // Q r s u: sets r to 1 if s equals u, else 0
    Equal {
        register: u8,
        left: u8,
        right: u8,
    },
    // B r k: goes to line k if r is not 0
    Branch {
        register: u8,
        line: u8,
    },
    // L r x o: reads x into r
    Load {
        register: u8,
        location: u8,
        mode: ReadMode,
    },
    // S x s o: writes s to x
    Store {
        location: u8,
        register: u8,
        mode: WriteMode,
    },
    // U r x s o p: adds s to x, and puts the value read into r
    FetchAdd {
        register: u8,
        location: u8,
        addend: u8,
        read: ReadMode,
        write: WriteMode,
    },
    // K r x s u o p: writes u to x if the value read equals s, and puts the value read into r
    CompareExchange {
        register: u8,
        location: u8,
        expected: u8,
        desired: u8,
        read: ReadMode,
        write: WriteMode,
    },
    // F o
    Fence {
        kind: FenceKind,
    },
    // P s: prints s
    Print {
        register: u8,
    },
}
