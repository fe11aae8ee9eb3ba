// What a thread does next.

#[derive(Clone, Copy, PartialEq, Eq, Debug)]
pub enum ReadMode {
    Relaxed,
    Acquire,
}

#[derive(Clone, Copy, PartialEq, Eq, Debug)]
pub enum WriteMode {
    Relaxed,
    Release,
}

#[derive(Clone, Copy, PartialEq, Eq, Debug)]
pub enum FenceKind {
    Acquire,
    Release,
    Both,
    Sequential,
}

#[derive(Clone, Copy, PartialEq, Eq, Debug)]
pub enum Action {
    Silent,
    Read {
        location: u8,
        mode: ReadMode,
    },
    Write {
        location: u8,
        value: u16,
        mode: WriteMode,
    },
    Update {
        location: u8,
        read: ReadMode,
        write: WriteMode,
    },
    Fence {
        kind: FenceKind,
    },
    Print {
        value: u16,
    },
    Ended,
}

// What a thread says of a value that it could read.
#[derive(Clone, Copy, PartialEq, Eq, Debug)]
pub enum Taking {
    NotTaken,
    OnlyRead,
    Replaced { value: u16 },
}
