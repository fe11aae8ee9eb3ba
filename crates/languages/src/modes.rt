// The numbers of modes and fences in program lines.
ghost use Rattle.std.specs.Prelude.{◌≤◌};
ghost use Rattle.std.specs.Result.{OkIff};
ghost use Rattle.languages.specs.Modes.{read_mode, write_mode, fence_kind};

use crate::action::{FenceKind, ReadMode, WriteMode};
use lines::reader::LineFault;

// An impl for each type, since each has values of its own.
impl TryFrom<u32> for ReadMode {
    type Error = LineFault;

    ghost try_from_gives = { λ number mode. OkIff mode (number ≤ 1) (read_mode number) };

    fn try_from(number: u32) -> Result<ReadMode, LineFault> {
        match number {
            0 => Ok(ReadMode::Relaxed),
            1 => Ok(ReadMode::Acquire),
            _ => Err(LineFault::Range),
        }
    }
}

impl TryFrom<u32> for WriteMode {
    type Error = LineFault;

    ghost try_from_gives = { λ number mode. OkIff mode (number ≤ 1) (write_mode number) };

    fn try_from(number: u32) -> Result<WriteMode, LineFault> {
        match number {
            0 => Ok(WriteMode::Relaxed),
            1 => Ok(WriteMode::Release),
            _ => Err(LineFault::Range),
        }
    }
}

impl TryFrom<u32> for FenceKind {
    type Error = LineFault;

    ghost try_from_gives = { λ number kind. OkIff kind (number ≤ 3) (fence_kind number) };

    fn try_from(number: u32) -> Result<FenceKind, LineFault> {
        match number {
            0 => Ok(FenceKind::Acquire),
            1 => Ok(FenceKind::Release),
            2 => Ok(FenceKind::Both),
            3 => Ok(FenceKind::Sequential),
            _ => Err(LineFault::Range),
        }
    }
}
