// A thread of a register program.
ghost use Rattle.std.specs.Prelude.{◌≡◌, ◌<◌, length, OnSome, slice_index, slice_set};
ghost use Rattle.languages.specs.Endings.{StaysEnded};
ghost use Rattle.languages.specs.Meanings.{line_at};
ghost use Rattle.languages.specs.Registers.{register_behaviour, register_start, register_state, line_means, in_range};
ghost use Rattle.languages.specs.Located.{register_located};

use crate::action::{Action, Taking};
use crate::current::{Ranged, line_at};
use crate::language::Language;
use crate::registers::RegisterLine;
use lines::MOST_LOCATIONS;

#[derive(Clone, Copy)]
pub struct RegisterThread<'a> {
    program: &'a [RegisterLine],
    line: usize,
    registers: [u16; 8],
}

impl<'a> RegisterThread<'a> {
    pub fn new(program: &'a [RegisterLine]) -> Self
        ensures start { register_behaviour result ≡ register_start program.now }
        ensures ended { StaysEnded (register_behaviour result) }
    {
        RegisterThread {
            program,
            line: 0,
            registers: [0; 8],
        }
    }

    // The line that the thread is at; with none it has ended.
    fn current(&self) -> Option<RegisterLine>
        ensures value { result ≡ line_at in_range self.now.program.now self.now.line }
        ensures within { OnSome result (self.now.line < length self.now.program.now) }
    {
        line_at(self.program, self.line)
    }

    // What a register holds.
    fn value(&self, register: u8) -> u16
        ensures { result ≡ slice_index self.now.registers register }
    {
        self.registers
            .get(usize::from(register))
            .copied()
            .unwrap_or(0)
    }

    fn put(&mut self, register: u8, value: u16)
        ensures registers { self.new.registers ≡ slice_set self.old.registers register value }
        ensures program { self.new.program.now ≡ self.old.program.now }
        ensures line { self.new.line ≡ self.old.line }
    {
        // By its place: what `get_mut` lends of an array in a struct gets no proof.
        let place = usize::from(register);
        if place < self.registers.len() {
            self.registers[place] = value;
        }
    }

    // The action of a line.
    fn action(&self, line: RegisterLine) -> Action
        ensures { result ≡ (line_means (register_state self.now) line).next }
    {
        match line {
            RegisterLine::Constant { .. }
            | RegisterLine::Add { .. }
            | RegisterLine::Equal { .. }
            | RegisterLine::Branch { .. } => Action::Silent,
            RegisterLine::Load { location, mode, .. } => Action::Read { location, mode },
            RegisterLine::Store {
                location,
                register,
                mode,
            } => Action::Write {
                location,
                value: self.value(register),
                mode,
            },
            RegisterLine::FetchAdd {
                location,
                read,
                write,
                ..
            }
            | RegisterLine::CompareExchange {
                location,
                read,
                write,
                ..
            } => Action::Update {
                location,
                read,
                write,
            },
            RegisterLine::Fence { kind } => Action::Fence { kind },
            RegisterLine::Print { register } => Action::Print {
                value: self.value(register),
            },
        }
    }

    // Goes on past a line with the value read.
    #[inline(always)]
    fn pass(&mut self, line: RegisterLine, value: u16)
        requires { self.old.line < length self.old.program.now }
        ensures { register_state self.new ≡ (line_means (register_state self.old) line).goes_on value }
    {
        match line {
            RegisterLine::Constant {
                register,
                value: constant,
            } => self.put(register, constant),
            RegisterLine::Add {
                register,
                left,
                right,
            } => {
                let sum = self.value(left).wrapping_add(self.value(right));
                self.put(register, sum);
            }
            RegisterLine::Equal {
                register,
                left,
                right,
            } => {
                let equal = u16::from(self.value(left) == self.value(right));
                self.put(register, equal);
            }
            RegisterLine::Branch { register, line } => {
                if self.value(register) != 0 {
                    self.line = usize::from(line);
                    return;
                }
            }
            RegisterLine::Load { register, .. }
            | RegisterLine::FetchAdd { register, .. }
            | RegisterLine::CompareExchange { register, .. } => self.put(register, value),
            RegisterLine::Store { .. } | RegisterLine::Fence { .. } | RegisterLine::Print { .. } =>
                {}
        }
        self.line += 1;
    }
}

impl Ranged for RegisterLine {
    ghost in_range = { in_range };

    fn in_range(self) -> bool {
        match self {
            RegisterLine::Load { location, .. }
            | RegisterLine::Store { location, .. }
            | RegisterLine::FetchAdd { location, .. }
            | RegisterLine::CompareExchange { location, .. } => location < MOST_LOCATIONS,
            RegisterLine::Constant { .. }
            | RegisterLine::Add { .. }
            | RegisterLine::Equal { .. }
            | RegisterLine::Branch { .. }
            | RegisterLine::Fence { .. }
            | RegisterLine::Print { .. } => true,
        }
    }
}

impl<'a> Language for RegisterThread<'a> {
    ghost behaves = { register_behaviour };

    ghost located = { register_located };

    #[inline(always)]
    fn next(&self) -> Action {
        match self.current() {
            Some(line) => self.action(line),
            None => Action::Ended,
        }
    }

    #[inline(always)]
    fn takes(&self, value: u16) -> Taking {
        match self.current() {
            Some(RegisterLine::Load { .. }) => Taking::OnlyRead,
            Some(RegisterLine::FetchAdd { addend, .. }) => Taking::Replaced {
                value: value.wrapping_add(self.value(addend)),
            },
            Some(
                RegisterLine::CompareExchange {
                    expected,
                    desired,
                    ..
                },
            ) => {
                if value == self.value(expected) {
                    Taking::Replaced {
                        value: self.value(desired),
                    }
                } else {
                    Taking::OnlyRead
                }
            }
            _ => Taking::NotTaken,
        }
    }

    #[inline(always)]
    fn go_on(&mut self, value: u16) {
        if let Some(line) = self.current() {
            self.pass(line, value);
        }
    }

    fn copy(&self) -> Self {
        *self
    }
}

#[cfg(test)]
mod tests {
    use super::*;
    use crate::action::{FenceKind, ReadMode, WriteMode};
    use crate::replay::replay;

    const PROGRAM: [RegisterLine; 11] = [
        RegisterLine::Constant {
            register: 1,
            value: 5,
        },
        RegisterLine::Add {
            register: 2,
            left: 1,
            right: 1,
        },
        RegisterLine::Equal {
            register: 3,
            left: 1,
            right: 1,
        },
        RegisterLine::Branch {
            register: 3,
            line: 5,
        },
        RegisterLine::Print { register: 0 },
        RegisterLine::Load {
            register: 4,
            location: 0,
            mode: ReadMode::Acquire,
        },
        RegisterLine::Store {
            location: 1,
            register: 2,
            mode: WriteMode::Release,
        },
        RegisterLine::FetchAdd {
            register: 5,
            location: 2,
            addend: 2,
            read: ReadMode::Relaxed,
            write: WriteMode::Release,
        },
        RegisterLine::CompareExchange {
            register: 6,
            location: 3,
            expected: 1,
            desired: 2,
            read: ReadMode::Acquire,
            write: WriteMode::Relaxed,
        },
        RegisterLine::Fence {
            kind: FenceKind::Both,
        },
        RegisterLine::Print { register: 4 },
    ];

    #[test]
    fn registers_hold_what_the_lines_put_there(rt: HostRuntime) {
        let start = RegisterThread::new(&PROGRAM);
        assert_eq!(rt; start.next(), Action::Silent);
        let loaded = replay(&start, &[0, 0, 0, 0, 7]);
        assert_eq!(rt;
            loaded.next(),
            Action::Write {
                location: 1,
                value: 10,
                mode: WriteMode::Release
            }
        );
        let last = replay(&loaded, &[0, 0, 0, 0]);
        assert_eq!(rt; last.next(), Action::Print { value: 7 });
        assert_eq!(rt; replay(&last, &[0]).next(), Action::Ended);
    }

    #[test]
    fn updates_replace_what_they_say(rt: HostRuntime) {
        let adding = replay(&RegisterThread::new(&PROGRAM), &[0, 0, 0, 0, 7, 0]);
        assert_eq!(rt; adding.takes(65530), Taking::Replaced { value: 4 });
        let exchanging = replay(&adding, &[65530]);
        assert_eq!(rt; exchanging.takes(5), Taking::Replaced { value: 10 });
        assert_eq!(rt; exchanging.takes(6), Taking::OnlyRead);
    }
}
