// A thread of a strip program.
ghost use Rattle.std.specs.Prelude.{◌≡◌, ◌<◌, length, OnSome};
ghost use Rattle.languages.specs.Endings.{StaysEnded, EndsWithin};
ghost use Rattle.languages.specs.Meanings.{line_at};
ghost use Rattle.languages.specs.Strips.{strip_behaviour, strip_start, in_range};
ghost use Rattle.languages.specs.Located.{strip_located};

use crate::action::{Action, Taking};
use crate::current::{Ranged, line_at};
use crate::language::Language;
use crate::strips::StripLine;
use lines::MOST_LOCATIONS;

#[derive(Clone, Copy)]
pub struct StripThread<'a> {
    program: &'a [StripLine],
    line: usize,
}

impl<'a> StripThread<'a> {
    pub fn new(program: &'a [StripLine]) -> Self
        ensures start { strip_behaviour result ≡ strip_start program.now }
        ensures ended { StaysEnded (strip_behaviour result) }
        ensures straight { EndsWithin (length program.now) (strip_behaviour result) }
    {
        StripThread { program, line: 0 }
    }

    // The line that the thread is at; with none it has ended.
    fn current(&self) -> Option<StripLine>
        ensures value { result ≡ line_at in_range self.now.program.now self.now.line }
        ensures within { OnSome result (self.now.line < length self.now.program.now) }
    {
        line_at(self.program, self.line)
    }
}

impl Ranged for StripLine {
    ghost in_range = { in_range };

    fn in_range(self) -> bool {
        match self {
            StripLine::Read { location, .. }
            | StripLine::Store { location, .. }
            | StripLine::FetchAdd { location, .. } => location < MOST_LOCATIONS,
            StripLine::Fence { .. } | StripLine::Print { .. } => true,
        }
    }
}

impl<'a> Language for StripThread<'a> {
    ghost behaves = { strip_behaviour };

    ghost located = { strip_located };

    #[inline(always)]
    fn next(&self) -> Action {
        let Some(line) = self.current() else {
            return Action::Ended;
        };
        match line {
            StripLine::Read { location, mode, .. } => Action::Read { location, mode },
            StripLine::Store {
                location,
                value,
                mode,
            } => Action::Write {
                location,
                value,
                mode,
            },
            StripLine::FetchAdd {
                location,
                read,
                write,
                ..
            } => Action::Update {
                location,
                read,
                write,
            },
            StripLine::Fence { kind } => Action::Fence { kind },
            StripLine::Print { value } => Action::Print { value },
        }
    }

    #[inline(always)]
    fn takes(&self, value: u16) -> Taking {
        match self.current() {
            Some(StripLine::Read { value: wanted, .. }) => {
                if value == wanted {
                    Taking::OnlyRead
                } else {
                    Taking::NotTaken
                }
            }
            Some(StripLine::FetchAdd { value: addend, .. }) => Taking::Replaced {
                value: value.wrapping_add(addend),
            },
            _ => Taking::NotTaken,
        }
    }

    #[inline(always)]
    fn go_on(&mut self, _value: u16) {
        if self.current().is_some() {
            self.line += 1;
        }
    }

    fn copy(&self) -> Self {
        *self
    }
}

#[cfg(test)]
mod tests {
    use super::*;
    use crate::action::{FenceKind, ReadMode, WriteMode};
    use crate::replay::replay;

    const PROGRAM: [StripLine; 6] = [
        StripLine::Read {
            location: 0,
            value: 3,
            mode: ReadMode::Relaxed,
        },
        StripLine::Store {
            location: 7,
            value: 9,
            mode: WriteMode::Relaxed,
        },
        StripLine::FetchAdd {
            location: 1,
            value: 2,
            read: ReadMode::Acquire,
            write: WriteMode::Release,
        },
        StripLine::Fence {
            kind: FenceKind::Sequential,
        },
        StripLine::Print { value: 8 },
        StripLine::Store {
            location: 8,
            value: 1,
            mode: WriteMode::Relaxed,
        },
    ];

    #[test]
    fn lines_run_straight_through(rt: HostRuntime) {
        let start = StripThread::new(&PROGRAM);
        assert_eq!(rt; start.takes(3), Taking::OnlyRead);
        assert_eq!(rt; start.takes(4), Taking::NotTaken);
        let adding = replay(&start, &[3, 0]);
        assert_eq!(rt; adding.takes(65535), Taking::Replaced { value: 1 });
        let last = replay(&adding, &[65535, 0]);
        assert_eq!(rt; last.next(), Action::Print { value: 8 });
        assert_eq!(rt; replay(&last, &[0]).next(), Action::Ended);
    }
}
