// Where a refused line stands in the file.
use jobs::head::Head;
use judge::fault::Refusal;
use std::fmt;

// The part of a file that a section is.
#[derive(Clone, Copy)]
pub(crate) enum Part {
    Head,
    Program { thread: u8 },
    Trace,
}

impl fmt::Display for Part {
    fn fmt<W: fmt::Write>(&self, f: &mut fmt::Formatter<W>) -> fmt::Result {
        match self {
            Part::Head => write!(f, "head"),
            Part::Program { thread } => write!(f, "program of thread {thread}"),
            Part::Trace => write!(f, "trace"),
        }
    }
}

pub(crate) fn part_of(file: &[u8], section: u8) -> Part {
    if section == 0 {
        return Part::Head;
    }
    match Head::read(file) {
        Ok(head) if section <= head.job.scope.threads() => Part::Program {
            thread: section - 1,
        },
        _ => Part::Trace,
    }
}

// The bytes of a section: of the head, those of the whole file, which begins with it.
fn section_bytes(file: &[u8], section: u8) -> &[u8] {
    let Some(k) = section.checked_sub(1) else {
        return file;
    };
    match Head::read(file) {
        Ok(head) => match head.sections.get(k as usize) {
            Some(section) => section.cut(file),
            None => &[],
        },
        Err(_) => &[],
    }
}

// The refused line, without its line feed.
pub(crate) fn refused_line(file: &[u8], refusal: Refusal) -> &[u8] {
    let mut lines = section_bytes(file, refusal.section).split(|byte| *byte == b'\n');
    lines.nth(refusal.line.saturating_sub(1)).unwrap_or(&[])
}
