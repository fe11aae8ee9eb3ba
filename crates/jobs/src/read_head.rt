// How the head of a job file is read: its first line, and a line for each section.
ghost use Rattle.std.specs.Prelude.{◌≡◌, ℕ, ◌+◌, ◌<◌, ◌≤◌, [], length, IfSome, IfOk};
ghost use Rattle.jobs.specs.Sections.{lies, first_wrong};
ghost use Rattle.jobs.specs.Heads.{sections_from, ReadsSections, heading, file_heading};
ghost use Rattle.jobs.specs.Headings.{heading_of};
ghost use Rattle.jobs.specs.HeadLaws.{HeadExact, RefusesHead};

use crate::fault::{FileFault, Refusal};
use crate::head::{Head, MOST_FILE};
use crate::job::JobLine;
use crate::section::Section;
use bounded::Bounded;
use lines::family::Spelled;
use lines::reader::{LineFault, Reader};
use lines::refusal::LineRefusal;

// Reads so many section lines, the first of which is line 2. By number: each line has one, and no slice is walked.
fn read_sections(
    reader: &mut Reader,
    count: usize,
) -> Result<Bounded<Section, 5>, LineRefusal<LineFault>>
    requires { count ≤ 5 }
    ensures value { ReadsSections (sections_from count 2 [] reader.old.rest.now) result reader.new.rest.now }
    ensures many { IfOk result (λ ss. length ss ≡ count) }
{
    let mut sections = Bounded::new(Section::NOWHERE);
    for k in 0..count {
        match Section::read(reader, ()) {
            Err(fault) => return Err(LineRefusal { fault, line: k + 2 }),
            Ok(section) => {
                // never full: there are five at most
                let _ = sections.push(section);
            }
        }
    }
    Ok(sections)
}

// Whether a section begins at a place and does not pass the end, or, if it is the last, ends there.
fn lies_at(section: Section, at: usize, last: bool, end: usize) -> bool
    requires { at ≤ end }
    ensures { result ≡ lies at section last end }
{
    let room = end - at;
    if section.offset != at {
        return false;
    }
    if last {
        section.length == room
    } else {
        section.length <= room
    }
}

// The first section that does not begin where the one before ended, or that passes the file's end,
// or that is the last and does not end there.
fn first_wrong_section(sections: &[Section], start: usize, end: usize) -> Option<usize>
    requires { start ≤ end }
    ensures value { result ≡ first_wrong 0 start sections.now end }
    ensures inside { IfSome result (λ k. k < length sections.now) }
{
    let mut at = start;
    for (k, section) in sections.iter().enumerate() {
        let last = k + 1 == sections.len();
        if !lies_at(*section, at, last, end) {
            return Some(k);
        }
        at += section.length;
    }
    None
}

fn head_of(file: &[u8]) -> Result<Head, Refusal<FileFault>>
    ensures { heading_of result ≡ heading file.now }
{
    let mut reader = Reader::new(file);
    let job = JobLine::read(&mut reader, ()).map_err(|fault| Refusal::in_section(
        LineRefusal { fault, line: 1 },
        0,
    ))?;
    let count = job.scope.threads() as usize + 1;
    let sections = read_sections(&mut reader, count).map_err(|refusal| Refusal::in_section(
        refusal, 0,
    ))?;
    let start = file.len().saturating_sub(reader.left());
    match first_wrong_section(sections.as_slice(), start, file.len()) {
        Some(k) => Err(Refusal {
            fault: FileFault::Sections,
            section: 0,
            line: k + 2,
        }),
        None => Ok(Head {
            job,
            sections: sections.fixed(),
        }),
    }
}

impl Head {
    /// Reads the head of a file, whatever the file's length.
    pub fn read(file: &[u8]) -> Result<Head, Refusal<FileFault>>
        ensures value { heading_of result ≡ heading file.now }
        ensures exact { HeadExact file.now (heading_of result) }
        ensures refuses { RefusesHead file.now (heading_of result) }
    {
        head_of(file)
    }

    /// The head of a file that is not too long.
    pub fn of_file(file: &[u8]) -> Result<Head, Refusal<FileFault>>
        ensures { heading_of result ≡ file_heading file.now }
    {
        if file.len() > MOST_FILE {
            return Err(Refusal {
                fault: FileFault::FileSize,
                section: 0,
                line: 0,
            });
        }
        Head::read(file)
    }
}
