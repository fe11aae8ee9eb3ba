// A line of the head that gives a section: D o k.
ghost use Rattle.std.specs.Prelude.{◌≡◌};
ghost use Rattle.jobs.specs.Sections.{section_lines, SectionFits};
ghost use Rattle.jobs.specs.SectionCodec.{section_codec};

use lines::MOST_FIELD;
use lines::family::Spelled;
use lines::reader::Numbers;

// Where a section begins in the file, and its length, in bytes.
#[derive(Clone, Copy, PartialEq, Eq, Debug)]
pub struct Section {
    pub offset: usize,
    pub length: usize,
}

impl Section {
    // The empty section at the front.
    pub const NOWHERE: Section = Section {
        offset: 0,
        length: 0,
    };
}

impl Spelled for Section {
    type Kind = ();

    type Scope = ();

    ghost use Rattle.jobs.specs.declared.section.Section.{Section};

    ghost Shown = { Section };

    ghost shown = { λ s. s };

    ghost family = { λ _. section_lines };

    ghost Fits = { λ _. SectionFits };

    ghost codec = { λ _. section_codec };

    fn kind_of(letter: char) -> Option<()> {
        match letter {
            'D' => Some(()),
            _ => None,
        }
    }

    fn limits(_kind: (), _scope: ()) -> Numbers {
        Numbers::from_slice(&[MOST_FIELD, MOST_FIELD], 0)
    }

    fn make(_kind: (), numbers: &[u32]) -> Option<Section> {
        let [offset, length] = numbers else {
            return None;
        };
        Some(Section {
            offset: *offset as usize,
            length: *length as usize,
        })
    }
}
