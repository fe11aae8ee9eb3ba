// The report on a file, as it is written into a buffer.
ghost use Rattle.std.specs.Prelude.{◌≡◌, ℕ, length};
ghost use Rattle.jobs.specs.Faults.{refused_text};
ghost use Rattle.jobs.specs.Reports.{told_by, said};
ghost use Rattle.jobs.specs.Texts.{answer, left};

use crate::fault::{Numbered, Refusal};
use crate::text::Text;

impl<F: Numbered> Refusal<F> {
    /// NO with number, layer, section and line.
    pub fn text(self) -> Text
        ensures { result.bytes ≡ refused_text F.numbered F.layered self }
    {
        let mut text = Text::new();
        text.push(b'N');
        text.line(
            b'O',
            &[
                self.fault.number() as u64,
                self.fault.layer().number() as u64,
                self.section as u64,
                self.line as u64,
            ],
        );
        text
    }
}

/// Writes the text on a file that is accepted, or its refusal, into the buffer, then zeros to its end,
/// and answers the report's length. A buffer under the least length is not written, and the answer is 0.
pub fn write_report<F: Numbered>(verdict: Result<Text, Refusal<F>>, report: &mut [u8]) -> usize
    ensures value { result ≡ answer (said F.numbered F.layered (told_by verdict)) (length report.old) }
    ensures after { report.new ≡ left (said F.numbered F.layered (told_by verdict)) report.old }
{
    match verdict {
        Ok(text) => text.copy_to(report),
        Err(refusal) => refusal.text().copy_to(report),
    }
}
