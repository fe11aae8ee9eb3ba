// Families of lines: a letter chooses a kind, a kind its fields, and their numbers make the line.
ghost use Rattle.std.specs.Prelude.{◌≡◌, ℕ, length};
ghost use Rattle.std.specs.Option.{option_map};
ghost use Rattle.lines.specs.Fields.{Within};
ghost use Rattle.lines.specs.Families.{Family, lookup, reads, seen, OneSpelling};
ghost use Rattle.lines.specs.Codecs.{Codec};
ghost use Rattle.lines.specs.LineLaws.{RefusesLine};
ghost use Rattle.lines.specs.Reading.{read, unread};

use crate::reader::{LineFault, Numbers, Reader};

/// A family of lines, each of which is spelled in one way.
pub trait Spelled: Copy {
    /// What a letter chooses.
    type Kind: Copy;

    /// What the limits depend on.
    type Scope: Copy;

    // What clauses see of a line.
    ghost Shown: { Type 0 };

    ghost shown: { Self → Shown };

    ghost family: { Self.Scope → Family Self.Kind Shown };

    // Each number of the line is in range.
    ghost Fits: { Self.Scope → Shown → Type 0 };

    /// The kind that the letter chooses, none for another letter.
    fn kind_of(letter: char) -> Option<Self::Kind>
        ensures { (scope : Self.Scope) → result ≡ lookup (family scope).letters letter };

    /// The largest number of each field.
    fn limits(kind: Self::Kind, scope: Self::Scope) -> Numbers
        ensures { result ≡ (family scope).limits kind };

    /// The line that numbers within the limits make, none where one is out of range.
    fn make(kind: Self::Kind, numbers: &[u32]) -> Option<Self>
        ensures { (scope : Self.Scope)
            → length numbers.now ≡ length ((family scope).limits kind)
            → Within 0 ((family scope).limits kind) numbers.now
            → option_map shown result ≡ (family scope).make kind numbers.now };

    /// Reads the line in front. Refused with form where no line of the family's form stands there, and with
    /// range where one does and is no line in range; a line that is refused is not passed.
    // Inlined, so that a line can stay in registers.
    #[inline(always)]
    final fn read(reader: &mut Reader, scope: Self::Scope) -> Result<Self, LineFault>
        ensures value { seen shown result ≡ read (reads (family scope) reader.old.rest.now) }
        ensures left { reader.new.rest.now ≡ unread (reads (family scope) reader.old.rest.now) reader.old.rest.now }
        ensures spelling { OneSpelling (family scope) (Fits scope) reader.old.rest.now (seen shown result) reader.new.rest.now }
        ensures refusals { RefusesLine (family scope) (Fits scope) reader.old.rest.now (seen shown result) }
    {
        let Some(letter) = reader.letter() else {
            return Err(LineFault::Form);
        };
        let Some(kind) = Self::kind_of(letter) else {
            return Err(LineFault::Form);
        };
        let mut ahead = *reader;
        let numbers = ahead.line(&Self::limits(kind, scope))?;
        let Some(line) = Self::make(kind, numbers.as_slice()) else {
            return Err(LineFault::Range);
        };
        *reader = ahead;
        Ok(line)
    }

    ghost codec: { (scope : Self.Scope) → Codec (family scope) (Fits scope) };
}
