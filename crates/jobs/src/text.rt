// The text of a report, which grows at its end.
ghost use Rattle.std.specs.Prelude.{◌≡◌, ℕ, ◌≤◌, [], ◌∷◌, length, decimal};
ghost use Rattle.lines.specs.Spelling.{spelled_fields, spelled};
ghost use Rattle.jobs.specs.Texts.{most_text, added, answer, left};

use bounded::Bounded;

/// The most bytes that a text of a report keeps. Told apart from the least buffer, since that may grow beyond
/// the longest text.
pub const MOST_TEXT: usize = 2400;

/// The least length of a report's buffer; no text is longer than it.
pub const LEAST_REPORT: usize = 2400;

/// A text, of which what goes past the most bytes is left out.
#[derive(Drop)]
pub struct Text {
    bytes: Bounded<u8, MOST_TEXT>,
    ghost few: { length bytes ≤ most_text },
}

impl Text {
    /// An empty text.
    pub fn new() -> Text
        ensures { result.bytes ≡ [] }
    {
        Text {
            bytes: Bounded::new(0),
        }
    }

    /// Adds a byte.
    pub fn push(&mut self, byte: u8)
        ensures { self.new.bytes ≡ added self.old.bytes (byte ∷ []) }
    {
        let _ = self.bytes.push(byte);
    }

    // Adds a number in decimal. By hand, since `write!` may fail, and then says nothing of what was written;
    // `itoa` of the kit would be a crate for eight lines.
    fn number(&mut self, number: u64)
        ensures { self.new.bytes ≡ added self.old.bytes (decimal number) }
    {
        if number < 10 {
            return self.push(b'0' + number as u8);
        }
        self.number(number / 10);
        self.push(b'0' + (number % 10) as u8);
    }

    // Adds each number with a space before it, and a line feed.
    fn fields(&mut self, numbers: &[u64])
        ensures { self.new.bytes ≡ added self.old.bytes (spelled_fields numbers.now) }
    {
        for number in numbers {
            self.push(b' ');
            self.number(*number);
        }
        self.push(b'\n');
    }

    /// The bytes of the text.
    pub fn as_bytes(&self) -> &[u8]
        ensures { result.now ≡ self.now.bytes }
    {
        self.bytes.as_slice()
    }

    /// Adds a line: a letter, then its numbers.
    pub fn line(&mut self, letter: u8, numbers: &[u64])
        ensures { self.new.bytes ≡ added self.old.bytes (spelled letter numbers.now) }
    {
        self.push(letter);
        self.fields(numbers);
    }

    /// Copies the text into a buffer, then zeros to its end, and answers the text's length.
    /// A buffer under the least length is not written, and the answer is 0, as C gets it.
    pub fn copy_to(&self, out: &mut [u8]) -> usize
        ensures value { result ≡ answer self.now.bytes (length out.old) }
        ensures after { out.new ≡ left self.now.bytes out.old }
    {
        if out.len() < LEAST_REPORT {
            return 0;
        }
        let bytes = self.as_bytes();
        let (front, rest) = out.split_at_mut(bytes.len());
        front.copy_from_slice(bytes);
        rest.fill(0);
        bytes.len()
    }
}
