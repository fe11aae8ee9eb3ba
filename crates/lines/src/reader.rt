// Reads one line after another from bytes.
ghost use Rattle.std.specs.Prelude.{◌≡◌, ℕ, ◌+◌, ◌-◌, ◌*◌, if◌then◌else◌, nat_le, true, length, IfOk};
ghost use Rattle.lines.specs.Fields.{digit, plain, up_to, past, number, field, fields, line, letter};
ghost use Rattle.lines.specs.Reading.{Passes, Reads, read, unread};
ghost use Rattle.lines.specs.Spelling.{InRange};

use bounded::Bounded;

#[derive(Clone, Copy, PartialEq, Eq, Debug)]
pub enum LineFault {
    // letter, fields or line feed wrong or missing
    Form,
    // a field out of range
    Range,
}

// A number for each field of a line.
pub type Numbers = Bounded<u32, 6>;

#[derive(Clone, Copy)]
pub struct Reader<'a> {
    rest: &'a [u8],
}

// Whether digits are a number without a leading zero.
fn is_plain(digits: &[u8]) -> bool
    ensures { result ≡ plain digits.now }
{
    match digits {
        [] => false,
        [b'0', after @ ..] => after.is_empty(),
        _ => true,
    }
}

// The number after one digit more. Above the largest it stays as it is: what follows only makes it larger.
fn with_digit(number: u64, byte: u8, most: u32) -> u64
    requires { digit byte ≡ true }
    ensures { result ≡ (if nat_le number most then 10 * number + (byte - 48) else number) }
{
    if number > u64::from(most) {
        number
    } else {
        10 * number + u64::from(byte - b'0')
    }
}

// The number, none where it is above the largest.
fn at_most(number: u64, most: u32) -> Option<u32>
    ensures { result ≡ up_to most number }
{
    if number <= u64::from(most) {
        Some(number as u32)
    } else {
        None
    }
}

impl<'a> Reader<'a> {
    pub fn new(bytes: &'a [u8]) -> Reader<'a>
        ensures { result.rest.now ≡ bytes.now }
    {
        Reader { rest: bytes }
    }

    // How many bytes are left.
    pub fn left(&self) -> usize
        ensures { result ≡ length self.now.rest.now }
    {
        self.rest.len()
    }

    // The number in front, none inside where it is above the largest.
    // By hand: std's `parse` takes text, and the digits of a number that is too large are passed too.
    fn number(&mut self, most: u32) -> Option<Option<u32>>
        ensures { Reads (number most self.old.rest.now) result self.new.rest.now }
    {
        let mut number = 0;
        let mut rest = self.rest;
        while let [digit @ b'0'..=b'9', after @ ..] = rest {
            number = with_digit(number, *digit, most);
            rest = after;
        }
        let count = self.rest.len() - rest.len();
        if !is_plain(&self.rest[..count]) {
            return None;
        }
        self.rest = rest;
        Some(at_most(number, most))
    }

    // Passes a byte if it is the one that is wanted.
    fn pass(&mut self, wanted: u8) -> bool
        ensures { Passes (past wanted self.old.rest.now) result self.old.rest.now self.new.rest.now }
    {
        match self.rest {
            [byte, after @ ..] if *byte == wanted => {
                self.rest = after;
                true
            }
            _ => false,
        }
    }

    fn field(&mut self, most: u32) -> Option<Option<u32>>
        ensures { Reads (field most self.old.rest.now) result self.new.rest.now }
    {
        if !self.pass(b' ') {
            return None;
        }
        self.number(most)
    }

    // The numbers of a line's fields, none inside where one is above the largest of its field.
    #[inline(always)]
    fn fields(&mut self, limits: &Numbers) -> Option<Option<Numbers>>
        ensures { Reads (fields limits.now self.old.rest.now) result self.new.rest.now }
    {
        let mut numbers = Numbers::new(0);
        let mut within = true;
        for most in limits.as_slice() {
            match self.field(*most)? {
                Some(number) => {
                    // never refused, as there are at most as many limits as there is room
                    let _ = numbers.push(number);
                }
                None => within = false,
            }
        }
        Some(within.then_some(numbers))
    }

    // The letter of the line that comes next.
    pub fn letter(&self) -> Option<char>
        ensures { result ≡ letter self.now.rest.now }
    {
        match self.rest {
            [first, ..] => Some(*first as char),
            [] => None,
        }
    }

    // Reads a line with a field for each of the largest numbers, whatever its letter.
    // A line that is refused is not passed. Inlined, so that the numbers need not be moved.
    #[inline(always)]
    pub fn line(&mut self, limits: &Numbers) -> Result<Numbers, LineFault>
        ensures numbers { result ≡ read (line limits.now self.old.rest.now) }
        ensures left { self.new.rest.now ≡ unread (line limits.now self.old.rest.now) self.old.rest.now }
        ensures within { IfOk result (λ vs. InRange limits.now vs) }
    {
        let [_, after @ ..] = self.rest else {
            return Err(LineFault::Form);
        };
        let mut line = Reader { rest: after };
        let Some(numbers) = line.fields(limits) else {
            return Err(LineFault::Form);
        };
        if !line.pass(b'\n') {
            return Err(LineFault::Form);
        }
        let Some(numbers) = numbers else {
            return Err(LineFault::Range);
        };
        *self = line;
        Ok(numbers)
    }
}
