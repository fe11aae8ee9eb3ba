// The line that a thread is at.
ghost use Rattle.std.specs.Prelude.{◌≡◌, ◌<◌, Bool, length, OnSome};
ghost use Rattle.languages.specs.Meanings.{line_at};

pub(crate) trait Ranged: Copy {
    ghost in_range: { Self → Bool };

    // Whether the line's location, if it has one, is below 8.
    fn in_range(self) -> bool
        ensures { result ≡ in_range self };
}

// Line n of a program, from 0; a line that is not in range counts as none.
pub(crate) fn line_at<I: Ranged>(program: &[I], n: usize) -> Option<I>
    ensures value { result ≡ line_at I.Ranged.in_range program.now n }
    ensures within { OnSome result (n < length program.now) }
{
    let line = *program.get(n)?;
    if line.in_range() { Some(line) } else { None }
}
