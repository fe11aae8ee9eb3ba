// What a thread comes to when it is given values one after another.
ghost use Rattle.std.specs.Prelude.{◌≡◌, ℕ, List, ◌++◌};

use crate::language::Language;

// A copy of the thread that was given the values: its behaviour is what the thread's is after them.
pub fn replay<L: Language>(thread: &L, values: &[u16]) -> L
    ensures { (more : List ℕ) → L.Language.behaves result more ≡ L.Language.behaves thread.now (values.now ++ more) }
{
    let mut copy = thread.copy();
    for value in values {
        copy.go_on(*value);
    }
    copy
}
