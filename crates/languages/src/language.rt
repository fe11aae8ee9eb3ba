// What a run knows of a thread, whatever its language.
ghost use Rattle.std.specs.Prelude.{◌≡◌, ℕ, List, []};
ghost use Rattle.languages.specs.Behaviours.{Behaviour, after};
ghost use Rattle.languages.specs.Meanings.{Located};

use crate::action::{Action, Taking};

pub trait Language: Sized + Drop {
    // The moment that a state comes to after each list of values that it may be given.
    ghost behaves: { Self → Behaviour };

    // The law of locations: whatever values it is given, a state names none of 8 or more.
    // A ghost member, since a `law` could be met by a type with a lifetime only by a proof written out.
    ghost located: { (state : Self) (values : List ℕ) → Located (behaves state values).next };

    // What the state does next.
    fn next(&self) -> Action
        ensures { result ≡ (behaves self.now []).next };

    // What the state says of a value. A run asks at reads and updates only.
    fn takes(&self, value: u16) -> Taking
        ensures { result ≡ (behaves self.now []).takes value };

    // Goes on with the value read, or with 0 where none was read.
    fn go_on(&mut self, value: u16)
        ensures { behaves self.new ≡ after (behaves self.old) value };

    // A method, since a bound `Copy` would ask more of a language.
    fn copy(&self) -> Self
        ensures { behaves result ≡ behaves self.now };
}
