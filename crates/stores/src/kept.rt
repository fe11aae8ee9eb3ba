// What a store says of one of its messages, and why it refuses one.
ghost use Rattle.std.specs.Prelude.{◌≡◌};
ghost use Rattle.stores.specs.declared.kept.StoreFault.TheVariants.{Full as StoreFull};

use crate::message::Message;
use bounded::Full;

// The k-th message: the zero message where `there` is false.
// A flag beside the message, and no Option: a rule of the project.
#[derive(Clone, Copy, PartialEq, Eq, Debug)]
pub struct Kept {
    pub there: bool,
    pub message: Message,
}

#[derive(Clone, Copy, PartialEq, Eq, Debug)]
pub enum StoreFault {
    Full,
}

impl From<Full> for StoreFault {
    ghost from_gives = { λ _ e. e ≡ StoreFull };

    fn from(_: Full) -> StoreFault {
        StoreFault::Full
    }
}
