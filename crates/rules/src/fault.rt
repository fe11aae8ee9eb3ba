// Why a line is refused.
ghost use Rattle.std.specs.Prelude.{◌≡◌};
ghost use Rattle.rules.specs.Faults.{number, layer};
ghost use Rattle.rules.specs.declared.fault.StepFault.TheVariants.{Store as StoreOf};

pub use lines::layer::Layer;
use stores::kept::StoreFault;

#[derive(Clone, Copy, PartialEq, Eq, Debug)]
pub enum StepFault {
    // a thread or a location that is not there
    Range,
    // the line is not allowed at this moment
    Moment,
    // the next action is of another kind
    Kind,
    // owed promises forbid the fence, the print or the release
    Owing,
    // no such message, or no such promise
    NoMessage,
    // the thread has seen a newer message
    TooNew,
    // the value is not as needed
    Value,
    // the span is empty or overlaps a message
    Span,
    // the span does not begin above the closing line
    ClosingLine,
    // the store refused the message
    Store(StoreFault),
    // the log of prints is full
    LogFull,
    // the turn ends while something is owed
    StillOwing,
}

impl From<StoreFault> for StepFault {
    ghost from_gives = { λ f e. e ≡ StoreOf f };

    fn from(fault: StoreFault) -> StepFault {
        StepFault::Store(fault)
    }
}

impl StepFault {
    // as a report prints it
    pub fn number(self) -> u8
        ensures { result ≡ number self }
    {
        match self {
            StepFault::Range => 4,
            StepFault::Moment => 7,
            StepFault::Kind => 8,
            StepFault::Owing => 9,
            StepFault::NoMessage => 10,
            StepFault::TooNew => 11,
            StepFault::Value => 12,
            StepFault::Span => 13,
            StepFault::ClosingLine => 14,
            StepFault::Store(StoreFault::Full) | StepFault::LogFull => 15,
            StepFault::StillOwing => 16,
        }
    }

    pub fn layer(self) -> Layer
        ensures { result ≡ layer self }
    {
        match self {
            StepFault::Range => Layer::Line,
            StepFault::Store(_) | StepFault::LogFull => Layer::Store,
            _ => Layer::Step,
        }
    }
}
