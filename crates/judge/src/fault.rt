// Why a file is refused, and where.
ghost use Rattle.std.specs.Prelude.{◌≡◌};
ghost use Rattle.jobs.specs.declared.fault.FileFault.TheVariants.{Line as LineOf};
ghost use Rattle.judge.specs.declared.fault.Fault.TheVariants.{File as FileOf, Step as StepOf};
ghost use Rattle.judge.specs.Faults.{fault_number, fault_layer};

use jobs::fault::{FileFault, Numbered};
use lines::layer::Layer;
use lines::reader::LineFault;
use rules::fault::StepFault;

/// What is wrong with a file.
#[derive(Clone, Copy, PartialEq, Eq, Debug)]
pub enum Fault {
    /// The file is not of its form.
    File(FileFault),
    /// The run refused a line of the trace.
    Step(StepFault),
    /// The trace ends in a turn or a showing.
    Unfinished,
}

/// Why a file is refused, and where.
pub type Refusal = jobs::fault::Refusal<Fault>;

impl From<FileFault> for Fault {
    ghost from_gives = { λ f e. e ≡ FileOf f };

    fn from(fault: FileFault) -> Fault {
        Fault::File(fault)
    }
}

impl From<LineFault> for Fault {
    ghost from_gives = { λ f e. e ≡ FileOf (LineOf f) };

    fn from(fault: LineFault) -> Fault {
        Fault::File(fault.into())
    }
}

impl From<StepFault> for Fault {
    ghost from_gives = { λ f e. e ≡ StepOf f };

    fn from(fault: StepFault) -> Fault {
        Fault::Step(fault)
    }
}

impl Numbered for Fault {
    ghost numbered = { fault_number };

    ghost layered = { fault_layer };

    fn number(self) -> u8 {
        match self {
            Fault::File(fault) => fault.number(),
            Fault::Step(fault) => fault.number(),
            Fault::Unfinished => 17,
        }
    }

    fn layer(self) -> Layer {
        match self {
            Fault::File(fault) => fault.layer(),
            Fault::Step(fault) => fault.layer(),
            Fault::Unfinished => Layer::File,
        }
    }
}
