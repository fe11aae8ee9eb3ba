// What a refusal means, in words. Functions, since a Display would want a type of its own for each, and match alike.
use jobs::fault::{FileFault, Numbered};
use judge::fault::Fault;
use lines::layer::Layer;
use lines::reader::LineFault;
use rules::fault::StepFault;

fn file_meaning(fault: FileFault) -> &'static str {
    match fault {
        FileFault::FileSize => "the file is longer than 65535 bytes",
        FileFault::Line(LineFault::Form) => "the letter, the fields or the line feed are not right",
        FileFault::Line(LineFault::Range) => "a field is out of range",
        FileFault::Sections => "the section does not lie where it should",
        FileFault::TooManyLines => "a program has 64 lines at most",
    }
}

fn step_meaning(fault: StepFault) -> &'static str {
    match fault {
        StepFault::Range => "a thread or a location that is not there",
        StepFault::Moment => "the line is not allowed at this moment",
        StepFault::Kind => "the thread's next action is of another kind",
        StepFault::Owing => "what the thread owes forbids this fence, print or release",
        StepFault::NoMessage => "there is no such message, or the thread owes no such promise",
        StepFault::TooNew => "the thread has seen a newer message of this location",
        StepFault::Value => "the value is not the one that is needed",
        StepFault::Span => "the span is empty, or overlaps that of another message",
        StepFault::ClosingLine => "the span does not begin above the closing line of the showing",
        StepFault::Store(_) => "there are 64 messages already",
        StepFault::LogFull => "there are 64 prints already",
        StepFault::StillOwing => "the thread still owes a promise",
    }
}

pub(crate) fn meaning(fault: Fault) -> &'static str {
    match fault {
        Fault::File(fault) => file_meaning(fault),
        Fault::Step(fault) => step_meaning(fault),
        Fault::Unfinished => "the trace ends in a turn or in a showing",
    }
}

// What refused it, by the layer.
pub(crate) fn layer_name(fault: Fault) -> &'static str {
    match fault.layer() {
        Layer::File => "file",
        Layer::Line => "line",
        Layer::Step => "step",
        Layer::Store => "store",
    }
}
