// The lines of a job file: how one is read, and the lines of a trace.
#![tactic(auto)]

pub mod family;
pub mod layer;
pub mod reader;
pub mod refusal;
pub mod scope;
pub mod span;
pub mod trace;

// The end of a message's span. Ends may grow wider than the other fields.
pub type End = u16;

pub const MOST_END: u32 = 65535;

pub const MOST_VALUE: u32 = 65535;

// The largest offset and length in the head.
pub const MOST_FIELD: u32 = 65535;

// The most threads and locations that a job can have.
pub const MOST_THREADS: u8 = 4;

pub const MOST_LOCATIONS: u8 = 8;
