//! The plain types that all layers share: values and pointers, instructions, events, causes of refusals, and the outside.
#![tactic(auto)]

pub mod causes;
pub mod cells;
pub mod counter;
pub mod entries;
pub mod files;
pub mod ghosts;
pub mod happenings;
pub mod instructions;
pub mod lists;
pub mod lowest;
pub mod outside;
pub mod probes;
pub mod real;
pub mod streams;
mod told;
pub mod values;

pub use causes::{CmdRefusal, Fail, Failed, FileErr, MemErr, NoMemory, Refusal, SetupRefusal};
pub use cells::Cell;
pub use counter::Steps;
pub use entries::find_entry;
pub use files::{FailingFiles, MemoryFiles};
pub use ghosts::Ghost;
pub use happenings::{EndCause, Fault, Happening, Kind, Status4};
pub use instructions::{Inst, Operand, RawInst};
pub use lists::{Items, Path};
pub use lowest::lower;
pub use outside::{Files, Sink, Source, write_all};
pub use probes::Probe;
pub use real::{FromRead, RealFiles, ToWrite};
pub use streams::{FailingSink, FailingSource, MemorySink, MemorySource, SinkFault};
pub use values::{PassedEvent, Pointer, Root, Value};

/// Bytes.
pub type Bytes = Items<u8>;

/// The bytes of a text.
pub type Text = Items<u8>;

/// Words of a module.
pub type Words = Items<u32>;

/// Scalars.
pub type Cells = Items<Cell>;

/// Operands of an instruction.
pub type Operands = Items<Operand>;

/// Ids, or numbers of words.
pub type Places = Items<u32>;

/// Pairs of a SpecId and the value for it, from -2^63 to 2^64 - 1.
pub type Overrides = Items<(u32, i128)>;
