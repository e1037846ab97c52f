//! The debug records of a module: the instructions of the set NonSemantic.Shader.DebugInfo.100.
#![tactic(auto)]

mod constants;
mod forming;
mod frames;
mod inlined;
mod insts;
mod kinds;
mod laws;
mod literals;
mod marks;
mod measures;
mod names;
mod op_sources;
mod pieces;
mod records;
mod scalars;
mod sources;
mod strings;
mod tables;
mod texts;

pub use frames::{Bit, ShownFrame};
pub use insts::DebugInst;
pub use laws::{records_are_whole_in_their_tables, well_formed_records_are_those_of_the_table};
pub use pieces::SourceText;
pub use tables::DebugTables;
