//! Instructions and their words: reading and writing by the grammars of the opcodes (SPIR-V 1.6 section 3, Instructions).
#![tactic(auto)]

pub mod addressing_model;
pub mod built_in;
pub mod capability;
mod comparing;
pub mod debug_info;
mod decoding;
pub mod decoration;
mod encoding;
pub mod execution_mode;
pub mod execution_model;
pub mod glsl;
mod grammar;
pub mod memory_model;
mod module;
pub mod op;
mod opcodes;
mod reading;
mod rests;
pub mod scope;
pub mod storage_class;

pub use decoding::{
    decode, decode_all, instructions_stand_at_their_words, one_list_reading, one_reading,
};
pub use encoding::{encode, is_formed, try_encode};
pub use grammar::{Head, Opcode, Part, Rest};
pub use module::{DecodedModule, GREATEST_BOUND, WORD_LIMIT};
pub use opcodes::{all_opcodes, opcode_of};
