//! The ids of the module, in the order in which the results stand. Where nothing names a result again, its number stands in its row.

/// The set of debug instructions.
pub const DEBUG_SET: u32 = 1;

/// The string `make.comp`.
pub const FILE_NAME: u32 = 2;

/// The string `main`.
pub const MAIN_NAME: u32 = 3;

/// The string `acc`.
pub const ACC_NAME: u32 = 4;

/// The string `uint`.
pub const UINT_NAME: u32 = 5;

/// The type void.
pub const VOID: u32 = 6;

/// The type of `MAIN`.
pub const MAIN_TYPE: u32 = 7;

/// The type of truth values.
pub const BOOL: u32 = 8;

/// The type of integers of 32 bits.
pub const UINT: u32 = 9;

/// The constant 0.
pub const C0: u32 = 10;

/// The constant 1.
pub const C1: u32 = 11;

/// The constant 2.
pub const C2: u32 = 12;

/// The constant 3.
pub const C3: u32 = 13;

/// The constant 4.
pub const C4: u32 = 14;

/// The constant 5.
pub const C5: u32 = 15;

/// The constant 6.
pub const C6: u32 = 16;

/// The constant 32.
pub const C32: u32 = 17;

/// The constant 64.
pub const C64: u32 = 18;

/// The constant 264.
pub const C264: u32 = 19;

/// The constant that says how often the loop is gone round.
pub const TURNS: u32 = 20;

/// The type of the array in the buffer.
pub const BUFFER_ARRAY: u32 = 21;

/// The type of the shared array.
pub const SHARED_ARRAY: u32 = 22;

/// The type of the buffer, a struct with the array.
pub const BUFFER_BLOCK: u32 = 23;

/// The type of a pointer to `INDEX`.
pub const INPUT_POINTER: u32 = 24;

/// The type of a pointer to the shared array.
pub const ARRAY_POINTER: u32 = 25;

/// The type of a pointer to an integer of the shared array.
pub const SHARED_POINTER: u32 = 26;

/// The type of a pointer to the buffer.
pub const BLOCK_POINTER: u32 = 27;

/// The type of a pointer to an integer of the buffer.
pub const BUFFER_POINTER: u32 = 28;

/// The variable with the number of the invocation.
pub const INDEX: u32 = 29;

/// The array that the invocations share.
pub const SHARED: u32 = 30;

/// The buffer.
pub const BUFFER: u32 = 31;

/// The record of the source file.
pub const SOURCE: u32 = 32;

/// The record of the compilation unit.
pub const UNIT: u32 = 33;

/// The record that stands for no type.
pub const NOTHING: u32 = 34;

/// The record of the type of `acc`.
pub const UINT_RECORD: u32 = 35;

/// The record of the type of `main`.
pub const TYPE_RECORD: u32 = 36;

/// The record of the function `main`.
pub const MAIN_RECORD: u32 = 37;

/// The record of the variable `acc`.
pub const ACC_RECORD: u32 = 38;

/// The expression of a value as it is.
pub const EXPRESSION: u32 = 39;

/// The function.
pub const MAIN: u32 = 40;

/// The block in which it begins.
pub const ENTRY: u32 = 41;

/// The number of the invocation.
pub const OWN: u32 = 45;

/// The place of the invocation in the shared array.
pub const PLACE: u32 = 46;

/// The block with which each turn of the loop begins.
pub const HEAD: u32 = 47;

/// How many turns were made.
pub const COUNT: u32 = 48;

/// The sum so far.
pub const ACC: u32 = 49;

/// Whether there is another turn.
pub const GOES: u32 = 53;

/// The block of a turn.
pub const BODY: u32 = 54;

/// The number of the invocation beside this one.
pub const OTHER: u32 = 57;

/// Its place in the shared array.
pub const OTHER_PLACE: u32 = 58;

/// What it has there.
pub const THEIRS: u32 = 59;

/// Twice the sum.
pub const DOUBLED: u32 = 61;

/// The sum after this turn.
pub const ACC_NEXT: u32 = 62;

/// The number of turns after this one.
pub const COUNT_NEXT: u32 = 63;

/// The block behind the loop.
pub const DONE: u32 = 64;

/// The place of the invocation in the buffer.
pub const OUT: u32 = 67;
