//! What a line of a setup says.
ghost use Rattle.std.specs.Prelude.{◌≡◌};
ghost use Rattle.spv_setup.specs.Codes.{code_of};

use spv_base::Bytes;

/// The version of a setup, which its first line names. Version 2 has all lines of version 1, and `barrier`.
#[derive(Clone, Copy)]
pub enum Version {
    One,
    Two,
}

/// The bytes of a buffer.
#[derive(Drop)]
pub enum Content {
    /// These bytes.
    Hex(Bytes),
    /// So many bytes that are zero, at most 16,777,216.
    Zero(u32),
}

/// The numbers of a workgroup, and how many workgroups there are, each by x, y and z.
#[derive(Clone, Copy)]
pub struct Workgroup {
    /// WorkgroupId, each number below that of `number`.
    pub place: (u32, u32, u32),
    /// NumWorkgroups.
    pub number: (u32, u32, u32),
}

/// What a line of a setup after the first says.
#[derive(Drop)]
pub enum Line {
    /// `entry NAME`: the name of the entry point.
    Entry(Bytes),
    /// `group X Y Z of X Y Z`: which workgroup runs, and of how many.
    Group(Workgroup),
    /// `spec ID VALUE`: a number for the constants of a SpecId, from -2^63 to 2^64 - 1.
    Spec {
        id: u32,
        value: i128,
    },
    /// `buffer SET BIND hex DIGITS` or `buffer SET BIND zero N`: the bytes of a buffer.
    Buffer {
        set: u32,
        binding: u32,
        content: Content,
    },
    /// `push hex DIGITS`: the bytes of the push constants.
    Push(Bytes),
    /// `move I N`: N entries of an invocation, at most 4,194,304.
    Move {
        invocation: u32,
        count: u32,
    },
    /// `rounds N`: N times an entry of each invocation, at most 4,194,304.
    Rounds(u32),
    /// `barrier finished-count`: finished invocations count as arrived at a barrier.
    FinishedCount,
}

/// Why a line is refused.
#[derive(Clone, Copy)]
pub enum LineFault {
    /// A word is unknown, or the number of words is wrong.
    Words,
    /// A number or a hexadecimal word has a wrong form or range.
    Form,
    /// There was such a line before, and there may be one alone.
    Repeated,
}

impl LineFault {
    /// The number in the code of its refusal.
    pub fn code(self) -> u8
        ensures { result ≡ code_of self }
    {
        match self {
            LineFault::Words => 2,
            LineFault::Form => 3,
            LineFault::Repeated => 4,
        }
    }
}
