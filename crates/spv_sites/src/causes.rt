//! Why an instruction faults.
ghost use Rattle.std.specs.Prelude.{◌≡◌};
ghost use Rattle.spv_sites.specs.Effects.{code_of};

/// Why an instruction faults. A fault changes nothing, and the run ends before it.
#[derive(Clone, Copy)]
pub enum Cause {
    /// F1: a branch or a switch by a value that is not defined.
    UndefinedBranch,
    /// F2: an access chain by an index that is not defined, or a choice between pointers by such a condition.
    UndefinedIndex,
    /// F3: an access where a pointer names no part of memory.
    OutOfBounds,
    /// F4: an operand without a value.
    NoValue,
    /// F5: OpUnreachable.
    Unreachable,
}

impl Cause {
    /// The number of the fault.
    pub fn code(self) -> u8
        ensures { result ≡ code_of self }
    {
        match self {
            Cause::UndefinedBranch => 1,
            Cause::UndefinedIndex => 2,
            Cause::OutOfBounds => 3,
            Cause::NoValue => 4,
            Cause::Unreachable => 5,
        }
    }
}
