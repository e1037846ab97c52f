//! What instructions do when a run reaches them.
ghost use Rattle.std.specs.Prelude.{◌≡◌};
ghost use Rattle.spv_state.specs.Actions as spec;

use spv_base::Inst;
use spv_ops::op;

/// What an atomic does to the integer at its pointer (SPIR-V 1.6 section 3.42.18).
#[derive(Clone, Copy)]
pub enum AtomicOp {
    Load,
    Store,
    Exchange,
    CompareExchange,
    Increment,
    Decrement,
    Add,
    Sub,
    SMin,
    UMin,
    SMax,
    UMax,
    And,
    Or,
    Xor,
}

impl AtomicOp {
    /// What the atomic of an opcode does, if it is one of an atomic.
    #[tactic(auto, unfolding(crate::specs::Actions::atomic_op))]
    pub fn of(opcode: u16) -> Option<AtomicOp>
        ensures { result ≡ spec.atomic_op opcode }
    {
        match opcode {
            op::ATOMIC_LOAD => Some(AtomicOp::Load),
            op::ATOMIC_STORE => Some(AtomicOp::Store),
            op::ATOMIC_EXCHANGE => Some(AtomicOp::Exchange),
            op::ATOMIC_COMPARE_EXCHANGE => Some(AtomicOp::CompareExchange),
            op::ATOMIC_I_INCREMENT => Some(AtomicOp::Increment),
            op::ATOMIC_I_DECREMENT => Some(AtomicOp::Decrement),
            op::ATOMIC_I_ADD => Some(AtomicOp::Add),
            op::ATOMIC_I_SUB => Some(AtomicOp::Sub),
            op::ATOMIC_S_MIN => Some(AtomicOp::SMin),
            op::ATOMIC_U_MIN => Some(AtomicOp::UMin),
            op::ATOMIC_S_MAX => Some(AtomicOp::SMax),
            op::ATOMIC_U_MAX => Some(AtomicOp::UMax),
            op::ATOMIC_AND => Some(AtomicOp::And),
            op::ATOMIC_OR => Some(AtomicOp::Or),
            op::ATOMIC_XOR => Some(AtomicOp::Xor),
            _ => None,
        }
    }
}

/// What an instruction does.
#[derive(Clone, Copy)]
pub enum Action {
    /// It computes a value.
    Compute,
    /// It chooses one of two values, or of two pointers.
    Select,
    Load,
    Store,
    CopyMemory,
    /// AccessChain and InBoundsAccessChain.
    Chain,
    PtrChain,
    PtrEqual,
    PtrNotEqual,
    ArrayLength,
    Branch,
    BranchConditional,
    Switch,
    Call,
    Return,
    ReturnValue,
    Unreachable,
    ControlBarrier,
    MemoryBarrier,
    Atomic(AtomicOp),
}

impl Action {
    /// What an instruction does at which a run stops, by its opcode.
    #[tactic(auto, unfolding(crate::specs::Actions::action_of))]
    pub fn of(inst: &Inst) -> Action
        ensures { result ≡ spec.action_of inst.now }
    {
        match inst.op {
            op::FUNCTION_CALL => Action::Call,
            op::LOAD => Action::Load,
            op::STORE => Action::Store,
            op::COPY_MEMORY => Action::CopyMemory,
            op::ACCESS_CHAIN | op::IN_BOUNDS_ACCESS_CHAIN => Action::Chain,
            op::PTR_ACCESS_CHAIN => Action::PtrChain,
            op::ARRAY_LENGTH => Action::ArrayLength,
            op::SELECT => Action::Select,
            op::CONTROL_BARRIER => Action::ControlBarrier,
            op::MEMORY_BARRIER => Action::MemoryBarrier,
            op::BRANCH => Action::Branch,
            op::BRANCH_CONDITIONAL => Action::BranchConditional,
            op::SWITCH => Action::Switch,
            op::RETURN => Action::Return,
            op::RETURN_VALUE => Action::ReturnValue,
            op::UNREACHABLE => Action::Unreachable,
            op::PTR_EQUAL => Action::PtrEqual,
            op::PTR_NOT_EQUAL => Action::PtrNotEqual,
            _ => match AtomicOp::of(inst.op) {
                Some(operation) => Action::Atomic(operation),
                None => Action::Compute,
            },
        }
    }
}
