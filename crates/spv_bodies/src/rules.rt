//! The rule that each opcode has in a function body.
ghost use Rattle.std.specs.Prelude.{◌≡◌};
ghost use Rattle.spv_bodies.specs.Rules as spec;

use spv_ops::op;

/// A rule of function bodies.
#[derive(Clone, Copy)]
pub enum Rule {
    /// It is kept wherever the instruction stands.
    Free,
    /// Of a lane-wise operation. An opcode with no rule in a function has this one too, and no instruction keeps it.
    Lanes,
    /// Of a choice, of lanes or of pointers.
    Select,
    /// Of an instruction of an imported set.
    Extended,
    Memory(MemoryRule),
    Atomic(AtomicRule),
    Composite(CompositeRule),
    Control(ControlRule),
}

/// A rule of variables, loads, stores, chains and comparisons of pointers.
#[derive(Clone, Copy)]
pub enum MemoryRule {
    Undef,
    Variable,
    Load,
    Store,
    CopyMemory,
    ArrayLength,
    Chain,
    PtrChain,
    PtrEqual,
}

/// A rule of atomics and barriers.
#[derive(Clone, Copy)]
pub enum AtomicRule {
    /// A load, an increment or a decrement: it has no value.
    Read,
    Store,
    /// It has a value, and gives the old one.
    Update,
    Compare,
    ControlBarrier,
    MemoryBarrier,
}

/// A rule of composite operations and copies.
#[derive(Clone, Copy)]
pub enum CompositeRule {
    ExtractDynamic,
    InsertDynamic,
    Shuffle,
    Construct,
    Extract,
    Insert,
    CopyObject,
    CopyLogical,
}

/// A rule of functions, calls, phis and ends of blocks.
#[derive(Clone, Copy)]
pub enum ControlRule {
    Phi,
    Branch,
    Switch,
    Return,
    ReturnValue,
    Function,
    Parameter,
    Call,
}

/// The rule of an opcode of variables and memory.
#[tactic(auto, unfolding(crate::specs::Rules::memory_rule))]
fn memory_rule(op: u16) -> Option<MemoryRule>
    ensures { result ≡ spec.memory_rule op }
{
    match op {
        op::UNDEF => Some(MemoryRule::Undef),
        op::VARIABLE => Some(MemoryRule::Variable),
        op::LOAD => Some(MemoryRule::Load),
        op::STORE => Some(MemoryRule::Store),
        op::COPY_MEMORY => Some(MemoryRule::CopyMemory),
        op::ACCESS_CHAIN | op::IN_BOUNDS_ACCESS_CHAIN => Some(MemoryRule::Chain),
        op::PTR_ACCESS_CHAIN => Some(MemoryRule::PtrChain),
        op::PTR_EQUAL | op::PTR_NOT_EQUAL => Some(MemoryRule::PtrEqual),
        op::ARRAY_LENGTH => Some(MemoryRule::ArrayLength),
        _ => None,
    }
}

/// The rule of an opcode of atomics and barriers.
#[tactic(auto, unfolding(crate::specs::Rules::atomic_rule))]
fn atomic_rule(op: u16) -> Option<AtomicRule>
    ensures { result ≡ spec.atomic_rule op }
{
    match op {
        op::CONTROL_BARRIER => Some(AtomicRule::ControlBarrier),
        op::MEMORY_BARRIER => Some(AtomicRule::MemoryBarrier),
        op::ATOMIC_LOAD | op::ATOMIC_I_INCREMENT | op::ATOMIC_I_DECREMENT => Some(AtomicRule::Read),
        op::ATOMIC_STORE => Some(AtomicRule::Store),
        op::ATOMIC_EXCHANGE
        | op::ATOMIC_I_ADD
        | op::ATOMIC_I_SUB
        | op::ATOMIC_S_MIN
        | op::ATOMIC_U_MIN
        | op::ATOMIC_S_MAX
        | op::ATOMIC_U_MAX
        | op::ATOMIC_AND
        | op::ATOMIC_OR
        | op::ATOMIC_XOR => Some(AtomicRule::Update),
        op::ATOMIC_COMPARE_EXCHANGE => Some(AtomicRule::Compare),
        _ => None,
    }
}

/// The rule of an opcode of composites and copies.
#[tactic(auto, unfolding(crate::specs::Rules::composite_rule))]
fn composite_rule(op: u16) -> Option<CompositeRule>
    ensures { result ≡ spec.composite_rule op }
{
    match op {
        op::VECTOR_EXTRACT_DYNAMIC => Some(CompositeRule::ExtractDynamic),
        op::VECTOR_INSERT_DYNAMIC => Some(CompositeRule::InsertDynamic),
        op::VECTOR_SHUFFLE => Some(CompositeRule::Shuffle),
        op::COMPOSITE_CONSTRUCT => Some(CompositeRule::Construct),
        op::COMPOSITE_EXTRACT => Some(CompositeRule::Extract),
        op::COMPOSITE_INSERT => Some(CompositeRule::Insert),
        op::COPY_OBJECT => Some(CompositeRule::CopyObject),
        op::COPY_LOGICAL => Some(CompositeRule::CopyLogical),
        _ => None,
    }
}

/// The rule of an opcode of functions, calls, phis and ends of blocks.
#[tactic(auto, unfolding(crate::specs::Rules::control_rule))]
fn control_rule(op: u16) -> Option<ControlRule>
    ensures { result ≡ spec.control_rule op }
{
    match op {
        op::FUNCTION => Some(ControlRule::Function),
        op::FUNCTION_PARAMETER => Some(ControlRule::Parameter),
        op::FUNCTION_CALL => Some(ControlRule::Call),
        op::PHI => Some(ControlRule::Phi),
        op::BRANCH_CONDITIONAL => Some(ControlRule::Branch),
        op::SWITCH => Some(ControlRule::Switch),
        op::RETURN => Some(ControlRule::Return),
        op::RETURN_VALUE => Some(ControlRule::ReturnValue),
        _ => None,
    }
}

/// The rule of an opcode that is of no group.
#[tactic(auto, unfolding(crate::specs::Rules::other_rule))]
fn other_rule(op: u16) -> Rule
    ensures { result ≡ spec.other_rule op }
{
    match op {
        op::NOP
        | op::LINE
        | op::FUNCTION_END
        | op::LOOP_MERGE
        | op::SELECTION_MERGE
        | op::LABEL
        | op::BRANCH
        | op::UNREACHABLE
        | op::NO_LINE => Rule::Free,
        op::SELECT => Rule::Select,
        op::EXT_INST => Rule::Extended,
        _ => Rule::Lanes,
    }
}

/// The rule of an opcode.
pub fn rule_of(op: u16) -> Rule
    ensures { result ≡ spec.rule_of op }
{
    if let Some(rule) = memory_rule(op) {
        return Rule::Memory(rule);
    }
    if let Some(rule) = control_rule(op) {
        return Rule::Control(rule);
    }
    if let Some(rule) = composite_rule(op) {
        return Rule::Composite(rule);
    }
    match atomic_rule(op) {
        Some(rule) => Rule::Atomic(rule),
        None => other_rule(op),
    }
}
