//! The order of the sections of a module (SPIR-V 1.6 section 2.4).
ghost use Rattle.std.specs.Prelude.{◌≡◌, ◌&&◌, []};
ghost use Rattle.spv_types.specs.Build.{unless_refused};
ghost use Rattle.spv_sections.specs.Sections as spec;

use spv_base::Refusal;
use spv_index::Index;
use spv_index::classes::Class;
use spv_index::positions::Stage;
use spv_index::stands::Stands;
use spv_ops::op;

/// The code of the order of sections.
const ORDER_CODE: u8 = 10;

/// What an instruction is to the order of sections.
#[derive(Clone, Copy)]
enum Part {
    Capability,
    Extension,
    Import,
    MemoryModel,
    EntryPoint,
    ExecutionMode,
    /// A source, a string or a name.
    Debug,
    Decoration,
    /// A type or a constant.
    Declaration,
    /// A variable or an undefined value, of the module or of a function.
    Value,
    /// A line, or an instruction with no meaning at run time.
    Line,
    Function,
    Nop,
    /// It stands in a function.
    Body,
}

/// What an opcode is that is no line.
fn part_by(op: u16) -> Part
    ensures { result ≡ spec.part_by op }
{
    match op {
        op::NOP => Part::Nop,
        op::UNDEF | op::VARIABLE => Part::Value,
        op::SOURCE_CONTINUED
        | op::SOURCE
        | op::SOURCE_EXTENSION
        | op::NAME
        | op::MEMBER_NAME
        | op::STRING
        | op::MODULE_PROCESSED => Part::Debug,
        op::EXTENSION => Part::Extension,
        op::EXT_INST_IMPORT => Part::Import,
        op::MEMORY_MODEL => Part::MemoryModel,
        op::ENTRY_POINT => Part::EntryPoint,
        op::EXECUTION_MODE | op::EXECUTION_MODE_ID => Part::ExecutionMode,
        op::CAPABILITY => Part::Capability,
        op::TYPE_VOID
        | op::TYPE_BOOL
        | op::TYPE_INT
        | op::TYPE_VECTOR
        | op::TYPE_ARRAY
        | op::TYPE_RUNTIME_ARRAY
        | op::TYPE_STRUCT
        | op::TYPE_POINTER
        | op::TYPE_FUNCTION
        | op::CONSTANT_TRUE
        | op::CONSTANT_FALSE
        | op::CONSTANT
        | op::CONSTANT_COMPOSITE
        | op::CONSTANT_NULL
        | op::SPEC_CONSTANT_TRUE
        | op::SPEC_CONSTANT_FALSE
        | op::SPEC_CONSTANT
        | op::SPEC_CONSTANT_COMPOSITE
        | op::SPEC_CONSTANT_OP => Part::Declaration,
        op::FUNCTION => Part::Function,
        op::DECORATE | op::MEMBER_DECORATE => Part::Decoration,
        _ => Part::Body,
    }
}

/// What an instruction is, by its class in functions.
fn part_of(class: Class, op: u16) -> Part
    ensures { result ≡ spec.part_of class op }
{
    match class {
        Class::Line => Part::Line,
        Class::Function
        | Class::Parameter
        | Class::End
        | Class::Label
        | Class::Phi
        | Class::Variable
        | Class::Terminator
        | Class::Passed
        | Class::Executable => part_by(op),
    }
}

impl Part {
    /// The number of its section.
    fn rank(self) -> u8
        ensures { result ≡ spec.rank self }
    {
        match self {
            Part::Capability => 0,
            Part::Extension => 1,
            Part::Import => 2,
            Part::MemoryModel => 3,
            Part::EntryPoint => 4,
            Part::ExecutionMode => 5,
            Part::Debug => 6,
            Part::Decoration => 7,
            Part::Declaration | Part::Value | Part::Line => 8,
            Part::Function | Part::Nop | Part::Body => 9,
        }
    }

    /// Whether it may stand at a stage, whatever stands before it.
    fn fits_stage(self, stage: Stage) -> bool
        ensures { result ≡ spec.fits_stage stage self }
    {
        match self {
            Part::Nop => stage.in_block(),
            Part::Body => stage.in_function(),
            Part::Capability
            | Part::Extension
            | Part::Import
            | Part::MemoryModel
            | Part::EntryPoint
            | Part::ExecutionMode
            | Part::Debug
            | Part::Decoration
            | Part::Declaration
            | Part::Value
            | Part::Line
            | Part::Function => true,
        }
    }

    /// Whether it may stand at a stage behind what belongs to the section with this number.
    fn may_follow(self, stage: Stage, earlier: u8) -> bool
        ensures { result ≡ spec.may_follow stage self earlier }
    {
        match self {
            Part::Capability
            | Part::Extension
            | Part::Import
            | Part::EntryPoint
            | Part::ExecutionMode
            | Part::Debug
            | Part::Decoration
            | Part::Declaration => earlier <= self.rank(),
            Part::MemoryModel => earlier < self.rank(),
            Part::Value => stage.in_function() || earlier <= self.rank(),
            Part::Line | Part::Function | Part::Nop | Part::Body => true,
        }
    }

    /// Whether it may stand at a stage, where the last section that was reached has this number.
    fn may_stand(self, stage: Stage, reached: u8) -> bool
        ensures { result ≡ (spec.fits_stage stage self && spec.may_follow stage self reached) }
    {
        self.fits_stage(stage) && self.may_follow(stage, reached)
    }
}

/// Refuses the first instruction that stands behind a later section than its own, or where its kind may not stand.
fn check_order(stands: &Stands) -> Result<(), Refusal>
    ensures { result ≡ unless_refused tt (spec.order_breaches_behind [] stands.now) }
{
    let mut reached = 0;
    for n in 0..stands.len() {
        let stand = stands.at(n);
        let part = part_of(stand.class, stand.inst.op);
        if !part.may_stand(stand.position.stage, reached) {
            return Err(Refusal {
                code: ORDER_CODE,
                word: stand.inst.word,
            });
        }
        reached = reached.max(part.rank());
    }
    Ok(())
}

/// Checks the order of the sections of a module.
///
/// Refuses M10, at the first instruction that stands behind a later section than its own, or where its kind may not
/// stand; a second OpMemoryModel too.
#[tactic(auto, unfolding(crate::specs::Sections::sections_of))]
pub fn check_sections(index: &Index) -> Result<(), Refusal>
    ensures { result ≡ spec.sections_of index.now.insts }
{
    check_order(&index.stands())
}
