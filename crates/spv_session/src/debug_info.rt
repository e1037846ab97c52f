//! The debug information of a module, read once when a session opens.
ghost use Rattle.std.specs.Prelude.{◌≡◌, IfOk};
ghost use Rattle.spv_dbg.specs.Tables.{tables_of};
ghost use Rattle.spv_paths.specs.Variables.{variables_of};
ghost use Rattle.spv_scopes.specs.Lines.{lines_of};
ghost use Rattle.spv_session.specs.Typing.{typing_in};

use spv_base::NoMemory;
use spv_dbg::DebugTables;
use spv_expr::Sizes;
use spv_initial::declared_in;
use spv_initial::variables::targets_of;
use spv_paths::Variables;
use spv_scopes::Lines;
use spv_valid::Module;
use std::alloc::Global;

/// The debug tables of a module, where its instructions stand in the source, its variables, and how long the values of its types are.
#[derive(Drop)]
pub(crate) struct DebugInfo {
    pub(crate) tables: DebugTables,
    pub(crate) lines: Lines,
    pub(crate) variables: Variables,
    pub(crate) sizes: Sizes,
}

/// The types of a module, with how long their values are.
fn sizes_in(alloc: Global, module: &Module) -> Result<Sizes, NoMemory>
    ensures { IfOk result (λ sizes. sizes ≡ typing_in module.now) }
{
    let variables = declared_in(alloc, module.types(), module.insts())?;
    let targets = targets_of(alloc, variables.as_slice())?;
    Sizes::of(alloc, module.types(), targets.as_slice())
}

impl DebugInfo {
    /// That of a module.
    pub(crate) fn of(alloc: Global, module: &Module) -> Result<DebugInfo, NoMemory>
        ensures tables { IfOk result (λ info. info.tables ≡ tables_of module.now) }
        ensures variables { IfOk result (λ info. info.variables ≡ variables_of (tables_of module.now)) }
        ensures sizes { IfOk result (λ info. info.sizes ≡ typing_in module.now) }
        ensures lines { IfOk result (λ info. info.lines ≡ lines_of module.now (tables_of module.now)) }
    {
        let tables = DebugTables::build(alloc, module)?;
        let lines = Lines::build(alloc, module, &tables)?;
        let variables = Variables::build(alloc, &tables)?;
        let sizes = sizes_in(alloc, module)?;
        Ok(DebugInfo {
            tables,
            lines,
            variables,
            sizes,
        })
    }
}
