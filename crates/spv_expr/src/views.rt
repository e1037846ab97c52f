//! What variables are read from.
use spv_dbg::DebugTables;
use spv_mem::Memory;

/// The debug tables of a module, and the memory as an invocation sees it now.
#[derive(Clone, Copy)]
pub(crate) struct View<'a> {
    pub(crate) tables: &'a DebugTables,
    pub(crate) memory: &'a Memory,
    pub(crate) inv: u32,
}
