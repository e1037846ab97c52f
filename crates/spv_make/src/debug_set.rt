//! The instructions of NonSemantic.Shader.DebugInfo.100 that the module has, by their numbers in the set (revision 1.00).

/// `DebugInfoNone`.
pub const INFO_NONE: u32 = 0;

/// `DebugCompilationUnit`.
pub const COMPILATION_UNIT: u32 = 1;

/// `DebugTypeBasic`.
pub const TYPE_BASIC: u32 = 2;

/// `DebugTypeFunction`.
pub const TYPE_FUNCTION: u32 = 8;

/// `DebugFunction`.
pub const FUNCTION: u32 = 20;

/// `DebugScope`.
pub const SCOPE: u32 = 23;

/// `DebugLocalVariable`.
pub const LOCAL_VARIABLE: u32 = 26;

/// `DebugValue`.
pub const VALUE: u32 = 29;

/// `DebugExpression`.
pub const EXPRESSION: u32 = 31;

/// `DebugSource`.
pub const SOURCE: u32 = 35;

/// `DebugFunctionDefinition`.
pub const FUNCTION_DEFINITION: u32 = 101;

/// `DebugLine`.
pub const LINE: u32 = 103;
