//! Laws of debug records.
ghost use Rattle.std.specs.Prelude.{◌≡◌, ◌↔◌, Bool, true};
ghost use Rattle.spv_valid.specs.Acceptance.{Accepted, IsAccepted};
ghost use Rattle.spv_dbg.specs.Forming.{is_formed};
ghost use Rattle.spv_dbg.specs.Marks.{Marks};
ghost use Rattle.spv_dbg.specs.Records.{AreRecords};
ghost use Rattle.spv_dbg.specs.Tables.{tables_of};
ghost use Rattle.spv_dbg.specs.Wellformed.{IsWellFormed};
ghost use Rattle.spv_dbg.specs.declared.insts.DebugInst.{DebugInst as Record};

use spv_valid::accepted_modules_are_valid;

/// A law, with nothing to run: a debug instruction, in a block or not, is counted as well-formed exactly where it is, by the row
/// of its kind and the limits on types.
pub fn well_formed_records_are_those_of_the_table()
    ensures { (m : Accepted) (marks : Marks) (inside : Bool) (d : Record) → (is_formed m marks inside d ≡ true) ↔ IsWellFormed m marks inside d }
{}

/// A law, with nothing to run: in the tables of an accepted module the debug records stand at ascending words, each has an id
/// of its own, and its operands are those of its kind: they lead to records before it, to numbers and to strings, all in the
/// tables; and its bits are those that its parts give, at most 268,435,456, as its nesting is at most 64.
pub fn records_are_whole_in_their_tables()
    ensures { (m : Accepted) → IsAccepted m → AreRecords (tables_of m) }
{
    accepted_modules_are_valid();
}
