//! What the bodies of an accepted module give.
ghost use Rattle.std.specs.Prelude.{◌≡◌, ◌↔◌, List, Ok};
ghost use Rattle.std.specs.Bool.{Decides};
ghost use Rattle.spv_base.specs.declared.instructions.Inst.{Inst};
ghost use Rattle.spv_consts.specs.Table.{Constants};
ghost use Rattle.spv_types.specs.Types.{Types};
ghost use Rattle.spv_types.specs.InterfaceBlocks.{nothing};
ghost use Rattle.spv_bodies.specs.Bodies.{KeepsBody, bodies_of, keeps_body};
ghost use Rattle.spv_bodies.specs.Context.{Known, known_of};
ghost use Rattle.spv_bodies.specs.Laws.{KeepRules};
ghost use Rattle.spv_bodies.specs.Places.{Placed};

/// A law, with nothing to run: the bodies of functions are accepted exactly where each instruction from the first function on
/// keeps the rule of its opcode, and an instruction is a breach exactly where it doesn't.
pub fn instructions_keep_their_rules()
    ensures all { (ts : Types) (cs : Constants) (insts : List Inst) → (bodies_of ts cs insts ≡ Ok nothing) ↔ KeepRules (known_of ts cs insts) insts }
    ensures each { (k : Known) (p : Placed) → Decides (keeps_body k p) (KeepsBody k p) }
{}
