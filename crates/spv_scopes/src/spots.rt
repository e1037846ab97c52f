//! Where each instruction of a block stands in the source, in one pass over the module.
ghost use Rattle.std.specs.Prelude.{◌≡◌, ◌++◌, List, IfOk, OnOk, map, reverse};
ghost use Rattle.spv_dbg.specs.Tables.{Tables};
ghost use Rattle.spv_dbg.specs.declared.insts.DebugInst.{DebugInst as Record};
ghost use Rattle.spv_index.specs.Positions.{Stand as Stood};
ghost use Rattle.spv_scopes.specs.Calls.{seen, seen_at};
ghost use Rattle.spv_scopes.specs.InForce.{in_force};
ghost use Rattle.spv_scopes.specs.Spots as spec;
ghost use Rattle.spv_scopes.specs.Read.{AreCallsRead, AreScopesRead};
ghost use Rattle.spv_scopes.specs.Scopes.{calls_around};

use crate::calls::Linked;
use crate::in_force::InForce;
use crate::places::Place;
use crate::scopes::Scopes;
use spv_base::NoMemory;
use spv_dbg::DebugTables;
use spv_index::stands::Stand;
use spv_valid::Module;
use std::alloc::Global;

/// The place where this is in force, with the call around it.
fn linked_at(scopes: &Scopes, force: InForce, inlined: u32) -> Linked
    ensures place { (back : List Record) → AreScopesRead back scopes.now.enclosings → result.place ≡ spec.place_of back force inlined }
    ensures calls { (t : Tables) (back : List Record) → AreCallsRead t back scopes.now.calls → (seen_at scopes.now.calls.list.items result).calls ≡ calls_around t back inlined }
{
    let (file, line) = force.line();
    Linked {
        place: Place {
            scope: force.scope,
            inlined,
            function: scopes.function(force.scope),
            file,
            line,
        },
        call: scopes.calls.number(inlined),
    }
}

/// Adds the place of an instruction, where this is in force, if it stands in a block.
fn add_spot(
    tables: &DebugTables,
    scopes: &Scopes,
    force: InForce,
    stand: &Stand<'_>,
    entries: &mut Vec<(u32, Linked)>,
) -> Result<(), NoMemory>
    requires scopes { AreScopesRead (reverse tables.now.insts) scopes.now.enclosings }
    requires calls { AreCallsRead tables.now (reverse tables.now.insts) scopes.now.calls }
    ensures { OnOk result ((before : List Stood) → force ≡ in_force tables.now before → map (seen scopes.now.calls.list.items) entries.new.items ≡ map (seen scopes.now.calls.list.items) entries.old.items ++ spec.entry_at tables.now before (record { position = stand.now.position; class = stand.now.class; inst = stand.now.inst.now })) }
{
    if stand.position.stage.in_block() {
        let word = stand.inst.word;
        entries.push((word, linked_at(scopes, force, tables.inlined_at(word))))?;
    }
    Ok(())
}

/// Where each instruction of a block stands, by its word.
#[tactic(auto, unfolding(crate::specs::Spots::spots_of))]
pub(crate) fn spots_of(
    alloc: Global,
    module: &Module,
    tables: &DebugTables,
    scopes: &Scopes,
) -> Result<Vec<(u32, Linked)>, NoMemory>
    requires scopes { AreScopesRead (reverse tables.now.insts) scopes.now.enclosings }
    requires calls { AreCallsRead tables.now (reverse tables.now.insts) scopes.now.calls }
    ensures { IfOk result (λ entries. map (seen scopes.now.calls.list.items) entries.items ≡ spec.spots_of module.now tables.now) }
{
    let stands = module.index().stands();
    let mut entries = Vec::new(alloc);
    let mut force = InForce::none();
    for n in 0..stands.len() {
        let stand = stands.at(n);
        add_spot(tables, scopes, force, &stand, &mut entries)?;
        force = force.after(tables, &stand);
    }
    Ok(entries)
}
