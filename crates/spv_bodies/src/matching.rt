//! Types that match logically, and copies between them.
ghost use Rattle.std.specs.Prelude.{◌≡◌, IfOk};
ghost use Rattle.spv_bodies.specs.Matching as spec;

use crate::classes::{are_of_one_class, classes_of};
use crate::context::Context;
use spv_base::{Inst, NoMemory};
use spv_types::TypeTable;
use spv_typing::fitting::is_selectable;
use std::alloc::Global;
use std::marker::Model;

/// Which types of a table match logically. Contracts see the types.
///
/// The classes of the types are found when they are first asked for, all at once.
#[derive(Drop)]
pub struct Matching<'a> {
    alloc: Global,
    types: &'a TypeTable,
    classes: Option<Vec<Option<usize>>>,
}

impl<'a> Model for Matching<'a> {
    ghost use Rattle.std.specs.Prelude.{◌≡◌, IfSome, length};
    ghost use Rattle.spv_types.specs.Types.{Types};
    ghost use Rattle.spv_bodies.specs.Classes.{AreClasses};

    ghost Value = { Types };

    ghost view = { λ m. m.types.now };

    ghost invariant = { λ m. IfSome m.classes (λ classes. (length classes.items ≡ length m.types.now) × AreClasses m.types.now classes.items) };
}

impl<'a> Matching<'a> {
    /// Which of these types match.
    pub fn of(alloc: Global, types: &'a TypeTable) -> Matching<'a>
        ensures { result ≡ types.now }
    {
        Matching {
            alloc,
            types,
            classes: None,
        }
    }

    /// Whether two types match.
    pub fn do_match(&mut self, a: u32, b: u32) -> Result<bool, NoMemory>
        ensures same { self.new ≡ self.old }
        ensures are { IfOk result (λ are. are ≡ spec.do_match self.old a b) }
    {
        if a == b {
            return Ok(true);
        }
        if let Some(classes) = &self.classes {
            return Ok(are_of_one_class(self.types, classes.as_slice(), a, b));
        }
        let classes = classes_of(self.alloc, self.types)?;
        let are = are_of_one_class(self.types, classes.as_slice(), a, b);
        self.classes = Some(classes);
        Ok(are)
    }
}

/// Whether a copy is of a type that matches the result's, which is no pointer type.
pub fn keeps_copy_logical(
    context: &Context,
    matching: &mut Matching,
    inst: &Inst,
) -> Result<bool, NoMemory>
    requires { matching.old ≡ context.now.types }
    ensures same { matching.new ≡ matching.old }
    ensures kept { IfOk result (λ kept. kept ≡ spec.keeps_copy_logical context.now inst.now) }
{
    if !is_selectable(context.types(), inst.ty) {
        return Ok(false);
    }
    match context.type_at(inst, 0) {
        Some(ty) => matching.do_match(ty, inst.ty),
        None => Ok(false),
    }
}
