//! What one type is, its parts named by their ids (SPIR-V 1.6 section 3.42.6).
ghost use Rattle.std.specs.Prelude.{◌≡◌, IfOk};

use spv_base::{Items, NoMemory};
use std::alloc::Global;

/// A member of a struct: the id of its type, and its Offset in bytes where it has one.
#[derive(Clone, Copy)]
pub struct Member {
    pub ty: u32,
    pub offset: Option<u32>,
}

/// A type. Its parts, the target of a pointer, and the result and parameters of a function are named by their ids.
///
/// `sign` is 1 for a signed integer and 0 for an unsigned one, a `stride` is an ArrayStride in bytes, and `block` says
/// that a struct is decorated Block. The length of an array is set once it is known.
#[derive(Drop)]
pub enum Form {
    Void,
    Bool,
    Int {
        width: u32,
        sign: u32,
    },
    Vector {
        component: u32,
        count: u32,
    },
    Array {
        element: u32,
        length: Option<u32>,
        stride: Option<u32>,
    },
    Runtime {
        element: u32,
        stride: Option<u32>,
    },
    Struct {
        members: Items<Member>,
        block: bool,
    },
    Pointer {
        class: u32,
        target: u32,
    },
    Function {
        returns: u32,
        parameters: Items<u32>,
    },
}

impl Form {
    /// An equal form.
    pub fn copy(&self, alloc: Global) -> Result<Form, NoMemory>
        ensures { IfOk result (λ form. form ≡ self.now) }
    {
        match self {
            Form::Void => Ok(Form::Void),
            Form::Bool => Ok(Form::Bool),
            Form::Int { width, sign } => Ok(Form::Int {
                width: *width,
                sign: *sign,
            }),
            Form::Vector { component, count } => Ok(Form::Vector {
                component: *component,
                count: *count,
            }),
            Form::Array {
                element,
                length,
                stride,
            } => Ok(Form::Array {
                element: *element,
                length: *length,
                stride: *stride,
            }),
            Form::Runtime { element, stride } => Ok(Form::Runtime {
                element: *element,
                stride: *stride,
            }),
            Form::Struct { members, block } => Ok(Form::Struct {
                members: members.copy(alloc)?,
                block: *block,
            }),
            Form::Pointer { class, target } => Ok(Form::Pointer {
                class: *class,
                target: *target,
            }),
            Form::Function {
                returns,
                parameters,
            } => Ok(Form::Function {
                returns: *returns,
                parameters: parameters.copy(alloc)?,
            }),
        }
    }
}
