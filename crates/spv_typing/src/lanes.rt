//! The lanes of a type: its components, each a Boolean or an integer of a width.
ghost use Rattle.std.specs.Prelude.{◌≡◌, ◌*◌, ◌<◌};
ghost use Rattle.spv_types.specs.Types.{form_of};
ghost use Rattle.spv_typing.specs.Lanes as spec;

use spv_types::{Form, TypeTable};

/// What one lane is. A width is a number of bits.
#[derive(Clone, Copy)]
pub enum Element {
    Bool,
    Int { width: u32 },
}

/// Some lanes of one kind: one of a scalar, and as many as components of a vector.
#[derive(Clone, Copy)]
pub struct Lanes {
    pub count: u32,
    pub element: Element,
}

/// What a scalar type is.
fn element_of(types: &TypeTable, ty: u32) -> Option<Element>
    ensures { result ≡ spec.element_of (form_of types.now ty) }
{
    match types.form(ty) {
        Some(Form::Bool) => Some(Element::Bool),
        Some(Form::Int { width, .. }) => Some(Element::Int { width: *width }),
        _ => None,
    }
}

/// The lanes of a type; none where it is no scalar and no vector.
#[tactic(auto, unfolding(crate::specs::Lanes::lanes_of))]
pub fn lanes_of(types: &TypeTable, ty: u32) -> Option<Lanes>
    ensures { result ≡ spec.lanes_of types.now ty }
{
    match types.form(ty) {
        Some(Form::Vector { component, count }) => {
            let element = element_of(types, *component)?;
            Some(Lanes {
                count: *count,
                element,
            })
        }
        _ => {
            let element = element_of(types, ty)?;
            Some(Lanes { count: 1, element })
        }
    }
}

/// The lanes of an operand's type, where it has one.
pub(crate) fn lanes_at(types: &TypeTable, ty: Option<u32>) -> Option<Lanes>
    ensures { result ≡ spec.lanes_at types.now ty }
{
    lanes_of(types, ty?)
}

impl Element {
    fn is_same(self, other: Element) -> bool
        ensures { result ≡ spec.same_element self other }
    {
        match (self, other) {
            (Element::Bool, Element::Bool) => true,
            (Element::Int { width }, Element::Int { width: other }) => width == other,
            _ => false,
        }
    }

    /// The bits; a Boolean has none.
    fn bits(self) -> u32
        ensures { result ≡ spec.bits_of self }
    {
        match self {
            Element::Bool => 0,
            Element::Int { width } => width,
        }
    }
}

impl Lanes {
    /// The bits of all lanes together; Booleans have none.
    fn size(self) -> u64
        ensures { result ≡ spec.size_of self }
    {
        u64::from(self.count) * u64::from(self.element.bits())
    }
}

/// Whether there are as many lanes, of one kind.
pub fn same_lanes(a: Option<Lanes>, b: Option<Lanes>) -> bool
    ensures { result ≡ spec.same_lanes a b }
{
    match (a, b) {
        (Some(a), Some(b)) => a.count == b.count && a.element.is_same(b.element),
        _ => false,
    }
}

/// Whether there are as many lanes.
pub fn same_count(a: Option<Lanes>, b: Option<Lanes>) -> bool
    ensures { result ≡ spec.same_count a b }
{
    match (a, b) {
        (Some(a), Some(b)) => a.count == b.count,
        _ => false,
    }
}

/// Whether there are as many bits.
pub fn same_size(a: Option<Lanes>, b: Option<Lanes>) -> bool
    ensures { result ≡ spec.same_size a b }
{
    match (a, b) {
        (Some(a), Some(b)) => a.size() == b.size(),
        _ => false,
    }
}

/// Whether the lanes are integers, one or several.
pub fn are_integers(lanes: Option<Lanes>) -> bool
    ensures { result ≡ spec.are_integers lanes }
{
    match lanes {
        Some(lanes) => matches!(lanes.element, Element::Int { .. }),
        None => false,
    }
}

/// Whether the lanes are Booleans, one or several.
pub fn are_booleans(lanes: Option<Lanes>) -> bool
    ensures { result ≡ spec.are_booleans lanes }
{
    match lanes {
        Some(lanes) => matches!(lanes.element, Element::Bool),
        None => false,
    }
}

/// Whether there is one lane.
pub fn is_single(lanes: Option<Lanes>) -> bool
    ensures { result ≡ spec.is_single lanes }
{
    match lanes {
        Some(lanes) => lanes.count == 1,
        None => false,
    }
}

/// Whether there are several lanes, as only a vector has.
pub fn are_several(lanes: Option<Lanes>) -> bool
    ensures { result ≡ spec.are_several lanes }
{
    match lanes {
        Some(lanes) => lanes.count >= 2,
        None => false,
    }
}
