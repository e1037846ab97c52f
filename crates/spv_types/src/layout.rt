//! How blocks are laid out.
ghost use Rattle.std.specs.Prelude.{◌≡◌, ◌<◌, ◌&&◌, map, length, unwrap_or, IfOk};
ghost use Rattle.std.specs.List.{All};
ghost use Rattle.std.specs.Option.{is_some};
ghost use Rattle.spv_types.specs.Layout.{IsForward, greatest_end, is_laid, keeps_stride, laid_among, laid_step, are_members_laid, none_overlap, size_among, size_of, size_step, span_of};
ghost use Rattle.spv_types.specs.Measured.{AreLaid, AreSizes};

use crate::forms::{Form, Member};
use crate::spans::{Span, none_overlap};
use crate::table::TypeTable;
use spv_base::NoMemory;
use std::alloc::Global;

/// Whether a stride is not 0 and not below the size of an element.
fn keeps_stride(size: u64, stride: Option<u32>) -> bool
    ensures { result ≡ keeps_stride size stride }
{
    match stride {
        Some(stride) => stride >= 1 && size <= u64::from(stride),
        None => false,
    }
}

/// The first byte of a member.
fn start(member: &Member) -> u64
    ensures { result ≡ unwrap_or member.now.offset 0 }
{
    u64::from(member.offset.unwrap_or(0))
}

/// The bytes of a type among the first, whose sizes are known.
fn known_size(types: &TypeTable, sizes: &[u64], ty: u32) -> u64
    requires { AreSizes types.now sizes.now }
    ensures { result ≡ size_among types.now (length sizes.now) ty }
{
    match types.number(ty) {
        Some(n) if n < sizes.len() => sizes[n],
        _ => 0,
    }
}

/// The bytes of a type, where all sizes are known.
#[tactic(auto, unfolding(crate::specs::Layout::size_of))]
pub fn whole_size(types: &TypeTable, sizes: &[u64], ty: u32) -> u64
    requires sizes { AreSizes types.now sizes.now }
    requires all { length sizes.now ≡ length types.now }
    ensures { result ≡ size_of types.now ty }
{
    known_size(types, sizes, ty)
}

/// The bytes of a form whose parts are among the first types, whose sizes are known.
fn form_size(types: &TypeTable, sizes: &[u64], form: &Form) -> u64
    requires { AreSizes types.now sizes.now }
    ensures { result ≡ size_step (size_among types.now (length sizes.now)) form.now }
{
    match form {
        Form::Int { width, .. } => u64::from(*width) / 8,
        Form::Vector { component, count } => known_size(types, sizes, *component).saturating_mul(
            u64::from(*count),
        ),
        Form::Array { length, stride, .. } => {
            u64::from(length.unwrap_or(0)).saturating_mul(u64::from(stride.unwrap_or(0)))
        }
        Form::Struct { members, .. } => greatest_end(types, sizes, members.as_slice()),
        _ => 0,
    }
}

/// The greatest end of some members.
fn greatest_end(types: &TypeTable, sizes: &[u64], members: &[Member]) -> u64
    requires { AreSizes types.now sizes.now }
    ensures { result ≡ greatest_end (size_among types.now (length sizes.now)) members.now }
{
    let mut greatest: u64 = 0;
    for member in members {
        greatest = greatest.max(start(member).saturating_add(known_size(types, sizes, member.ty)));
    }
    greatest
}

/// The bytes of each type, by its number.
pub fn sizes(alloc: Global, types: &TypeTable) -> Result<Vec<u64>, NoMemory>
    ensures sizes { IfOk result (λ sizes. AreSizes types.now sizes.items) }
    ensures all { IfOk result (λ sizes. length sizes.items ≡ length types.now) }
{
    let mut sizes = Vec::new(alloc);
    for n in 0..types.len() {
        sizes.push(form_size(types, sizes.as_slice(), types.form_at(n)))?;
    }
    Ok(sizes)
}

/// Whether a type among the first is laid out, as is known of them.
fn is_known_laid(types: &TypeTable, laid: &[bool], ty: u32) -> bool
    requires { AreLaid types.now laid.now }
    ensures { result ≡ laid_among types.now (length laid.now) ty }
{
    match types.number(ty) {
        Some(n) if n < laid.len() => laid[n],
        _ => false,
    }
}

/// Whether a type is laid out, where it is known of all.
#[tactic(auto, unfolding(crate::specs::Layout::is_laid))]
pub(crate) fn is_laid(types: &TypeTable, laid: &[bool], ty: u32) -> bool
    requires laid { AreLaid types.now laid.now }
    requires all { length laid.now ≡ length types.now }
    ensures { result ≡ is_laid types.now ty }
{
    is_known_laid(types, laid, ty)
}

/// The bytes that each member takes.
fn spans(
    alloc: Global,
    types: &TypeTable,
    sizes: &[u64],
    members: &[Member],
) -> Result<Vec<Span>, NoMemory>
    requires sizes { AreSizes types.now sizes.now }
    requires all { length sizes.now ≡ length types.now }
    ensures spans { IfOk result (λ spans. spans.items ≡ map (span_of types.now) members.now) }
    ensures forward { IfOk result (λ spans. All IsForward spans.items) }
{
    let mut spans = Vec::with_capacity(alloc, members.len())?;
    for member in members {
        let start = start(member);
        let end = start.saturating_add(whole_size(types, sizes, member.ty));
        let is_open = types.is_runtime(member.ty);
        spans.push(Span {
            start,
            end,
            is_open,
        })?;
    }
    Ok(spans)
}

/// Whether a member has an Offset and is laid out.
fn is_member_laid(types: &TypeTable, laid: &[bool], member: &Member) -> bool
    requires { AreLaid types.now laid.now }
    ensures { result ≡ (is_some member.now.offset && laid_among types.now (length laid.now) member.now.ty) }
{
    member.offset.is_some() && is_known_laid(types, laid, member.ty)
}

/// Whether each member has an Offset and is laid out.
fn are_members_laid(types: &TypeTable, laid: &[bool], members: &[Member]) -> bool
    requires { AreLaid types.now laid.now }
    ensures { result ≡ are_members_laid (laid_among types.now (length laid.now)) members.now }
{
    for member in members {
        if !is_member_laid(types, laid, member) {
            return false;
        }
    }
    true
}

/// Whether a struct is laid out.
fn is_struct_laid(
    alloc: Global,
    types: &TypeTable,
    sizes: &[u64],
    laid: &[bool],
    members: &[Member],
) -> Result<bool, NoMemory>
    requires sizes { AreSizes types.now sizes.now }
    requires all { length sizes.now ≡ length types.now }
    requires laid { AreLaid types.now laid.now }
    ensures { IfOk result (λ yes. yes ≡ (are_members_laid (laid_among types.now (length laid.now)) members.now && none_overlap (map (span_of types.now) members.now))) }
{
    if !are_members_laid(types, laid, members) {
        return Ok(false);
    }
    Ok(none_overlap(spans(alloc, types, sizes, members)?))
}

/// Whether elements are laid out a stride apart.
fn are_elements_laid(
    types: &TypeTable,
    sizes: &[u64],
    laid: &[bool],
    element: u32,
    stride: Option<u32>,
) -> bool
    requires sizes { AreSizes types.now sizes.now }
    requires all { length sizes.now ≡ length types.now }
    requires laid { AreLaid types.now laid.now }
    ensures { result ≡ (keeps_stride (size_of types.now element) stride && laid_among types.now (length laid.now) element) }
{
    keeps_stride(whole_size(types, sizes, element), stride) && is_known_laid(types, laid, element)
}

/// Whether a form is laid out, where it is known of the types before it.
fn is_form_laid(
    alloc: Global,
    types: &TypeTable,
    sizes: &[u64],
    laid: &[bool],
    form: &Form,
) -> Result<bool, NoMemory>
    requires sizes { AreSizes types.now sizes.now }
    requires all { length sizes.now ≡ length types.now }
    requires laid { AreLaid types.now laid.now }
    ensures { IfOk result (λ yes. yes ≡ laid_step types.now (laid_among types.now (length laid.now)) form.now) }
{
    match form {
        Form::Void | Form::Bool | Form::Pointer { .. } | Form::Function { .. } => Ok(false),
        Form::Int { .. } => Ok(true),
        Form::Vector { component, .. } => Ok(is_known_laid(types, laid, *component)),
        Form::Array {
            element,
            stride,
            ..
        } => Ok(are_elements_laid(types, sizes, laid, *element, *stride)),
        Form::Runtime { element, stride } => Ok(are_elements_laid(
            types, sizes, laid, *element, *stride,
        )),
        Form::Struct { members, .. } => is_struct_laid(
            alloc,
            types,
            sizes,
            laid,
            members.as_slice(),
        ),
    }
}

/// Whether each type is laid out as a block asks, by its number.
pub(crate) fn are_laid(
    alloc: Global,
    types: &TypeTable,
    sizes: &[u64],
) -> Result<Vec<bool>, NoMemory>
    requires sizes { AreSizes types.now sizes.now }
    requires all { length sizes.now ≡ length types.now }
    ensures laid { IfOk result (λ laid. AreLaid types.now laid.items) }
    ensures all { IfOk result (λ laid. length laid.items ≡ length types.now) }
{
    let mut laid = Vec::new(alloc);
    for n in 0..types.len() {
        laid.push(is_form_laid(alloc, types, sizes, laid.as_slice(), types.form_at(n))?)?;
    }
    Ok(laid)
}
