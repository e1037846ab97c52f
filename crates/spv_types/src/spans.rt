//! The bytes that members take, and whether they overlap.
ghost use Rattle.std.specs.Prelude.{◌≡◌, ◌↔◌, IsTrue};
ghost use Rattle.std.specs.List.{All};
ghost use Rattle.spv_types.specs.Layout.{EachEndsBeforeNext, IsForward, ends_before, is_empty, none_overlap};

/// The bytes of a member in a block, from `start` to before `end`, or without an end.
#[derive(Clone, Copy)]
pub struct Span {
    pub start: u64,
    pub end: u64,
    pub is_open: bool,
}

impl Span {
    fn is_empty(&self) -> bool
        ensures { result ≡ is_empty self.now }
    {
        !self.is_open && self.end == self.start
    }

    fn ends_before(&self, other: &Span) -> bool
        ensures { result ≡ ends_before self.now other.now }
    {
        !self.is_open && self.end <= other.start
    }
}

/// Whether each of some spans ends before the next one.
fn each_ends_before_next(spans: &[Span]) -> bool
    ensures { IsTrue result ↔ EachEndsBeforeNext spans.now }
{
    for n in 1..spans.len() {
        if !spans[n - 1].ends_before(&spans[n]) {
            return false;
        }
    }
    true
}

/// Whether no two of some spans have a byte in common: in the order of their starts, each that is not empty ends before the
/// next one.
pub fn none_overlap(mut spans: Vec<Span>) -> bool
    requires { All IsForward spans.items }
    ensures { result ≡ none_overlap spans.items }
{
    spans.retain(|span| !span.is_empty());
    spans.sort_unstable_by_key(|span| span.start);
    each_ends_before_next(spans.as_slice())
}
