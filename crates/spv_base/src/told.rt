//! What streams have told and were offered so far, for proofs alone.
ghost use Rattle.std.specs.Prelude.{◌≡◌, ◌+◌, [], ◌∷◌, ◌++◌};
ghost use Rattle.spv_base.specs.Outside.{ends_told};

use crate::ghosts::Ghost;
use crate::lists::Items;

/// No end was told yet.
pub(crate) fn no_ends() -> Ghost<u64>
    ensures { result.value ≡ 0 }
{
    Ghost::of()
}

/// A read moved so many bytes into a buffer.
pub(crate) fn end_told(ends: &Ghost<u64>, moved: usize, buf: &[u8]) -> Ghost<u64>
    ensures { result.value ≡ ends.now.value + ends_told moved buf.now }
{
    ends.by(&moved, &buf)
}

/// Nothing was offered yet.
pub(crate) fn no_offers() -> Ghost<Items<Items<u8>>>
    ensures { result.value ≡ [] }
{
    Ghost::of()
}

/// A piece was offered.
pub(crate) fn offered(offers: &Ghost<Items<Items<u8>>>, piece: &[u8]) -> Ghost<Items<Items<u8>>>
    ensures { result.value ≡ offers.now.value ++ piece.now ∷ [] }
{
    offers.by(&piece, offers)
}
