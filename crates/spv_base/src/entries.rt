//! Reads of a list of entries under ids.
ghost use Rattle.std.specs.Prelude.{◌≡◌, option_copied};
ghost use Rattle.spv_base.specs.Entries.{reads};

/// The value under an id.
pub fn find_entry<X>(entries: &[(u32, X)], id: u32) -> Option<&X>
    ensures { option_copied result ≡ reads id entries.now }
{
    for entry in entries {
        if entry.0 == id {
            return Some(&entry.1);
        }
    }
    None
}
