//! The texts of source files by the names of the files.
ghost use Rattle.std.specs.Prelude.{◌≡◌, ℕ, List, IfOk, OnOk, Some, None, if◌then◌else◌, option_map, slice_get};
ghost use Rattle.std.specs.List.{concat};
ghost use Rattle.std.specs.Option.{option_and_then, option_or};
ghost use Rattle.spv_dbg.specs.Names.{number_from, number_under};
ghost use Rattle.spv_index.specs.Places.{keys_of};
ghost use Rattle.spv_dbg.specs.Seen.{text_in};
ghost use Rattle.spv_dbg.specs.Sources as spec;

use crate::pieces::SourceText;
use crate::sources::Source;
use crate::texts::Text;
use spv_base::NoMemory;
use spv_index::{Keyed, keys_of, places_of};
use std::alloc::Global;
use std::collections::BTreeMap;

/// By the name of a file, the number of its first text.
pub(crate) type Names = BTreeMap<Vec<u8>, usize>;

/// Puts a number under the name with an id, where there is such a string, and nothing under it.
fn add_name(
    alloc: Global,
    strings: &Keyed<Text>,
    id: u32,
    number: usize,
    names: &mut Names,
) -> Result<(), NoMemory>
    ensures { OnOk result ((file : List ℕ) → number_under names.new file ≡ option_or (number_under names.old file) (if spec.has_name strings.now file id then Some number else None)) }
{
    let Some(name) = strings.get(id) else {
        return Ok(());
    };
    if names.contains_key(name.bytes()) {
        return Ok(());
    }
    names.insert(Vec::from_slice(alloc, name.bytes())?, number)?;
    Ok(())
}

/// By the names with these ids, the number of the first id with each. A name that many ids have is compared once for each
/// string, so the time is n log n in the bytes of the strings.
fn numbers_by_name(alloc: Global, strings: &Keyed<Text>, ids: &[u32]) -> Result<Names, NoMemory>
    ensures { IfOk result (λ names. (file : List ℕ) → number_under names file ≡ number_from 0 (spec.has_name strings.now file) ids.now) }
{
    let firsts = places_of(alloc, ids)?;
    let mut names = BTreeMap::new(alloc);
    for (n, id) in ids.iter().enumerate() {
        if firsts.get(*id) == Some(n) {
            add_name(alloc, strings, *id, n, &mut names)?;
        }
    }
    Ok(names)
}

/// By the names of their files, the numbers of these texts.
pub(crate) fn names_of(
    alloc: Global,
    strings: &Keyed<Text>,
    sources: &[Source],
) -> Result<Names, NoMemory>
    ensures { IfOk result (λ names. (file : List ℕ) → number_under names file ≡ number_from 0 (spec.has_name strings.now file) (keys_of sources.now)) }
{
    numbers_by_name(alloc, strings, keys_of(alloc, sources)?.as_slice())
}

/// The text with a number.
pub(crate) fn text_with<'a>(
    strings: &'a Keyed<Text>,
    sources: &'a [Source],
    number: Option<usize>,
) -> Option<SourceText<'a>>
    ensures { option_map (λ text. concat text) result ≡ option_map (λ s. text_in strings.now s.1) (option_and_then (slice_get sources.now) number) }
{
    Some(SourceText::of(strings, sources.get(number?)?.1.as_slice()))
}
