// Values under names.
ghost use Rattle.std.specs.Prelude.{◌≡◌, List, ℕ, Some, OnSome, IfNone, OnOk, OnErr, if◌then◌else◌};
ghost use Rattle.std.specs.Str.{bytes_eq};
ghost use Rattle.std.specs.BTreeMap.{get_by_text};

use std::alloc::{AllocError, Global};
use std::collections::BTreeMap;
use std::mem;

/// Puts another value in the place of the one under a name, which it answers. It takes no memory.
#[tactic(auto, using(std::proofs::lemmas::Map::Text::text_keys))]
pub fn swap<T: Drop>(values: &mut BTreeMap<String, T>, name: &str, value: T) -> Option<T>
    ensures before { result ≡ get_by_text values.old name.now }
    ensures none { IfNone result ((q : List ℕ) → get_by_text values.new q ≡ get_by_text values.old q) }
    ensures set { OnSome result ((q : List ℕ) →
        get_by_text values.new q ≡ (if bytes_eq name.now q then Some value else get_by_text values.old q)) }
{
    match values.get_mut(name) {
        Some(place) => Some(mem::replace(place, value)),
        None => None,
    }
}

/// Puts a value under a name, there before or not. Want of memory changes nothing.
#[tactic(auto, using(std::proofs::lemmas::Map::Text::text_keys))]
pub fn put<T: Drop>(
    alloc: Global,
    values: &mut BTreeMap<String, T>,
    name: &str,
    value: T,
) -> Result<(), AllocError>
    ensures ok { OnOk result ((q : List ℕ) →
        get_by_text values.new q ≡ (if bytes_eq name.now q then Some value else get_by_text values.old q)) }
    ensures err { OnErr result (values.new.entries ≡ values.old.entries) }
{
    values.insert(String::from_str(alloc, name)?, value)?;
    Ok(())
}
