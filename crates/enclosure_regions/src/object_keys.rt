ghost use Rattle.std.specs.Prelude.{◌≡◌, map, string_bytes};
ghost use Rattle.std.specs.List.{list_all, list_any};
ghost use Rattle.std.specs.BTreeMap.{keys};
ghost use Rattle.std.specs.Str.{bytes_eq};
ghost use Rattle.serde_json.specs.View.{view};
ghost use Rattle.enclosure_regions.specs.RangeItems.{is_range_key as range_key};
ghost use Rattle.enclosure_regions.specs.Reading.{is_file_key as file_key};
ghost use Rattle.enclosure_regions.specs.RegionItems.{is_region_key as region_key};
ghost use Rattle.enclosure_regions.specs.Shapes.{has_keys};

use serde_json::{Map, Value};

const FILE_KEYS: [&str; 1] = ["regions"];

const REGION_KEYS: [&str; 6] = ["id", "enter", "leave", "outs", "keep", "ranges"];

const RANGE_KEYS: [&str; 3] = ["base", "offset", "length"];

// Whether a key is one of those known.
fn is_known(known: &[&str], key: &str) -> bool
    ensures { result ≡ list_any (λ other. bytes_eq key.now other.now) known.now }
{
    known.iter().any(|other| key == *other)
}

// Whether all keys are known.
fn are_known(known: &[&str], members: &Map<String, Value>) -> bool
    ensures { result ≡ list_all (λ key. list_any (λ other. bytes_eq (string_bytes key) other.now) known.now)
        (keys members.now) }
{
    members.keys().all(|key| is_known(known, key.as_str()))
}

// Whether the value is an object with no keys but those known.
#[tactic(auto, using(crate::proofs::Keys::keys_known))]
fn has_known_keys(known: &[&str], value: &Value) -> bool
    ensures { result ≡ has_keys (λ key. list_any (λ other. bytes_eq key other.now) known.now) (view value.now) }
{
    match value.as_object() {
        Some(members) => are_known(known, members),
        None => false,
    }
}

/// Whether the value is an object with no key but that of a region file.
#[tactic(auto, using(crate::proofs::Keys::file_keys))]
pub fn has_file_keys(value: &Value) -> bool
    ensures { result ≡ has_keys file_key (view value.now) }
{
    has_known_keys(&FILE_KEYS, value)
}

/// Whether the value is an object with no keys but those of a region.
#[tactic(auto, using(crate::proofs::Keys::region_keys))]
pub fn has_region_keys(value: &Value) -> bool
    ensures { result ≡ has_keys region_key (view value.now) }
{
    has_known_keys(&REGION_KEYS, value)
}

/// Whether the value is an object with no keys but those of a range.
#[tactic(auto, using(crate::proofs::Keys::range_keys))]
pub fn has_range_keys(value: &Value) -> bool
    ensures { result ≡ has_keys range_key (view value.now) }
{
    has_known_keys(&RANGE_KEYS, value)
}
