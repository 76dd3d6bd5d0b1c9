//! The keys of each table, and those that it does not have.
ghost use Rattle.std.specs.Prelude.{◌≡◌, map, option_map, IfSome, IfNone};
ghost use Rattle.std.specs.List.{list_any};
ghost use Rattle.std.specs.List.Sorted.{IsStrictlySortedBy};
ghost use Rattle.std.specs.Str.{bytes_eq};
ghost use Rattle.std.specs.String.{string_cmp};
ghost use Rattle.toml.specs.View.{table_view};
ghost use Rattle.exp_file.specs.Keys.{first_unknown, keys_of};
ghost use Rattle.exp_file.specs.Unknown.{IsLeastUnknown, AreKnown};

use crate::section::Section;
use toml::Table;

#[tactic(auto, unfolding(crate::specs::Keys::keys_of))]
fn keys_of(section: Section) -> &'static [&'static str]
    ensures { map (λ k. k.now) result.now ≡ keys_of section }
{
    match section {
        Section::Top => &["version", "factor", "slot", "guest", "disk", "link"],
        Section::Slot => &["capacity"],
        Section::Guest => &["name", "image", "format", "ram", "rate", "nics", "slot"],
        Section::Disk => &[
            "guest",
            "sectors",
            "image",
            "base",
            "per_sector",
            "seek_num",
            "seek_den",
        ],
        Section::Link => &["a", "a_nic", "b", "b_nic", "bandwidth", "delay", "queue"],
    }
}

fn is_among(keys: &[&str], key: &str) -> bool
    ensures { result ≡ list_any (λ k. bytes_eq k.now key.now) keys.now }
{
    keys.iter().any(|k| *k == key)
}

fn first_unknown<'a>(table: &'a Table, keys: &[&str]) -> Option<&'a str>
    ensures first { option_map (λ s. s.now) result ≡ first_unknown (map (λ k. k.now) keys.now) (table_view table.now) }
    ensures ordered { IsStrictlySortedBy string_cmp (map (λ e. e.0) table.now.entries) }
{
    for (key, _) in table {
        if !is_among(keys, key.as_str()) {
            return Some(key.as_str());
        }
    }
    None
}

/// The key that a table has and such a table of a file does not; of several the least in the order
/// of bytes.
pub fn unknown_key<'a>(section: Section, table: &'a Table) -> Option<&'a str>
    ensures first { option_map (λ s. s.now) result ≡ first_unknown (keys_of section) (table_view table.now) }
    ensures least { IfSome result (λ s. IsLeastUnknown (keys_of section) (table_view table.now) s.now) }
    ensures none { IfNone result (AreKnown (keys_of section) (table_view table.now)) }
{
    first_unknown(table, keys_of(section))
}
