//! The members of a table by their keys.

ghost use Rattle.std.specs.Prelude.{◌≡◌, ◌++◌, option_map, string_bytes};
ghost use Rattle.std.specs.List.{list_all};
ghost use Rattle.std.specs.BTreeMap.{keys as map_keys};
ghost use Rattle.toml.specs.Data.{get_member};
ghost use Rattle.toml.specs.View.{view, table_view};
ghost use Rattle.schema_read.specs.Document.{member_names};
ghost use Rattle.schema_read.specs.Keys.{key_name};
ghost use Rattle.schema_read.specs.Wanted.{is_wanted};

use crate::schema_key::SchemaKey;
use crate::wanted::Wanted;
use toml::{Table, Value};

/// Returns the value under a key, or None if the key is missing.
pub fn member(table: &Table, key: SchemaKey) -> Option<&Value>
    ensures { option_map (λ v. view v.now) result ≡ get_member (key_name key) (table_view table.now) }
{
    table.get(key.name())
}

/// Whether a name is that of a common key or of a key of the table's own kind.
fn is_known(name: &str, common: &[Wanted], own: &[Wanted]) -> bool
    ensures { result ≡ is_wanted (common.now ++ own.now) name.now }
{
    common
        .iter()
        .chain(own.iter())
        .any(|wanted| wanted.key().name() == name)
}

fn has_known_keys(table: &Table, common: &[Wanted], own: &[Wanted]) -> bool
    ensures { result ≡ list_all (λ name. is_wanted (common.now ++ own.now) (string_bytes name)) (map_keys table.now) }
{
    table
        .keys()
        .all(|name| is_known(name.as_str(), common, own))
}

/// Whether a table has no further keys beside the common ones and those of its own kind.
pub fn has_only(table: &Table, common: &[Wanted], own: &[Wanted]) -> bool
    ensures { result ≡ list_all (is_wanted (common.now ++ own.now)) (member_names (table_view table.now)) }
{
    has_known_keys(table, common, own)
}
