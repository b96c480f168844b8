// The keys that a place of a configuration may have.
ghost use Rattle.std.specs.Prelude.{◌≡◌};
ghost use Rattle.toml.specs.View.{table_view};
ghost use Rattle.tree_config.specs.Keys.{has_only, is_key, known_keys};

use toml::Table;

/// A kind of place. The keys of a source and of a node are by the version of the configuration.
#[derive(Clone, Copy)]
pub(crate) enum Level {
    Top,
    Source(u8),
    Node(u8),
}

// Whether a place of this kind has the key.
fn is_known(key: &str, level: Level) -> bool
    ensures { result ≡ is_key (known_keys level) key.now }
{
    match level {
        Level::Top => ["version", "opening", "source", "node"].contains(&key),
        Level::Source(_) => [
            "samples",
            "num",
            "den",
            "binary",
            "rct",
            "rct_a",
            "apt",
            "startup",
            "conditioner",
        ]
        .contains(&key),
        Level::Node(_) => ["kind", "drbg", "interval", "source", "parent", "seed"].contains(&key),
    }
}

/// Whether each key of a table is one that a place of this kind may have.
pub(crate) fn has_only(table: &Table, level: Level) -> bool
    ensures { result ≡ has_only (known_keys level) (table_view table.now) }
{
    for (key, _) in table.iter() {
        if !is_known(key.as_str(), level) {
            return false;
        }
    }
    true
}
