ghost use Rattle.std.specs.Prelude.{◌≡◌};
ghost use Rattle.toml.specs.View.{table_view};
ghost use Rattle.rl_syntax.specs.Table.{is_known, has_other_key};

use toml::Table;

/// The three tables of a network text, each with its own keys.
#[derive(Clone, Copy, Debug)]
pub(crate) enum Keys {
    Network,
    Box,
    Train,
}

#[tactic(auto, unfolding(crate::specs::Table::is_known))]
fn is_known(keys: Keys, key: &str) -> bool
    ensures { result ≡ is_known keys key.now }
{
    match keys {
        Keys::Network => key == "format" || key == "segments" || key == "box" || key == "train",
        Keys::Box => key == "name" || key == "kind" || key == "arms" || key == "at",
        Keys::Train => key == "name" || key == "route",
    }
}

/// Whether the table has a key that isn't one of these.
pub(crate) fn has_other_key(keys: Keys, table: &Table) -> bool
    ensures { result ≡ has_other_key keys (table_view table.now) }
{
    for (key, _) in table {
        if !is_known(keys, key.as_str()) {
            return true;
        }
    }
    false
}
