ghost use Rattle.std.specs.Prelude.{◌≡◌, option_map, option_and_then};
ghost use Rattle.std.specs.Result.{result_map_both};
ghost use Rattle.toml.specs.Data.{get_member, as_array};
ghost use Rattle.toml.specs.View.{view, table_view, items_view};
ghost use Rattle.rl_syntax.specs.Table.{table_with, text_at, array_at, optional_array, has_format_one};

use crate::keys::{Keys, has_other_key};
use rl_base::Place;
use toml::{Table, Value};

/// The value at a key.
pub(crate) fn value_at<'a>(table: &'a Table, key: &str) -> Option<&'a Value>
    ensures { option_map (λ v. view v.now) result ≡ get_member key.now (table_view table.now) }
{
    table.get(key)
}

/// The text at a key, where there is a text.
pub(crate) fn text_at<'a>(table: &'a Table, key: &str) -> Option<&'a str>
    ensures { option_map (λ s. s.now) result ≡ text_at key.now (table_view table.now) }
{
    match value_at(table, key) {
        Some(value) => value.as_str(),
        None => None,
    }
}

/// The items of a value, where it is an array.
pub(crate) fn array_of(value: &Value) -> Option<&[Value]>
    ensures { option_map (λ s. items_view s.now) result ≡ as_array (view value.now) }
{
    match value.as_array() {
        Some(items) => Some(items.as_slice()),
        None => None,
    }
}

/// The items of the array at a key, where there is an array.
pub(crate) fn array_at<'a>(table: &'a Table, key: &str) -> Option<&'a [Value]>
    ensures { option_map (λ s. items_view s.now) result ≡ array_at key.now (table_view table.now) }
{
    match value_at(table, key) {
        Some(value) => array_of(value),
        None => None,
    }
}

/// The items of an array that may be left out.
pub(crate) fn optional_array<'a>(
    place: Place,
    value: Option<&'a Value>,
) -> Result<&'a [Value], Place>
    ensures { result_map_both (λ s. items_view s.now) (λ p. p) result
        ≡ optional_array place (option_map (λ v. view v.now) value.entry) }
{
    match value {
        None => Ok(&[]),
        Some(value) => array_of(value).ok_or(place),
    }
}

/// The table that a value is, where it is one and has no other key than these.
pub(crate) fn table_with<'a>(keys: Keys, value: &'a Value) -> Option<&'a Table>
    ensures { option_map (λ t. table_view t.now) result ≡ table_with keys (view value.now) }
{
    match value.as_table() {
        Some(table) => {
            if has_other_key(keys, table) {
                None
            } else {
                Some(table)
            }
        }
        None => None,
    }
}

/// Whether the table has the integer 1 as its format.
pub(crate) fn has_format_one(table: &Table) -> bool
    ensures { result ≡ has_format_one (table_view table.now) }
{
    match value_at(table, "format") {
        Some(value) => value.as_integer() == Some(1),
        None => false,
    }
}
