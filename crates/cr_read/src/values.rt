//! What stands at a key.

ghost use Rattle.std.specs.Prelude.{◌≡◌, map, option_map, option_and_then};
ghost use Rattle.toml.specs.Data.{get_member, as_str, as_integer, as_array};
ghost use Rattle.toml.specs.View.{view};
ghost use Rattle.cr_model.specs.Keys.{members_in, listed, values_in};

use toml::Value;

/// The value at a key of a table.
pub fn found<'a>(table: &'a Value, name: &str) -> Option<&'a Value>
    ensures { option_map (λ v. view v.now) result ≡ get_member name.now (members_in (view table.now)) }
{
    table.get(name)
}

/// The text at a key, if a text stands there.
pub fn text_found<'a>(table: &'a Value, name: &str) -> Option<&'a str>
    ensures { option_map (λ s. s.now) result ≡ option_and_then as_str (get_member name.now (members_in (view table.now))) }
{
    match found(table, name) {
        Some(value) => value.as_str(),
        None => None,
    }
}

/// The integer at a key, if an integer stands there.
pub fn number_found(table: &Value, name: &str) -> Option<i64>
    ensures { result ≡ option_and_then as_integer (get_member name.now (members_in (view table.now))) }
{
    match found(table, name) {
        Some(value) => value.as_integer(),
        None => None,
    }
}

#[tactic(auto, using(crate::proofs::Arrays::listed_back))]
/// The items of a value, if it is an array.
pub fn items_of(value: &Value) -> Option<&[Value]>
    ensures { option_map (λ items. map view items.now) result ≡ option_map listed (as_array (view value.now)) }
{
    match value.as_array() {
        Some(array) => Some(array.as_slice()),
        None => None,
    }
}

/// The items of the array at a key, if an array stands there.
pub fn items_at<'a>(table: &'a Value, name: &str) -> &'a [Value]
    ensures { map view result.now ≡ values_in (get_member name.now (members_in (view table.now))) }
{
    match found(table, name) {
        Some(value) => match items_of(value) {
            Some(items) => items,
            None => &[],
        },
        None => &[],
    }
}
