//! The check of keys: the first one that is missing, unknown or of the wrong kind.

ghost use Rattle.std.specs.Prelude.{◌≡◌, ℕ, Bool, true, false, cond, nat_eq, List, [], ◌∷◌, ◌++◌, map, flat_map};
ghost use Rattle.std.specs.Prelude.{IfOk, string_bytes, codes};
ghost use Rattle.std.specs.List.{list_any, list_all};
ghost use Rattle.toml.specs.Data.{get_member};
ghost use Rattle.toml.specs.View.{view, table_view};
ghost use Rattle.cr_model.specs.Keys.{is_among, all_differ, is_selection, has_kind, is_right, key_fault, unknown_keys};
ghost use Rattle.cr_model.specs.Keys.{table_faults, is_table, are_tables, item_path, items_faults, array_faults};
ghost use Rattle.cr_model.specs.Keys.{single_faults, part_faults, parts, top_names, stage_key, key_faults};
ghost use Rattle.cr_model.specs.Keys.{members_in, text_at};
ghost use Rattle.cr_model.specs.Keys.{written_letters};
ghost use Rattle.cr_read.specs.FirstKeys.{Checks, letters_in, kind_of, key_of, part_of, known_faults};

use crate::key_fault::KeyFault;
use crate::key_table::{Key, Kind, PARTS, Part, STAGE, Shape};
use crate::values::{found, items_at, items_of, text_found};
use cr_model::KeyPath;
use std::alloc::{AllocError, Global};
use toml::{Table, Value};

// The path of a key with this name.
fn path_to(alloc: Global, path: &[u8], name: &str) -> Result<KeyPath, AllocError>
    ensures { IfOk result (λ p. p ≡ path.now ++ name.now) }
{
    let mut bytes = path.to_vec(alloc)?;
    bytes.extend_from_slice(name.as_bytes())?;
    Ok(KeyPath { bytes })
}

// Refuses a key, unless it is right.
fn unless(alloc: Global, right: bool, path: &[u8], name: &str) -> Result<(), KeyFault>
    ensures { Checks (cond right [] ((path.now ++ name.now) ∷ [])) result }
{
    if right {
        Ok(())
    } else {
        Err(KeyFault::At(path_to(alloc, path, name)?))
    }
}

// The letter of a method, as it is written.
fn letter_of(method: &Value) -> &str
    ensures { result.now ≡ text_at (codes "letter") (members_in (view method.now)) }
{
    match text_found(method, "letter") {
        Some(letter) => letter,
        None => "",
    }
}

// Whether the byte is a method's letter.
fn is_letter(methods: &[Value], byte: u8) -> bool
    ensures { result ≡ is_among (letters_in methods.now) (byte ∷ []) }
{
    for method in methods {
        if letter_of(method).as_bytes() == [byte].as_slice() {
            return true;
        }
    }
    false
}

// Whether each byte is a method's letter.
fn are_letters(methods: &[Value], text: &[u8]) -> bool
    ensures { result ≡ list_all (λ byte. is_among (letters_in methods.now) (byte ∷ [])) text.now }
{
    for byte in text {
        if !is_letter(methods, *byte) {
            return false;
        }
    }
    true
}

/// Whether the byte stands in the text.
pub fn stands_in(text: &[u8], byte: u8) -> bool
    ensures { result ≡ list_any (nat_eq byte) text.now }
{
    text.iter().any(|other| byte == *other)
}

// Whether no byte stands twice.
fn all_differ(text: &[u8]) -> bool
    ensures { result ≡ all_differ text.now }
{
    for index in 0..text.len() {
        if stands_in(&text[index + 1..], text[index]) {
            return false;
        }
    }
    true
}

// Whether the text is one or more methods' letters, each once.
fn is_selection(methods: &[Value], text: &[u8]) -> bool
    ensures { result ≡ is_selection (letters_in methods.now) text.now }
{
    !text.is_empty() && are_letters(methods, text) && all_differ(text)
}

// Whether a value may stand at a key of this kind.
fn has_kind(methods: &[Value], kind: Kind, value: &Value) -> bool
    ensures { result ≡ has_kind (kind_of (letters_in methods.now) kind) (view value.now) }
{
    match kind {
        Kind::Text => value.is_str(),
        Kind::Number => value.is_integer(),
        Kind::Letters => match value.as_str() {
            Some(text) => is_selection(methods, text.as_bytes()),
            None => false,
        },
    }
}

// Whether what stands at a key of a table may stand there.
fn is_right(methods: &[Value], key: &Key, table: &Value) -> bool
    ensures { result ≡ is_right (key_of (letters_in methods.now) key.now)
        (get_member key.now.name.now (members_in (view table.now))) }
{
    match found(table, key.name) {
        Some(value) => has_kind(methods, key.kind, value),
        None => !key.needed,
    }
}

// Refuses what stands at a key, unless it may stand there.
fn check_key(
    alloc: Global,
    methods: &[Value],
    key: &Key,
    path: &[u8],
    table: &Value,
) -> Result<(), KeyFault>
    ensures { Checks (key_fault path.now (members_in (view table.now)) (key_of (letters_in methods.now) key.now)) result }
{
    unless(alloc, is_right(methods, key, table), path, key.name)
}

// The known keys of a table, in their order.
fn check_known(
    alloc: Global,
    methods: &[Value],
    keys: &[Key],
    path: &[u8],
    table: &Value,
) -> Result<(), KeyFault>
    ensures { Checks (known_faults path.now (letters_in methods.now) keys.now (members_in (view table.now))) result }
{
    for key in keys {
        check_key(alloc, methods, key, path, table)?;
    }
    Ok(())
}

// Whether a name is that of one of these keys.
fn is_key(keys: &[Key], name: &str) -> bool
    ensures { result ≡ is_among (map (λ key. key.name.now) keys.now) name.now }
{
    for key in keys {
        if name == key.name {
            return true;
        }
    }
    false
}

// Refuses the first key of a table that is none of these.
fn check_unknown_of(alloc: Global, keys: &[Key], path: &[u8], table: &Table) -> Result<(), KeyFault>
    ensures { Checks (unknown_keys path.now (map (λ key. key.name.now) keys.now) (table_view table.now)) result }
{
    for (key, _) in table {
        if !is_key(keys, key.as_str()) {
            return Err(KeyFault::At(path_to(alloc, path, key.as_str())?));
        }
    }
    Ok(())
}

fn check_unknown(alloc: Global, keys: &[Key], path: &[u8], table: &Value) -> Result<(), KeyFault>
    ensures { Checks (unknown_keys path.now (map (λ key. key.name.now) keys.now) (members_in (view table.now))) result }
{
    match table.as_table() {
        Some(fields) => check_unknown_of(alloc, keys, path, fields),
        None => Ok(()),
    }
}

// A table: its known keys in their order, then the unknown ones.
fn check_table(
    alloc: Global,
    methods: &[Value],
    keys: &[Key],
    path: &[u8],
    table: &Value,
) -> Result<(), KeyFault>
    ensures { Checks (table_faults path.now (map (key_of (letters_in methods.now)) keys.now)
        (members_in (view table.now))) result }
{
    check_known(alloc, methods, keys, path, table)?;
    check_unknown(alloc, keys, path, table)
}

// The path of what stands in an item of an array.
fn item_path(alloc: Global, name: &str, index: usize) -> Result<String, AllocError>
    ensures { IfOk result (λ path. string_bytes path ≡ item_path name.now index) }
{
    format!(in alloc; "{name}[{index}].")
}

// The tables of an array, one after another.
fn check_items(
    alloc: Global,
    methods: &[Value],
    part: &Part,
    items: &[Value],
) -> Result<(), KeyFault>
    ensures { Checks (items_faults part.now.name.now (map (key_of (letters_in methods.now)) part.now.keys.now)
        0 (map view items.now)) result }
{
    for index in 0..items.len() {
        let path = item_path(alloc, part.name, index)?;
        check_table(alloc, methods, part.keys, path.as_bytes(), &items[index])?;
    }
    Ok(())
}

// Whether each item is a table.
fn all_tables(items: &[Value]) -> bool
    ensures { result ≡ list_all is_table (map view items.now) }
{
    for item in items {
        if !item.is_table() {
            return false;
        }
    }
    true
}

// Whether the items are a number of tables from `least` to `most`.
fn are_tables(items: &[Value], least: usize, most: usize) -> bool
    ensures { result ≡ are_tables least most (map view items.now) }
{
    least <= items.len() && items.len() <= most && all_tables(items)
}

// An array of a number of tables from `least` to `most`. It may be absent where it may have no items.
#[tactic(auto, using(crate::proofs::Arrays::array_of, crate::proofs::Arrays::no_array))]
fn check_several(
    alloc: Global,
    methods: &[Value],
    root: &Value,
    part: &Part,
    least: usize,
    most: usize,
) -> Result<(), KeyFault>
    ensures { Checks (array_faults part.now.name.now least most (map (key_of (letters_in methods.now)) part.now.keys.now)
        (get_member part.now.name.now (members_in (view root.now)))) result }
{
    let Some(value) = found(root, part.name) else {
        return unless(alloc, least == 0, &[], part.name);
    };
    let Some(items) = items_of(value) else {
        return unless(alloc, false, &[], part.name);
    };
    unless(alloc, are_tables(items, least, most), &[], part.name)?;
    check_items(alloc, methods, part, items)
}

// The path of what stands in a table of the top.
fn part_path(alloc: Global, name: &str) -> Result<String, AllocError>
    ensures { IfOk result (λ path. string_bytes path ≡ name.now ++ codes ".") }
{
    format!(in alloc; "{name}.")
}

// A table of the top.
fn check_single(
    alloc: Global,
    methods: &[Value],
    root: &Value,
    part: &Part,
    needed: bool,
) -> Result<(), KeyFault>
    ensures { Checks (single_faults part.now.name.now needed (map (key_of (letters_in methods.now)) part.now.keys.now)
        (get_member part.now.name.now (members_in (view root.now)))) result }
{
    let Some(value) = found(root, part.name) else {
        return unless(alloc, !needed, &[], part.name);
    };
    unless(alloc, value.is_table(), &[], part.name)?;
    let path = part_path(alloc, part.name)?;
    check_table(alloc, methods, part.keys, path.as_bytes(), value)
}

// A part of the file.
fn check_part(alloc: Global, methods: &[Value], root: &Value, part: &Part) -> Result<(), KeyFault>
    ensures { Checks (part_faults (members_in (view root.now)) (part_of (letters_in methods.now) part.now)) result }
{
    match part.shape {
        Shape::Several(least, most) => check_several(alloc, methods, root, part, least, most),
        Shape::Single(needed) => check_single(alloc, methods, root, part, needed),
    }
}

// The parts of the file, in their order.
fn check_parts(
    alloc: Global,
    methods: &[Value],
    root: &Value,
    parts: &[Part],
) -> Result<(), KeyFault>
    ensures { Checks (flat_map (part_faults (members_in (view root.now)))
        (map (part_of (letters_in methods.now)) parts.now)) result }
{
    for part in parts {
        check_part(alloc, methods, root, part)?;
    }
    Ok(())
}

// Whether a name is the stage's, or that of one of these parts.
fn is_of_top(parts: &[Part], name: &str) -> bool
    ensures { result ≡ is_among (codes "stage" ∷ map (λ part. part.name.now) parts.now) name.now }
{
    if name == STAGE.name {
        return true;
    }
    for part in parts {
        if name == part.name {
            return true;
        }
    }
    false
}

// Refuses the first key of the top that is none of these.
fn check_top_of(alloc: Global, parts: &[Part], table: &Table) -> Result<(), KeyFault>
    ensures { Checks (unknown_keys [] (codes "stage" ∷ map (λ part. part.name.now) parts.now)
        (table_view table.now)) result }
{
    for (key, _) in table {
        if !is_of_top(parts, key.as_str()) {
            return Err(KeyFault::At(path_to(alloc, &[], key.as_str())?));
        }
    }
    Ok(())
}

// The unknown keys of the top.
fn check_top(alloc: Global, root: &Value) -> Result<(), KeyFault>
    ensures { Checks (unknown_keys [] top_names (members_in (view root.now))) result }
{
    match root.as_table() {
        Some(table) => check_top_of(alloc, PARTS, table),
        None => Ok(()),
    }
}

// The stage.
fn check_stage(alloc: Global, root: &Value) -> Result<(), KeyFault>
    ensures { Checks (key_fault [] (members_in (view root.now)) stage_key) result }
{
    check_key(alloc, &[], &STAGE, &[], root)
}

// All parts of the file.
fn check_all_parts(alloc: Global, root: &Value) -> Result<(), KeyFault>
    ensures { Checks (flat_map (part_faults (members_in (view root.now)))
        (parts (written_letters (members_in (view root.now))))) result }
{
    check_parts(alloc, items_at(root, "method"), root, PARTS)
}

/// Checks every key of a file, in their order, and the unknown keys of the top last.
#[tactic(auto, using(crate::proofs::KeyTables::all_keys))]
pub fn check_keys(alloc: Global, root: &Value) -> Result<(), KeyFault>
    ensures { Checks (key_faults (members_in (view root.now))) result }
{
    check_stage(alloc, root)?;
    check_all_parts(alloc, root)?;
    check_top(alloc, root)
}
