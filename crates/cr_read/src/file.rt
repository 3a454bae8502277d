//! A problem file as plain values.

ghost use Rattle.std.specs.Prelude.{◌≡◌, map, IfOk, option_map, codes};
ghost use Rattle.toml.specs.Data.{get_member};
ghost use Rattle.toml.specs.View.{view};
ghost use Rattle.cr_model.specs.Keys.{members_in, values_in, number_at, text_at};
ghost use Rattle.cr_model.specs.Files.{method_in, call_in, limited_in, com_in, file_of, part_in};

use crate::file_parts::{CallText, File, Limited, MethodText};
use crate::values::{found, items_at, number_found, text_found};
use cr_model::Com;
use cr_model::limits::MOST_CHANGES;
use std::alloc::{AllocError, Global};
use toml::Value;

// The integer at a key, or else the default.
fn number_at(table: &Value, name: &str, default: i64) -> i64
    ensures { result ≡ number_at name.now default (members_in (view table.now)) }
{
    match number_found(table, name) {
        Some(number) => number,
        None => default,
    }
}

// The text at a key.
fn text_at<'a>(table: &'a Value, name: &str) -> &'a str
    ensures { result.now ≡ text_at name.now (members_in (view table.now)) }
{
    match text_found(table, name) {
        Some(text) => text,
        None => "",
    }
}

fn method_of(table: &Value) -> MethodText<'_>
    ensures { result ≡ method_in (view table.now) }
{
    MethodText {
        letter: text_at(table, "letter"),
        notation: text_at(table, "notation"),
    }
}

fn call_of(table: &Value) -> CallText<'_>
    ensures { result ≡ call_in (view table.now) }
{
    CallText {
        mark: text_at(table, "mark"),
        notation: text_at(table, "notation"),
        over: number_found(table, "over"),
        methods: text_found(table, "methods"),
    }
}

// A text named so, and its limits.
fn limited_of<'a>(table: &'a Value, name: &str) -> Limited<'a>
    ensures { result ≡ limited_in name.now (view table.now) }
{
    Limited {
        text: text_at(table, name),
        min: number_at(table, "min", 0),
        max: number_at(table, "max", MOST_CHANGES),
    }
}

fn methods_of<'a>(alloc: Global, root: &'a Value) -> Result<Vec<MethodText<'a>>, AllocError>
    ensures { IfOk result (λ methods. methods.items ≡
        map method_in (values_in (get_member (codes "method") (members_in (view root.now))))) }
{
    let mut methods = Vec::new(alloc);
    for table in items_at(root, "method") {
        methods.push(method_of(table))?;
    }
    Ok(methods)
}

fn calls_of<'a>(alloc: Global, root: &'a Value) -> Result<Vec<CallText<'a>>, AllocError>
    ensures { IfOk result (λ calls. calls.items ≡
        map call_in (values_in (get_member (codes "call") (members_in (view root.now))))) }
{
    let mut calls = Vec::new(alloc);
    for table in items_at(root, "call") {
        calls.push(call_of(table))?;
    }
    Ok(calls)
}

// An array of texts named `text` with their limits.
fn limits_of<'a>(
    alloc: Global,
    root: &'a Value,
    name: &str,
    text: &str,
) -> Result<Vec<Limited<'a>>, AllocError>
    ensures { IfOk result (λ limits. limits.items ≡
        map (limited_in text.now) (values_in (get_member name.now (members_in (view root.now))))) }
{
    let mut limits = Vec::new(alloc);
    for table in items_at(root, name) {
        limits.push(limited_of(table, text))?;
    }
    Ok(limits)
}

// An integer of the query, or else the default.
fn asked(root: &Value, name: &str, default: i64) -> i64
    ensures { result ≡ number_at name.now default (part_in (get_member (codes "query") (members_in (view root.now)))) }
{
    match found(root, "query") {
        Some(query) => number_at(query, name, default),
        None => default,
    }
}

fn com_of(root: &Value) -> Option<Com>
    ensures { result ≡ option_map com_in (get_member (codes "com") (members_in (view root.now))) }
{
    match found(root, "com") {
        Some(limits) => Some(Com {
            min: number_at(limits, "min", 0),
            max: number_at(limits, "max", MOST_CHANGES),
        }),
        None => None,
    }
}

/// What a file says, of which every key is right.
pub fn file_of<'a>(alloc: Global, root: &'a Value) -> Result<File<'a>, AllocError>
    ensures { IfOk result (λ file. file ≡ file_of (members_in (view root.now))) }
{
    let methods = methods_of(alloc, root)?;
    let calls = calls_of(alloc, root)?;
    let counts = limits_of(alloc, root, "count", "mark")?;
    let leads = limits_of(alloc, root, "leads", "letter")?;
    let patterns = limits_of(alloc, root, "rows", "pattern")?;
    Ok(File {
        stage: number_at(root, "stage", 0),
        methods,
        calls,
        min: asked(root, "min", 0),
        max: asked(root, "max", 0),
        parts: asked(root, "parts", 1),
        counts,
        leads,
        patterns,
        com: com_of(root),
    })
}
