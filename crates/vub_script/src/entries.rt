//! The entries of a directory, nested in a script, and listed with each directory before what is in it.

ghost use Rattle.std.specs.Prelude.{◌≡◌, map, option_map, string_bytes};
ghost use Rattle.std.specs.List.{list_all};
ghost use Rattle.std.specs.BTreeMap.{keys};
ghost use Rattle.serde_json.specs.View.{view};
ghost use Rattle.serde_json.specs.Find.{as_array};
ghost use Rattle.vub_forms.specs.Reading.{Gives};
ghost use Rattle.vub_forms.specs.Keys.{object_keys_are};
ghost use Rattle.vub_forms.specs.Lists.{items_list};
ghost use Rattle.vub_script.specs.Directory.{is_file_key, is_directory_key, name_of, inside_of, with_file, with_directory, with_entry, with_entries, entries_of};

use serde_json::{Map, Value};
use std::alloc::Global;
use vub_base::{Bytes, Listed};
use vub_dir::TreeEntry;
use vub_forms::{Fault, Refusal, Rule, part_given};

/// Directories nest less deep than this.
const DEPTH: u32 = 65;

/// The node of the root.
const ROOT: u64 = 1;

fn has_only_file_keys(map: &Map<String, Value>) -> bool
    ensures { result ≡ list_all (λ k. is_file_key (string_bytes k)) (keys map.now) }
{
    map.keys()
        .all(|key| key.as_str() == "name" || key.as_str() == "hex")
}

fn has_only_directory_keys(map: &Map<String, Value>) -> bool
    ensures { result ≡ list_all (λ k. is_directory_key (string_bytes k)) (keys map.now) }
{
    map.keys()
        .all(|key| key.as_str() == "name" || key.as_str() == "entries")
}

/// Whether the tree is an object with a file's keys and no others.
fn is_in_file_form(value: &Value) -> bool
    ensures { result ≡ object_keys_are is_file_key (view value.now) }
{
    match value {
        Value::Object(map) => has_only_file_keys(map),
        _ => false,
    }
}

/// Whether the tree is an object with a directory's keys and no others.
fn is_in_directory_form(value: &Value) -> bool
    ensures { result ≡ object_keys_are is_directory_key (view value.now) }
{
    match value {
        Value::Object(map) => has_only_directory_keys(map),
        _ => false,
    }
}

fn name_from(alloc: Global, value: &Value) -> Result<Bytes, Refusal>
    ensures { Gives result (name_of (view value.now)) }
{
    match value.get("name") {
        Some(Value::String(text)) => Ok(Bytes::from_slice(alloc, text.as_bytes())?),
        _ => Err(Refusal::NoScript(Fault::of(alloc, Rule::Entry))),
    }
}

/// The list with a file behind it, which is in the directory with this node.
fn with_file(
    alloc: Global,
    parent: u64,
    value: &Value,
    found: Listed<TreeEntry>,
) -> Result<Listed<TreeEntry>, Refusal>
    ensures { Gives result (with_file parent (view value.now) found) }
{
    let mut found = found;
    let name = name_from(alloc, value)?;
    let bytes: Bytes = part_given(alloc, value, "hex")?;
    found.push(TreeEntry {
        parent,
        name,
        file: Some(bytes),
    })?;
    Ok(found)
}

/// The elements of a list.
fn elements_of(value: &Value) -> Option<&[Value]>
    ensures { option_map (λ s. map view s.now) result ≡ option_map items_list (as_array (view value.now)) }
{
    match value {
        Value::Array(list) => Some(list.as_slice()),
        _ => None,
    }
}

/// What is in a directory.
fn inside_of(value: &Value) -> Option<&[Value]>
    ensures { option_map (λ s. map view s.now) result ≡ inside_of (view value.now) }
{
    match value.get("entries") {
        Some(inside) => elements_of(inside),
        None => None,
    }
}

/// The list with a directory behind it, and with what is in it.
#[cycle(tree)]
fn with_directory(
    alloc: Global,
    depth: u32,
    parent: u64,
    value: &Value,
    found: Listed<TreeEntry>,
) -> Result<Listed<TreeEntry>, Refusal>
    ensures { Gives result (with_directory (with_entries depth) parent (view value.now) found) }
{
    let mut found = found;
    let name = name_from(alloc, value)?;
    let Some(inside) = inside_of(value) else {
        return Err(Refusal::NoScript(Fault::of(alloc, Rule::Entry)));
    };
    let node = found.len() as u64 + 2;
    found.push(TreeEntry {
        parent,
        name,
        file: None,
    })?;
    match with_entries(alloc, depth, node, inside, found) {
        Ok(found) => Ok(found),
        Err(refusal) => Err(refusal.at_key(alloc, "entries")),
    }
}

/// The list with an entry behind it.
#[cycle(tree)]
#[tactic(auto, unfolding(crate::specs::Directory::with_entry))]
fn with_entry(
    alloc: Global,
    depth: u32,
    parent: u64,
    value: &Value,
    found: Listed<TreeEntry>,
) -> Result<Listed<TreeEntry>, Refusal>
    ensures { Gives result (with_entry (with_entries depth) parent (view value.now) found) }
{
    if is_in_file_form(value) {
        with_file(alloc, parent, value, found)
    } else if is_in_directory_form(value) {
        with_directory(alloc, depth, parent, value, found)
    } else {
        Err(Refusal::NoScript(Fault::of(alloc, Rule::Entry)))
    }
}

/// The list with the entries of a directory behind it, in which directories nest less deep than the number.
#[cycle(tree)]
#[tactic(auto, unfolding(crate::specs::Directory::with_entries))]
fn with_entries(
    alloc: Global,
    depth: u32,
    parent: u64,
    list: &[Value],
    found: Listed<TreeEntry>,
) -> Result<Listed<TreeEntry>, Refusal>
    ensures { Gives result (with_entries depth parent (map view list.now) found) }
{
    if depth == 0 {
        return Err(Refusal::NoScript(Fault::of(alloc, Rule::Nesting)));
    }
    let mut found = found;
    for (number, value) in list.iter().enumerate() {
        match with_entry(alloc, depth - 1, parent, value, found) {
            Ok(more) => found = more,
            Err(refusal) => return Err(refusal.in_element(number)),
        }
    }
    Ok(found)
}

/// The entries of a tree: each stands behind the directory that it is in.
#[tactic(auto, unfolding(crate::specs::Directory::entries_of))]
pub fn entries_from(alloc: Global, value: &Value) -> Result<Listed<TreeEntry>, Refusal>
    ensures { Gives result (entries_of (view value.now)) }
{
    match elements_of(value) {
        Some(list) => with_entries(alloc, DEPTH, ROOT, list, Listed::new(alloc)),
        None => Err(Refusal::NoScript(Fault::of(alloc, Rule::List))),
    }
}
