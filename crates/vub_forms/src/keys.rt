ghost use Rattle.std.specs.Prelude.{◌≡◌, string_bytes};
ghost use Rattle.std.specs.List.{list_all};
ghost use Rattle.std.specs.BTreeMap.{keys};
ghost use Rattle.serde_json.specs.View.{view};
ghost use Rattle.vub_forms.specs.Keys.{is_setup_key, is_device_number_key, is_device_list_key, is_device_key, is_turn_key, is_key, has_form, is_ring_place_key, is_ring_state_key, is_ring_key, has_ring_form};

use crate::fault::{Fault, Step};
use crate::rule::Rule;
use serde_json::{Map, Value};
use std::alloc::Global;
use vub_base::OutOfMemory;

fn is_a_setup_key(key: &str) -> bool
    ensures { result ≡ is_setup_key key.now }
{
    key == "service"
        || key == "objects"
        || key == "regions"
        || key == "rings"
        || key == "requests"
        || key == "guest"
}

fn is_a_device_number_key(key: &str) -> bool
    ensures { result ≡ is_device_number_key key.now }
{
    key == "queues" || key == "max_size" || key == "features" || key == "protocol"
}

fn is_a_device_list_key(key: &str) -> bool
    ensures { result ≡ is_device_list_key key.now }
{
    key == "masks" || key == "config" || key == "exits" || key == "refuse"
}

fn is_a_device_key(key: &str) -> bool
    ensures { result ≡ is_device_key key.now }
{
    is_a_device_number_key(key) || is_a_device_list_key(key) || key == "bitmap"
}

fn is_a_turn_key(key: &str) -> bool
    ensures { result ≡ is_turn_key key.now }
{
    key == "schedule" || key == "rounds"
}

fn is_a_key(key: &str) -> bool
    ensures { result ≡ is_key key.now }
{
    is_a_setup_key(key) || is_a_device_key(key) || is_a_turn_key(key)
}

fn has_only_keys(map: &Map<String, Value>) -> bool
    ensures { result ≡ list_all (λ k. is_key (string_bytes k)) (keys map.now) }
{
    map.keys().all(|key| is_a_key(key.as_str()))
}

/// Whether the tree is an object with a script's keys and no others.
pub fn is_in_form(value: &Value) -> bool
    ensures { result ≡ has_form (view value.now) }
{
    match value {
        Value::Object(map) => has_only_keys(map),
        _ => false,
    }
}

/// The fault of the first key that is no key of a script; where there is none, the tree is no object.
pub fn script_fault(alloc: Global, value: &Value) -> Result<Fault, OutOfMemory> {
    let Value::Object(map) = value else {
        return Ok(Fault::of(alloc, Rule::Script));
    };
    match map.keys().find(|key| !is_a_key(key.as_str())) {
        Some(key) => key_fault(alloc, key.as_str(), Rule::ScriptKey),
        None => Ok(Fault::of(alloc, Rule::Script)),
    }
}

/// The fault of this key.
fn key_fault(alloc: Global, key: &str, rule: Rule) -> Result<Fault, OutOfMemory> {
    let key = String::from_str(alloc, key)?;
    Fault::of(alloc, rule).below(Step::Member(key))
}

fn is_a_ring_place_key(key: &str) -> bool
    ensures { result ≡ is_ring_place_key key.now }
{
    key == "queue" || key == "size" || key == "info" || key == "base" || key == "next_used"
}

fn is_a_ring_state_key(key: &str) -> bool
    ensures { result ≡ is_ring_state_key key.now }
{
    key == "kick" || key == "call" || key == "ready" || key == "enabled"
}

fn is_a_ring_key(key: &str) -> bool
    ensures { result ≡ is_ring_key key.now }
{
    is_a_ring_place_key(key) || is_a_ring_state_key(key)
}

fn has_only_ring_keys(map: &Map<String, Value>) -> bool
    ensures { result ≡ list_all (λ k. is_ring_key (string_bytes k)) (keys map.now) }
{
    map.keys().all(|key| is_a_ring_key(key.as_str()))
}

/// Whether the tree is an object with a ring's keys and no others.
pub fn is_in_ring_form(value: &Value) -> bool
    ensures { result ≡ has_ring_form (view value.now) }
{
    match value {
        Value::Object(map) => has_only_ring_keys(map),
        _ => false,
    }
}

/// The fault of the first key that is no key of a ring; where there is none, the tree is no object.
pub fn ring_fault(alloc: Global, value: &Value) -> Result<Fault, OutOfMemory> {
    let Value::Object(map) = value else {
        return Ok(Fault::of(alloc, Rule::Ring));
    };
    match map.keys().find(|key| !is_a_ring_key(key.as_str())) {
        Some(key) => key_fault(alloc, key.as_str(), Rule::RingKey),
        None => Ok(Fault::of(alloc, Rule::Ring)),
    }
}
