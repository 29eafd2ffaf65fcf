//! Objects of JSON, member by member.
use serde_json::{Map, Value, put};
use std::alloc::{AllocError, Global};

/// An object that is being made.
pub(crate) type Object = Map<String, Value>;

/// Puts a number at a name. Refused only when out of memory.
pub(crate) fn put_number(
    alloc: Global,
    out: &mut Object,
    name: &str,
    number: u64,
) -> Result<(), AllocError> {
    put(out, alloc, name, Value::from(number))
}

/// Puts a text at a name. Refused only when out of memory.
pub(crate) fn put_text(
    alloc: Global,
    out: &mut Object,
    name: &str,
    text: &str,
) -> Result<(), AllocError> {
    let text = text.to_string(alloc)?;
    put(out, alloc, name, Value::String(text))
}

/// Puts a truth value at a name. Refused only when out of memory.
pub(crate) fn put_flag(
    alloc: Global,
    out: &mut Object,
    name: &str,
    flag: bool,
) -> Result<(), AllocError> {
    put(out, alloc, name, Value::Bool(flag))
}

/// Puts a list at a name. Refused only when out of memory.
pub(crate) fn put_list(
    alloc: Global,
    out: &mut Object,
    name: &str,
    list: Vec<Value>,
) -> Result<(), AllocError> {
    put(out, alloc, name, Value::Array(list))
}

/// An object with one member, which is a list. Refused only when out of memory.
pub(crate) fn list_object(
    alloc: Global,
    name: &str,
    list: Vec<Value>,
) -> Result<Value, AllocError> {
    let mut out = Map::new(alloc);
    put_list(alloc, &mut out, name, list)?;
    Ok(Value::Object(out))
}
