//! Numbers, pairs and bytes as probes write them.
use hd_task::{Kid, ROOT_ACTION, ROOT_PARENT};
use std::alloc::{AllocError, Global};

/// Appends an item to a list, after a comma if it is not the first one.
pub fn add(list: &mut String, item: &str) -> Result<(), AllocError> {
    if !list.is_empty() {
        list.push_str(", ")?;
    }
    list.push_str(item)?;
    Ok(())
}

/// Returns `text` as an answer of its own.
pub fn told(alloc: Global, text: &str) -> Result<Option<String>, AllocError> {
    Ok(Some(String::from_str(alloc, text)?))
}

/// Returns bytes as hexadecimal digits, a space between two.
pub fn hex_of(alloc: Global, bytes: &[u8]) -> Result<String, AllocError> {
    let mut list = String::new(alloc);
    for byte in bytes {
        if !list.is_empty() {
            list.push_str(" ")?;
        }
        let digits = format!(in alloc; "{byte:02X}")?;
        list.push_str(digits.as_str())?;
    }
    Ok(list)
}

/// Reads a successor: `root`, or the numbers of an entry and of an action.
pub fn kid_of(text: &str) -> Option<Kid> {
    if text == "root" {
        return Some(Kid {
            parent: ROOT_PARENT,
            action: ROOT_ACTION,
        });
    }
    let (parent, action) = text.split_once(' ')?;
    match (parent.parse::<u64>(), action.parse::<u32>()) {
        (Ok(parent), Ok(action)) => Some(Kid { parent, action }),
        _ => None,
    }
}

/// Reads a list of successors, or `none`.
pub fn kids_of(alloc: Global, text: &str) -> Result<Option<Vec<Kid>>, AllocError> {
    let mut kids = Vec::new(alloc);
    if text == "none" {
        return Ok(Some(kids));
    }
    for item in text.split(", ") {
        match kid_of(item) {
            Some(kid) => kids.push(kid)?,
            None => return Ok(None),
        }
    }
    Ok(Some(kids))
}

/// Writes a successor.
pub fn kid_text(alloc: Global, kid: Kid) -> Result<String, AllocError> {
    if kid.parent == ROOT_PARENT {
        return String::from_str(alloc, "root");
    }
    format!(in alloc; "{} {}", kid.parent, kid.action)
}

/// Writes a list of successors.
pub fn kids_text(alloc: Global, kids: &[Kid]) -> Result<String, AllocError> {
    let mut list = String::new(alloc);
    for kid in kids {
        let text = kid_text(alloc, *kid)?;
        add(&mut list, text.as_str())?;
    }
    Ok(list)
}
