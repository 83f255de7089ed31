use std::alloc::{AllocError, Global};

/// A text that repeats one of its parts.
pub fn repeating(
    alloc: Global,
    before: &str,
    part: &str,
    count: usize,
    after: &str,
) -> Result<String, AllocError> {
    let mut text = String::from_str(alloc, before)?;
    for _ in 0..count {
        text.push_str(part)?;
    }
    text.push_str(after)?;
    Ok(text)
}

/// Parts with a number each, from 0 on.
pub fn numbered(
    alloc: Global,
    before: &str,
    count: usize,
    after: &str,
) -> Result<String, AllocError> {
    let mut text = String::new(alloc);
    for number in 0..count {
        text.push_str(format!(in alloc; "{before}{number}{after}")?.as_str())?;
    }
    Ok(text)
}
