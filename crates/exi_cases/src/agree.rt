//! One answer by the three kinds of string tables.

use std::alloc::{AllocError, Global};

/// The answer of `ListTables`, `HashTables` and `PlaceTables`, in this order, where the three agree; where they do not,
/// a text that says so.
pub fn agreed(alloc: Global, answers: &[Option<String>]) -> Result<Option<String>, AllocError> {
    match answers {
        [Some(listed), Some(hashed), Some(placed)] => Ok(Some(one_of(
            alloc,
            listed.as_str(),
            hashed.as_str(),
            placed.as_str(),
        )?)),
        [None, None, None] => Ok(None),
        _ => Ok(Some(String::from_str(alloc, "differ: some have no answer")?)),
    }
}

fn one_of(alloc: Global, listed: &str, hashed: &str, placed: &str) -> Result<String, AllocError> {
    if listed == hashed && listed == placed {
        return String::from_str(alloc, listed);
    }
    format!(in alloc; "differ: ListTables {listed}; HashTables {hashed}; PlaceTables {placed}")
}
