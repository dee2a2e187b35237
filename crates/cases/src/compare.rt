use std::alloc::{AllocError, Global};

/// How many of the first lines of two texts are the same.
fn same_lines(found: &str, wanted: &str) -> usize {
    let mut count: usize = 0;
    for (one, other) in found.lines().zip(wanted.lines()) {
        if one != other {
            break;
        }
        count = count.saturating_add(1);
    }
    count
}

/// The first line of two texts that isn't the same, if there is one. No line is told as an empty one.
pub(crate) fn difference(alloc: Global, found: &str, wanted: &str) -> Result<String, AllocError> {
    let same = same_lines(found, wanted);
    let one = found.lines().skip(same).next().unwrap_or("");
    let other = wanted.lines().skip(same).next().unwrap_or("");
    let line = same.saturating_add(1);
    let (count, wanted_count) = (found.len(), wanted.len());
    format!(in alloc;
        "line {line} is \"{one}\", and not \"{other}\"; {count} bytes, {wanted_count} wanted"
    )
}
