use crate::trouble::Trouble;
use std::alloc::{AllocError, Global};

/// Puts a text to another that begins behind a `\`: its first letter says what it stands for.
fn push_escaped(text: &mut String, part: &str) -> Result<(), Trouble> {
    let (letter, rest) = match part.split_at_checked(1) {
        Some(("n", rest)) => ('\n', rest),
        Some(("r", rest)) => ('\r', rest),
        Some(("t", rest)) => ('\t', rest),
        _ => return Err(Trouble::NoEscape),
    };
    text.push(letter)?;
    text.push_str(rest)?;
    Ok(())
}

/// Puts a text to another in which `\n`, `\r` and `\t` are what they are in Rust.
pub(crate) fn push_piece(text: &mut String, piece: &str) -> Result<(), Trouble> {
    let mut parts = piece.split('\\');
    text.push_str(parts.next().unwrap_or(""))?;
    for part in parts {
        push_escaped(text, part)?;
    }
    Ok(())
}

/// A line in which a number stands for each `@`.
pub(crate) fn numbered(alloc: Global, line: &str, number: u32) -> Result<String, AllocError> {
    let mut parts = line.split('@');
    let mut text = String::from_str(alloc, parts.next().unwrap_or(""))?;
    for part in parts {
        write!(text, "{number}")?;
        text.push_str(part)?;
    }
    Ok(text)
}

/// The program's words that a text spells: they stand a blank apart, and `''` is an empty one.
pub(crate) fn words_of(alloc: Global, text: &str) -> Result<Vec<String>, AllocError> {
    let mut words = Vec::new(alloc);
    if text.is_empty() {
        return Ok(words);
    }
    for word in text.split(' ') {
        let word = if word == "''" { "" } else { word };
        words.push(String::from_str(alloc, word)?)?;
    }
    Ok(words)
}
