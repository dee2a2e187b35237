use crate::escape::{numbered, push_piece};
use crate::line::Line;
use crate::trouble::Trouble;
use std::alloc::Global;
use std::fs;
use std::rt::Files;

/// A case, as far as its lines were read.
#[derive(Clone, Drop)]
pub(crate) struct Case {
    /// What it shows.
    pub(crate) title: String,
    /// The words of the program, for each call.
    pub(crate) calls: Vec<String>,
    /// Whether it has calls of its own.
    has_calls: bool,
    /// The most bytes that a read or a write moves, for each run.
    pub(crate) pieces: Vec<usize>,
    /// The number of the read that fails, from 1; 0 where none does.
    pub(crate) failing_read: u32,
    /// The number of the write that fails, from 1; 0 where none does.
    pub(crate) failing_write: u32,
    /// The status by which its runs end, where it is told.
    status: Option<String>,
    /// How many bytes of the answer are written, where it is told.
    front: Option<usize>,
    /// Whether what is written is a capture, and the answer its listing.
    pub(crate) is_listed: bool,
    /// The script.
    pub(crate) script: String,
    /// What is answered.
    answer: String,
}

/// A number that a word tells.
fn number_of(word: &str) -> Result<u32, Trouble> {
    word.parse().map_err(|_| Trouble::NoNumber)
}

/// Puts a line to a text.
fn push_line(text: &mut String, line: &str) -> Result<(), Trouble> {
    text.push_str(line)?;
    text.push('\n')?;
    Ok(())
}

impl Case {
    /// The case without lines, which is played for bridges of each kind, in pieces of one byte and of fifty.
    pub(crate) fn new(alloc: Global) -> Result<Case, Trouble> {
        let mut calls = Vec::new(alloc);
        calls.push(String::from_str(alloc, "run")?)?;
        calls.push(String::from_str(alloc, "run --kind swift")?)?;
        calls.push(String::from_str(alloc, "run --kind mixed")?)?;
        let pieces = vec![in alloc; 1, 50]?;
        Ok(Case {
            title: String::new(alloc),
            calls,
            has_calls: false,
            pieces,
            failing_read: 0,
            failing_write: 0,
            status: None,
            front: None,
            is_listed: false,
            script: String::new(alloc),
            answer: String::new(alloc),
        })
    }

    /// A case of this title with the lines that were read so far, which stand before its own.
    pub(crate) fn next(&self, title: &str) -> Result<Case, Trouble> {
        let mut next = self.clone()?;
        next.title.clear();
        next.title.push_str(title)?;
        next.has_calls = false;
        Ok(next)
    }

    /// Adds a call. The first of its own takes the place of those before.
    fn add_call(&mut self, alloc: Global, words: &str) -> Result<(), Trouble> {
        if !self.has_calls {
            self.calls.clear();
            self.has_calls = true;
        }
        self.calls.push(String::from_str(alloc, words)?)?;
        Ok(())
    }

    /// Adds a size of pieces.
    fn add_piece(&mut self, word: &str) -> Result<(), Trouble> {
        let size = number_of(word)? as usize;
        self.pieces.push(size)?;
        Ok(())
    }

    /// Takes these sizes of pieces in the place of those before.
    fn set_pieces(&mut self, words: &str) -> Result<(), Trouble> {
        self.pieces.clear();
        for word in words.split(' ') {
            self.add_piece(word)?;
        }
        Ok(())
    }

    /// Sets what fails.
    fn set_failing(&mut self, words: &str) -> Result<(), Trouble> {
        match words.split_once(' ') {
            Some(("read", number)) => self.failing_read = number_of(number)?,
            Some(("write", number)) => self.failing_write = number_of(number)?,
            _ => return Err(Trouble::NoSetting),
        }
        Ok(())
    }

    /// Sets what a line behind `!` tells.
    fn set(&mut self, alloc: Global, setting: &str) -> Result<(), Trouble> {
        match setting.split_once(' ') {
            Some(("pieces", words)) => self.set_pieces(words)?,
            Some(("fails", words)) => self.set_failing(words)?,
            Some(("ends", status)) => self.status = Some(String::from_str(alloc, status)?),
            Some(("front", bytes)) => self.front = Some(number_of(bytes)? as usize),
            None if setting == "listed" => self.is_listed = true,
            _ => return Err(Trouble::NoSetting),
        }
        Ok(())
    }

    /// Adds what a line says that repeats no other.
    fn add_once(&mut self, rt: &(impl Files + AllocGlobal), line: Line<'_>) -> Result<(), Trouble> {
        match line {
            Line::Call(words) => self.add_call(rt.alloc(), words),
            Line::Setting(setting) => self.set(rt.alloc(), setting),
            Line::Answer(text) => push_line(&mut self.answer, text),
            Line::Script(text) => push_line(&mut self.script, text),
            Line::Piece(text) => push_piece(&mut self.script, text),
            Line::ScriptFile(file) => {
                let text = fs::read_to_string(rt, file)?;
                Ok(self.script.push_str(text.as_str())?)
            }
            Line::AnswerFile(file) => {
                let text = fs::read_to_string(rt, file)?;
                Ok(self.answer.push_str(text.as_str())?)
            }
            Line::Title(_) | Line::Refused(_) | Line::Repeated(_) => Err(Trouble::NoPlace),
        }
    }

    /// Adds a line for each number.
    fn add_repeated(
        &mut self,
        rt: &(impl Files + AllocGlobal),
        repeated: &str,
    ) -> Result<(), Trouble> {
        let (range, line) = repeated.split_once(' ').ok_or(Trouble::NoPlace)?;
        let (first, last) = range.split_once("..").ok_or(Trouble::NoNumber)?;
        for number in number_of(first)?..=number_of(last)? {
            let line = numbered(rt.alloc(), line, number)?;
            self.add_once(rt, Line::new(line.as_str()))?;
        }
        Ok(())
    }

    /// Adds what a line says.
    pub(crate) fn add(
        &mut self,
        rt: &(impl Files + AllocGlobal),
        line: Line<'_>,
    ) -> Result<(), Trouble> {
        match line {
            Line::Repeated(repeated) => self.add_repeated(rt, repeated),
            line => self.add_once(rt, line),
        }
    }

    /// Adds lines, the last of which is refused, and one behind them that would be answered.
    pub(crate) fn add_refused(&mut self, alloc: Global, row: &str) -> Result<(), Trouble> {
        let (lines, why) = row.split_once('|').ok_or(Trouble::NoPlace)?;
        for line in lines.split("; ") {
            push_line(&mut self.script, line)?;
        }
        let number = self.script.as_str().lines().count();
        let error = format!(in alloc; "error {number} {why}")?;
        push_line(&mut self.answer, error.as_str())?;
        push_line(&mut self.script, "state")
    }

    /// What is written.
    pub(crate) fn written(&self) -> Result<&str, Trouble> {
        match self.front {
            Some(bytes) => self.answer.as_str().get(..bytes).ok_or(Trouble::NoNumber),
            None => Ok(self.answer.as_str()),
        }
    }

    /// The status by which each run ends, as it is debugged.
    pub(crate) fn ending(&self, alloc: Global) -> Result<String, Trouble> {
        match &self.status {
            Some(status) => Ok(status.clone()?),
            None => ending_of(alloc, self.answer.as_str()),
        }
    }
}

/// How a run ends that answers this: where the last line is an `error`, as that says.
fn ending_of(alloc: Global, answer: &str) -> Result<String, Trouble> {
    let last = answer.lines().last().unwrap_or("");
    let words: Vec<&str> = last.split(' ').collect(alloc)?;
    let ending = match words.as_slice() {
        ["error", line, "1", "Words", column] => {
            format!(in alloc; "Refused({line}, Words({column}))")?
        }
        ["error", line, _, reason] => format!(in alloc; "Refused({line}, Command({reason}))")?,
        _ => String::from_str(alloc, "Done")?,
    };
    Ok(ending)
}
