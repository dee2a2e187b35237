use crate::case::Case;
use crate::line::Line;
use crate::play::wrong;
use crate::trouble::Trouble;
use std::alloc::Global;
use std::mem;
use std::rt::Files;

/// A file of cases, each of which is played once its lines are read.
#[derive(Drop)]
pub(crate) struct Reader<'a> {
    alloc: Global,
    /// The name of the file.
    file: &'a str,
    /// What stands before each case, once the first has begun.
    head: Option<Case>,
    /// The case whose lines are read; before the first case what stands before each.
    case: Case,
    /// How many cases there were.
    count: u32,
    /// What differs: the title of each case that does, and its first run.
    told: String,
}

impl<'a> Reader<'a> {
    /// A file of this name, of which nothing is read yet.
    pub(crate) fn new(alloc: Global, file: &'a str) -> Result<Reader<'a>, Trouble> {
        Ok(Reader {
            alloc,
            file,
            head: None,
            case: Case::new(alloc)?,
            count: 0,
            told: String::new(alloc),
        })
    }

    /// How many cases were played.
    pub(crate) fn count(&self) -> u32 {
        self.count
    }

    /// What differs: the title of each case that does, and its first run.
    pub(crate) fn told(&self) -> &str {
        self.told.as_str()
    }

    /// Tells a line about the file.
    fn tell(&mut self, text: &str) -> Result<(), Trouble> {
        let line = format!(in self.alloc; "{}: {text}\n", self.file)?;
        self.told.push_str(line.as_str())?;
        Ok(())
    }

    /// Plays a case, and tells if a run of it differs.
    fn play(&mut self, case: &Case) -> Result<(), Trouble> {
        self.count = self.count.saturating_add(1);
        let told = match wrong(self.alloc, case) {
            Ok(None) => return Ok(()),
            Ok(Some(told)) => told,
            Err(trouble) => format!(in self.alloc; "{trouble}")?,
        };
        let line = format!(in self.alloc; "{}\n    {told}", case.title)?;
        self.tell(line.as_str())
    }

    /// Ends the case whose lines were read, and takes the next one in its place.
    fn go_on(&mut self, next: Case) -> Result<(), Trouble> {
        let last = mem::replace(&mut self.case, next);
        if self.head.is_some() {
            return self.play(&last);
        }
        self.head = Some(last);
        Ok(())
    }

    /// Begins a case of this title.
    fn begin(&mut self, title: &str) -> Result<(), Trouble> {
        let next = match &self.head {
            Some(head) => head.next(title)?,
            None => self.case.next(title)?,
        };
        self.go_on(next)
    }

    /// Plays a case of its own: lines behind those read so far, the last of which is refused.
    fn play_refused(&mut self, row: &str) -> Result<(), Trouble> {
        let mut case = self.case.next(row)?;
        case.add_refused(self.alloc, row)?;
        self.play(&case)
    }

    /// Does what a line says.
    fn read_line(
        &mut self,
        rt: &(impl Files + AllocGlobal),
        line: Line<'_>,
    ) -> Result<(), Trouble> {
        match line {
            Line::Title(title) => self.begin(title),
            Line::Refused(row) => self.play_refused(row),
            line => self.case.add(rt, line),
        }
    }

    /// Reads a file and plays its cases. Where a line can't be read, it tells so and reads no further.
    pub(crate) fn read(
        &mut self,
        rt: &(impl Files + AllocGlobal),
        text: &str,
    ) -> Result<(), Trouble> {
        for (place, line) in text.lines().enumerate() {
            if let Err(trouble) = self.read_line(rt, Line::new(line)) {
                let told = format!(in self.alloc; "line {}: {trouble}", place.saturating_add(1))?;
                return self.tell(told.as_str());
            }
        }
        let none = Case::new(self.alloc)?;
        self.go_on(none)
    }
}
