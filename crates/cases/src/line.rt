/// What a line of a file of cases says, by its first word. What stands before the first case, stands before each.
pub(crate) enum Line<'a> {
    /// `== TITLE` begins a case. It has the lines up to the next one.
    Title(&'a str),
    /// `? LINES|WHY` is a case of its own. Behind the script as read so far stand these lines, which are `; ` apart,
    /// and then one that would be answered. The last of them is refused, and WHY is the end of its `error` line.
    Refused(&'a str),
    /// `$ WORDS` are the program's words. A case is played for those of each such line, or of each before the first
    /// case where it has none. The words stand a blank apart, and `''` is an empty one.
    Call(&'a str),
    /// `! pieces N ..`: the case is played with reads and writes that move at most N bytes, for each N.
    ///
    /// `! fails read N`, `! fails write N`: the read or the write of this number fails.
    ///
    /// `! ends STATUS`: the run ends so. Without, it ends as the last line of its answer says: by an `error` or well.
    ///
    /// `! front N`: only the first N bytes of the answer are written.
    ///
    /// `! listed`: what is written is a capture, and the answer is what `list` makes of it.
    Setting(&'a str),
    /// `> TEXT` is a line of the answer.
    Answer(&'a str),
    /// `>> FILE`: the answer goes on by this file.
    AnswerFile(&'a str),
    /// `< FILE`: the script goes on by this file.
    ScriptFile(&'a str),
    /// `\ TEXT` is a piece of the script without an end of line. In it `\n`, `\r` and `\t` are what they are in Rust.
    Piece(&'a str),
    /// `* A..B LINE` is LINE for each number from A up to B, which stands in it where `@` does.
    Repeated(&'a str),
    /// Any other line is one of the script.
    Script(&'a str),
}

impl Line<'_> {
    /// What a line says.
    pub(crate) fn new(line: &str) -> Line<'_> {
        let (mark, rest) = line.split_once(' ').unwrap_or((line, ""));
        match mark {
            "==" => Line::Title(rest),
            "?" => Line::Refused(rest),
            "$" => Line::Call(rest),
            "!" => Line::Setting(rest),
            ">" => Line::Answer(rest),
            ">>" => Line::AnswerFile(rest),
            "<" => Line::ScriptFile(rest),
            "\\" => Line::Piece(rest),
            "*" => Line::Repeated(rest),
            _ => Line::Script(line),
        }
    }
}
