//! How a run can end: its number, which is the exit status, and what standard error is told.
ghost use Rattle.std.specs.Prelude.{◌≡◌, is_some, nat_le};

use crate::Refusal;

/// How a run ended.
#[derive(Clone, Copy, Debug, PartialEq, Eq)]
pub enum Status {
    /// The script was read to its end, and all answers or packets are written; or the script that was made, or the line of what was
    /// counted of it, is written; or a capture is listed to its end.
    Done,
    /// The line of this number, from 1, or of a script that was made the command, is the first that is refused. The answers
    /// before it and its `error` line are written; of a script that was made, that line alone; by `capture` the packets
    /// before it, and no `error` line. Of a capture that is listed it is the number of the packet that isn't whole, or 0
    /// for the header, and the packets before it are listed.
    Refused(u32, Refusal),
    /// The words are no form of the program. Nothing was read or written.
    Usage,
    /// No memory was found. A front of what was to be written is.
    NoMemory,
    /// A read failed. The answers to the whole lines before it are written, all of which are accepted; by `capture` the
    /// header and the packets of these lines are; of a capture that is listed nothing is written.
    ReadFault,
    /// A write failed. A front of what was to be written is.
    WriteFault,
    /// The script has more than 8,388,608 bytes, or more than 100,000 lines. The answers before that are written. Or the
    /// capture has more than 67,108,864 bytes, and nothing is written.
    TooLong,
}

impl Status {
    ghost use Rattle.script_run.specs.Run.{status_number};

    /// The number of the status, which is the program's exit status.
    pub fn number(&self) -> u8
        ensures { result ≡ status_number self.now }
    {
        match self {
            Status::Done => 0,
            Status::Refused(_, _) => 1,
            Status::Usage => 2,
            Status::NoMemory => 3,
            Status::ReadFault => 4,
            Status::WriteFault => 5,
            Status::TooLong => 6,
        }
    }

    /// The line for standard error that says why a run was cut short: there is one for each status from 3 on.
    pub fn message(&self) -> Option<&'static str>
        ensures { is_some result ≡ nat_le 3 (status_number self.now) }
    {
        match self {
            Status::Done | Status::Refused(_, _) | Status::Usage => None,
            Status::NoMemory => Some("spbsim: out of memory"),
            Status::ReadFault => Some("spbsim: standard input can't be read"),
            Status::WriteFault => Some("spbsim: standard output can't be written"),
            Status::TooLong => Some(
                "spbsim: the script has more than 8388608 bytes or 100000 lines, or the capture 67108864 bytes",
            ),
        }
    }
}
