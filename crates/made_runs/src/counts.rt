//! What is counted of the answers to a script, one after another.
ghost use Rattle.std.specs.Prelude.{◌≡◌, ◌<◌, ◌+◌, None, if◌then◌else◌};
ghost use Rattle.made_runs.specs.Applied as counting;

use spb_network::Answer;
use spb_types::Tables;

/// What is counted of the answers to a script.
#[derive(Clone, Copy, Debug, PartialEq, Eq)]
pub struct Counts {
    /// The answers.
    pub lines: u64,
    /// The `show` answers.
    pub shows: u64,
    /// The `show` answers that say quiet, and have the rows of the `wiring` answer right behind them.
    pub same: u64,
    /// The customers' frames that left, up to the greatest number of 64 bits.
    pub outs: u64,
}

/// Whether two tables have the same entries, in the same order.
#[tactic(auto, unfolding(crate::specs::Applied::have_same_rows))]
fn have_same_rows(a: &Tables, b: &Tables) -> bool
    ensures { result ≡ counting.have_same_rows a.now b.now }
{
    a.unicast.as_slice() == b.unicast.as_slice() && a.group.as_slice() == b.group.as_slice()
}

/// The tables of an answer, where it is that of a `show` that says quiet.
fn quiet_tables(answer: Answer) -> Option<Tables>
    ensures { result ≡ counting.quiet_tables answer }
{
    match answer {
        Answer::Show {
            quiet: true,
            tables,
            ..
        } => Some(tables),
        _ => None,
    }
}

/// How many customers' frames an answer tells of.
fn outs_told(answer: &Answer) -> u64
    ensures { result ≡ counting.outs_told answer.now }
{
    match answer {
        Answer::Outs { frames } => frames.len() as u64,
        _ => 0,
    }
}

/// What was counted so far, and the tables of the last answer, where it was that of a `show` that said quiet.
#[derive(Drop)]
pub(crate) struct Tally {
    pub(crate) counts: Counts,
    pub(crate) shown: Option<Tables>,
}

impl Tally {
    /// Nothing was counted yet.
    pub(crate) fn new() -> Self
        ensures counts { result.counts ≡ record { lines = 0; shows = 0; same = 0; outs = 0 } }
        ensures shown { result.shown ≡ None }
    {
        Tally {
            counts: Counts {
                lines: 0,
                shows: 0,
                same: 0,
                outs: 0,
            },
            shown: None,
        }
    }

    /// Whether an answer is that of `wiring`, with the rows of the `show` right before it, which said quiet.
    fn is_as_shown(&self, answer: &Answer) -> bool
        ensures { result ≡ counting.is_as_shown self.now.shown answer.now }
    {
        match (&self.shown, answer) {
            (Some(shown), Answer::Wiring { tables, .. }) => have_same_rows(shown, tables),
            _ => false,
        }
    }

    /// Counts one answer more.
    pub(crate) fn add(&mut self, answer: Answer)
        requires lines { self.old.counts.lines < 18446744073709551615 }
        requires shows { self.old.counts.shows < 18446744073709551615 }
        requires same { self.old.counts.same < 18446744073709551615 }
        ensures lines { self.new.counts.lines ≡ self.old.counts.lines + 1 }
        ensures shows { self.new.counts.shows
            ≡ self.old.counts.shows + (if counting.is_show answer then 1 else 0) }
        ensures same { self.new.counts.same
            ≡ self.old.counts.same + (if counting.is_as_shown self.old.shown answer then 1 else 0) }
        ensures outs { self.new.counts.outs ≡ counting.in_64_bits (self.old.counts.outs + counting.outs_told answer) }
        ensures shown { self.new.shown ≡ counting.quiet_tables answer }
    {
        self.counts.lines += 1;
        if matches!(answer, Answer::Show { .. }) {
            self.counts.shows += 1;
        }
        if self.is_as_shown(&answer) {
            self.counts.same += 1;
        }
        self.counts.outs = self.counts.outs.saturating_add(outs_told(&answer));
        self.shown = quiet_tables(answer);
    }
}
