//! What a network answers: the questions about the whole network, and about one bridge.
ghost use Rattle.std.specs.Prelude.{◌≡◌, false, if◌then◌else◌, IfOk};
ghost use Rattle.std.specs.Option.{option_map};
ghost use Rattle.network_model.specs.declared.answer.Answer.TheVariants as answers;
ghost use Rattle.spb_world.specs.World.{wired_tables};
ghost use Rattle.network_model.specs.Questions as question;
ghost use Rattle.network_model.specs.Play as play;
ghost use Rattle.network_model.specs.Quiet.{failing};
ghost use Rattle.spb_network.specs.Network.{state_of, IsInOrder};
ghost use Rattle.spb_network.specs.Applying.{IsSoundNetwork};

use crate::{Answer, NetworkOf, Out, boxes};
use adjacency::Adjacency;
use bridge_api::Bridge;
use lsdb::DbRow;
use scenario::Command;
use spb_types::{Name, NoMemory, Seq, Tables};

/// Whether something comes to pass on the network by a command, so that customers' frames may leave.
fn is_event(command: &Command) -> bool
    ensures { result ≡ play.is_event command.now }
{
    matches!(
        command,
        Command::Metric { .. }
            | Command::Down(_)
            | Command::Up(_)
            | Command::Restart(_)
            | Command::Tick(_)
            | Command::Deliver { .. }
            | Command::Lose { .. }
            | Command::Double { .. }
            | Command::Round(_)
            | Command::Drain(_)
            | Command::Frame { .. }
    )
}

/// The answer to a command that is no question: to an event, the customers' frames that left by it.
pub(crate) fn event_answer(command: &Command, outs: Vec<Out>) -> Answer
    ensures { result ≡ (if play.is_event command.now then answers.Outs outs.items else answers.Silent) }
{
    if is_event(command) {
        Answer::Outs {
            frames: Seq::from_vec(outs),
        }
    } else {
        Answer::Silent
    }
}

/// Whether a command asks about the whole network.
fn asks_network(command: &Command) -> bool
    ensures { result ≡ question.asks_network command.now }
{
    matches!(command, Command::State)
}

/// The bridge that a command asks about. None exactly where the command is no question about one bridge.
pub(crate) fn asked(command: &Command) -> Option<Name>
    ensures { result ≡ option_map (λ q. q.bridge) (question.question_of command.now) }
{
    match command {
        Command::Show(name)
        | Command::Wiring(name)
        | Command::Db(name)
        | Command::Adj(name)
        | Command::Drops(name) => Some(*name),
        Command::Path { from, .. } => Some(*from),
        _ => None,
    }
}

/// Whether a command asks something, so that it changes nothing.
pub(crate) fn is_question(command: &Command) -> bool
    ensures { result ≡ question.is_question command.now }
{
    asks_network(command) || asked(command).is_some()
}

/// Whether the answer to a command says whether the network is quiet.
pub(crate) fn asks_for_quiet(command: &Command) -> bool
    ensures { result ≡ question.asks_for_quiet command.now }
{
    matches!(command, Command::State | Command::Show(_))
}

impl<B: Bridge> NetworkOf<B> {
    /// The answer to a question; `Silent` to what is none.
    pub(crate) fn answer(&self, command: &Command) -> Result<Answer, NoMemory>
        requires halted { self.now.halted ≡ false }
        requires sound { IsSoundNetwork B.shown self.now }
        ensures { IfOk result (λ answer. answer ≡ play.answer_to_asked (state_of B.shown self.now) command.now) }
    {
        if asks_network(command) {
            return self.state();
        }
        self.answer_question(command)
    }

    /// The answer to a question about a bridge; `Silent` to what is none.
    fn answer_question(&self, command: &Command) -> Result<Answer, NoMemory>
        requires halted { self.now.halted ≡ false }
        requires sound { IsSoundNetwork B.shown self.now }
        ensures { IfOk result (λ answer.
            answer ≡ play.answer_to (state_of B.shown self.now) (question.question_of command.now)) }
    {
        let Some(name) = asked(command) else {
            return Ok(Answer::Silent);
        };
        match self.world.bridge_place(name) {
            None => Ok(Answer::Silent),
            Some(place) => self.answer_at(command, place),
        }
    }

    /// The conditions of quiet that fail.
    fn state(&self) -> Result<Answer, NoMemory>
        requires halted { self.now.halted ≡ false }
        requires sound { IsSoundNetwork B.shown self.now }
        ensures { IfOk result (λ answer. answer ≡ answers.State (failing (state_of B.shown self.now))) }
    {
        Ok(Answer::State {
            failing: Seq::from_vec(self.failing()?),
        })
    }

    /// The answer about the bridge at a place; `Silent` to what is no question about a bridge.
    #[tactic(auto, using(crate::proofs::CommandFits::in_order))]
    fn answer_at(&self, command: &Command, place: usize) -> Result<Answer, NoMemory>
        requires halted { self.now.halted ≡ false }
        requires sound { IsSoundNetwork B.shown self.now }
        ensures { IfOk result (λ answer.
            answer ≡ question.answer_at (state_of B.shown self.now) place (question.question_of command.now)) }
    {
        match command {
            Command::Show(name) => self.show(*name, place),
            Command::Wiring(name) => self.wiring(*name, place),
            Command::Db(name) => self.db(*name, place),
            Command::Adj(name) => self.adj(*name, place),
            Command::Path { from, to, vid } => self.path(*from, *to, *vid, place),
            Command::Drops(name) => Ok(self.drops(*name, place)),
            _ => Ok(Answer::Silent),
        }
    }

    /// The tables of a bridge, and whether the network is quiet.
    #[tactic(auto, using(crate::proofs::CommandFits::in_order))]
    fn show(&self, bridge: Name, place: usize) -> Result<Answer, NoMemory>
        requires halted { self.now.halted ≡ false }
        requires sound { IsSoundNetwork B.shown self.now }
        ensures { IfOk result (λ answer. answer ≡ answers.Show bridge
            (question.is_quiet (state_of B.shown self.now)) (question.show_at (state_of B.shown self.now) place)) }
    {
        let quiet = self.failing()?.is_empty();
        let tables = self.own_tables(place)?;
        Ok(Answer::Show {
            bridge,
            quiet,
            tables,
        })
    }

    /// The tables of the bridge at a place, by the LSPs that it holds.
    fn own_tables(&self, place: usize) -> Result<Tables, NoMemory>
        requires { IsInOrder B.shown self.now }
        ensures { IfOk result (λ tables. tables ≡ question.show_at (state_of B.shown self.now) place) }
    {
        match self.boxes.get(place) {
            None => Ok(Tables {
                unicast: Seq::new(self.alloc),
                group: Seq::new(self.alloc),
            }),
            Some(bridge) => bridge.tables(),
        }
    }

    /// The tables that the wiring gives a bridge.
    fn wiring(&self, bridge: Name, place: usize) -> Result<Answer, NoMemory>
        ensures { IfOk result (λ answer. answer ≡ answers.Wiring bridge (wired_tables self.now.world place)) }
    {
        let tables = self.world.wired_tables(self.alloc, place)?;
        Ok(Answer::Wiring { bridge, tables })
    }

    /// The database of a bridge.
    fn db(&self, bridge: Name, place: usize) -> Result<Answer, NoMemory>
        requires { IsInOrder B.shown self.now }
        ensures { IfOk result (λ answer.
            answer ≡ answers.Db bridge (question.db_at (state_of B.shown self.now) place)) }
    {
        let rows = self.rows(place)?;
        Ok(Answer::Db {
            bridge,
            rows: Seq::from_vec(rows),
        })
    }

    /// What the bridge at a place holds: a row for each LSP id, in order of id.
    fn rows(&self, place: usize) -> Result<Vec<DbRow>, NoMemory>
        requires { IsInOrder B.shown self.now }
        ensures { IfOk result (λ rows. rows.items ≡ question.db_at (state_of B.shown self.now) place) }
    {
        match self.boxes.get(place) {
            None => Ok(Vec::new(self.alloc)),
            Some(bridge) => boxes::held_rows(self.alloc, bridge),
        }
    }

    /// The adjacencies of a bridge.
    fn adj(&self, bridge: Name, place: usize) -> Result<Answer, NoMemory>
        requires { IsInOrder B.shown self.now }
        ensures { IfOk result (λ answer.
            answer ≡ answers.Adj bridge (question.adj_at (state_of B.shown self.now) place)) }
    {
        let ports = self.adjacencies(place)?;
        Ok(Answer::Adj {
            bridge,
            ports: Seq::from_vec(ports),
        })
    }

    /// The ports of the bridge at a place, from port 1 on: the adjacency, and whether CSNPs are due.
    fn adjacencies(&self, place: usize) -> Result<Vec<(Adjacency, bool)>, NoMemory>
        requires { IsInOrder B.shown self.now }
        ensures { IfOk result (λ ports. ports.items ≡ question.adj_at (state_of B.shown self.now) place) }
    {
        let count = self.world.ports(place);
        match self.boxes.get(place) {
            None => Ok(Vec::new(self.alloc)),
            Some(bridge) => boxes::adjacencies_of(self.alloc, bridge, count),
        }
    }

    /// How many frames a bridge dropped, by the reason.
    fn drops(&self, bridge: Name, place: usize) -> Answer
        requires { IsInOrder B.shown self.now }
        ensures { result ≡ answers.Drops bridge (question.drops_at (state_of B.shown self.now) place) }
    {
        Answer::Drops {
            bridge,
            counts: self.drop_counts(place),
        }
    }

    /// How many frames the bridge at a place dropped: a count for each reason, in order.
    fn drop_counts(&self, place: usize) -> [u64; 9]
        requires { IsInOrder B.shown self.now }
        ensures { result ≡ question.drops_at (state_of B.shown self.now) place }
    {
        match self.boxes.get(place) {
            None => [0; 9],
            Some(bridge) => boxes::drop_counts(bridge),
        }
    }
}
