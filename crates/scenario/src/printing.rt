//! Commands, printed as lines.
ghost use Rattle.std.specs.Prelude.{◌≡◌, ◌++◌, ◌∷◌, [], ◌<◌, decimal, IfOk, IsTrue, OnOk};
ghost use Rattle.std.specs.List.{flat_map};
ghost use Rattle.hex.specs.Hex.{encode_lower};
ghost use Rattle.scenario.specs.declared.command.Command.TheVariants as command;
ghost use Rattle.scenario.specs.Keywords.{text_of};
ghost use Rattle.scenario.specs.Spelling.{side_text, dir_text};
ghost use Rattle.scenario.specs.Printing.{hex_digit as lower_digit, source_text, mode_words, spaced, command_text, is_question, asks_or_happens};

use crate::command::Command;
use crate::keyword::Keyword;
use itoa::Buffer;
use spb_types::{Dir, Mac, Mode, Name, NoMemory, Side, SourceId};
use std::alloc::Global;
use std::marker::Model;

/// A text that grows word by word: each call that changes it writes behind what stands there. Contracts see its bytes.
#[derive(Drop)]
struct Text {
    bytes: Vec<u8>,
}

impl Model for Text {
    ghost use Rattle.std.specs.Prelude.{ℕ, List};

    ghost Value = { List ℕ };

    ghost view = { λ t. t.bytes.items };
}

/// The hexadecimal digits, in lower case.
static HEX_DIGITS: [u8; 16] = *b"0123456789abcdef";

/// The hexadecimal digit of this value.
fn hex_digit(value: u32) -> u8
    requires { value < 16 }
    ensures { result ≡ lower_digit value }
{
    HEX_DIGITS[value as usize]
}

impl Text {
    /// The empty text, which takes no memory.
    fn new(alloc: Global) -> Self
        ensures { result ≡ [] }
    {
        Text {
            bytes: Vec::new(alloc),
        }
    }

    /// The bytes of the text.
    fn into_bytes(self) -> Vec<u8>
        ensures { result.items ≡ self }
    {
        self.bytes
    }

    /// Bytes as they are.
    fn push(&mut self, bytes: &[u8]) -> Result<(), NoMemory>
        ensures { OnOk result (self.new ≡ self.old ++ bytes.now) }
    {
        self.bytes.extend_from_slice(bytes)?;
        Ok(())
    }

    /// A byte as it is.
    fn byte(&mut self, byte: u8) -> Result<(), NoMemory>
        ensures { OnOk result (self.new ≡ self.old ++ byte ∷ []) }
    {
        self.bytes.push(byte)?;
        Ok(())
    }

    /// A keyword, as the first word.
    fn keyword(&mut self, keyword: Keyword) -> Result<(), NoMemory>
        ensures { OnOk result (self.new ≡ self.old ++ text_of keyword) }
    {
        self.push(keyword.text())
    }

    /// A space and a word.
    fn word(&mut self, word: &[u8]) -> Result<(), NoMemory>
        ensures { OnOk result (self.new ≡ self.old ++ spaced word.now) }
    {
        self.byte(b' ')?;
        self.push(word)
    }

    /// A space and a name.
    fn name(&mut self, name: Name) -> Result<(), NoMemory>
        ensures { OnOk result (self.new ≡ self.old ++ spaced name) }
    {
        self.word(name.bytes())
    }

    /// A space and a number without leading zeros.
    fn number(&mut self, number: u64) -> Result<(), NoMemory>
        ensures { OnOk result (self.new ≡ self.old ++ spaced (decimal number)) }
    {
        let mut buffer = Buffer::new();
        self.word(buffer.format(number).as_bytes())
    }

    /// A space, and two hexadecimal digits for each byte.
    fn hex(&mut self, bytes: &[u8]) -> Result<(), NoMemory>
        ensures { OnOk result (self.new ≡ self.old ++ spaced (encode_lower bytes.now)) }
    {
        self.byte(b' ')?;
        for byte in bytes {
            self.hex_byte(*byte)?;
        }
        Ok(())
    }

    /// Two hexadecimal digits for a byte.
    #[tactic(auto, unfolding(hex::specs::Hex::encode_with))]
    fn hex_byte(&mut self, byte: u8) -> Result<(), NoMemory>
        ensures { OnOk result (self.new ≡ self.old ++ encode_lower (byte ∷ [])) }
    {
        self.byte(hex_digit(u32::from(byte / 16)))?;
        self.byte(hex_digit(u32::from(byte % 16)))
    }

    /// A space and a system id: two hexadecimal digits for each of its bytes.
    fn system(&mut self, system: Mac) -> Result<(), NoMemory>
        ensures { OnOk result (self.new ≡ self.old ++ spaced (encode_lower system.bytes)) }
    {
        self.hex(&system.bytes)
    }

    /// A space and the five hexadecimal digits of a source id.
    fn source(&mut self, source: SourceId) -> Result<(), NoMemory>
        ensures { OnOk result (self.new ≡ self.old ++ spaced (source_text source.value)) }
    {
        let value = source.value;
        self.word(&[
            hex_digit(value / 65_536 % 16),
            hex_digit(value / 4_096 % 16),
            hex_digit(value / 256 % 16),
            hex_digit(value / 16 % 16),
            hex_digit(value % 16),
        ])
    }

    /// A space and a direction.
    fn dir(&mut self, dir: Dir) -> Result<(), NoMemory>
        ensures { OnOk result (self.new ≡ self.old ++ spaced (dir_text dir)) }
    {
        match dir {
            Dir::Ab => self.word(b"ab"),
            Dir::Ba => self.word(b"ba"),
        }
    }

    /// A space and an end of a link.
    fn side(&mut self, side: Side) -> Result<(), NoMemory>
        ensures { OnOk result (self.new ≡ self.old ++ spaced (side_text side)) }
    {
        match side {
            Side::A => self.word(b"a"),
            Side::B => self.word(b"b"),
        }
    }
}

/// A space and a mode, or nothing where a port sends and receives.
fn put_mode(text: &mut Text, mode: Mode) -> Result<(), NoMemory>
    ensures { OnOk result (text.new ≡ text.old ++ flat_map spaced (mode_words mode)) }
{
    match mode {
        Mode::Both => Ok(()),
        Mode::Send => text.word(b"send"),
        Mode::Recv => text.word(b"recv"),
    }
}

/// A keyword and one name, as in `tick B`.
fn put_one_name(text: &mut Text, keyword: Keyword, name: Name) -> Result<(), NoMemory>
    ensures { OnOk result (text.new ≡ text.old ++ (text_of keyword ++ spaced name)) }
{
    text.keyword(keyword)?;
    text.name(name)
}

/// A keyword and one number, as in `round N`.
fn put_one_number(text: &mut Text, keyword: Keyword, number: u64) -> Result<(), NoMemory>
    ensures { OnOk result (text.new ≡ text.old ++ (text_of keyword ++ spaced (decimal number))) }
{
    text.keyword(keyword)?;
    text.number(number)
}

/// `vid V E`.
fn put_vid(text: &mut Text, vid: u64, ect: u64) -> Result<(), NoMemory>
    ensures { OnOk result (text.new ≡ text.old ++ command_text (command.Vid vid ect)) }
{
    text.keyword(Keyword::Vid)?;
    text.number(vid)?;
    text.number(ect)
}

/// `bridge N PRIO SYSID SRC PORTS`.
fn put_bridge(
    text: &mut Text,
    name: Name,
    priority: u64,
    system: Mac,
    source: SourceId,
    ports: u64,
) -> Result<(), NoMemory>
    ensures { OnOk result
        (text.new ≡ text.old ++ command_text (command.Bridge name priority system source ports)) }
{
    text.keyword(Keyword::Bridge)?;
    text.name(name)?;
    text.number(priority)?;
    text.system(system)?;
    text.source(source)?;
    text.number(ports)
}

/// `link L A PA B PB COST`: the name, end a, end b, each with its port, and the metric.
fn put_link(
    text: &mut Text,
    name: Name,
    a: (Name, u64),
    b: (Name, u64),
    cost: u64,
) -> Result<(), NoMemory>
    ensures { OnOk result
        (text.new ≡ text.old ++ command_text (command.Link name a.0 a.1 b.0 b.1 cost)) }
{
    text.keyword(Keyword::Link)?;
    text.name(name)?;
    text.name(a.0)?;
    text.number(a.1)?;
    text.name(b.0)?;
    text.number(b.1)?;
    text.number(cost)
}

/// `isid I V`.
fn put_isid(text: &mut Text, isid: u64, vid: u64) -> Result<(), NoMemory>
    ensures { OnOk result (text.new ≡ text.old ++ command_text (command.Isid isid vid)) }
{
    text.keyword(Keyword::Isid)?;
    text.number(isid)?;
    text.number(vid)
}

/// `attach B P I`, and the mode where it isn't `both`.
fn put_attach(
    text: &mut Text,
    bridge: Name,
    port: u64,
    isid: u64,
    mode: Mode,
) -> Result<(), NoMemory>
    ensures { OnOk result (text.new ≡ text.old ++ command_text (command.Attach bridge port isid mode)) }
{
    text.keyword(Keyword::Attach)?;
    text.name(bridge)?;
    text.number(port)?;
    text.number(isid)?;
    put_mode(text, mode)
}

/// `detach B P`.
fn put_detach(text: &mut Text, bridge: Name, port: u64) -> Result<(), NoMemory>
    ensures { OnOk result (text.new ≡ text.old ++ command_text (command.Detach bridge port)) }
{
    text.keyword(Keyword::Detach)?;
    text.name(bridge)?;
    text.number(port)
}

/// `metric L END M`.
fn put_metric(text: &mut Text, link: Name, side: Side, metric: u64) -> Result<(), NoMemory>
    ensures { OnOk result (text.new ≡ text.old ++ command_text (command.Metric link side metric)) }
{
    text.keyword(Keyword::Metric)?;
    text.name(link)?;
    text.side(side)?;
    text.number(metric)
}

/// `deliver L DIR`.
fn put_deliver(text: &mut Text, link: Name, dir: Dir) -> Result<(), NoMemory>
    ensures { OnOk result (text.new ≡ text.old ++ command_text (command.Deliver link dir)) }
{
    text.keyword(Keyword::Deliver)?;
    text.name(link)?;
    text.dir(dir)
}

/// `lose L DIR K`.
fn put_lose(text: &mut Text, link: Name, dir: Dir, place: u64) -> Result<(), NoMemory>
    ensures { OnOk result (text.new ≡ text.old ++ command_text (command.Lose link dir place)) }
{
    text.keyword(Keyword::Lose)?;
    text.name(link)?;
    text.dir(dir)?;
    text.number(place)
}

/// `double L DIR K`.
fn put_double(text: &mut Text, link: Name, dir: Dir, place: u64) -> Result<(), NoMemory>
    ensures { OnOk result (text.new ≡ text.old ++ command_text (command.Double link dir place)) }
{
    text.keyword(Keyword::Double)?;
    text.name(link)?;
    text.dir(dir)?;
    text.number(place)
}

/// `frame B P HEX`.
fn put_frame(text: &mut Text, bridge: Name, port: u64, frame: &[u8]) -> Result<(), NoMemory>
    ensures { OnOk result
        (text.new ≡ text.old ++ command_text (command.Frame bridge port frame.now)) }
{
    text.keyword(Keyword::Frame)?;
    text.name(bridge)?;
    text.number(port)?;
    text.hex(frame)
}

/// `path A B V`.
fn put_path(text: &mut Text, from: Name, to: Name, vid: u64) -> Result<(), NoMemory>
    ensures { OnOk result (text.new ≡ text.old ++ command_text (command.Path from to vid)) }
{
    text.keyword(Keyword::Path)?;
    text.name(from)?;
    text.name(to)?;
    text.number(vid)
}

/// The words of a command that asks something, and none of another.
fn put_question(text: &mut Text, command: &Command) -> Result<(), NoMemory>
    ensures { IsTrue (is_question command.now) → OnOk result (text.new ≡ text.old ++ command_text command.now) }
{
    match command {
        Command::State => text.keyword(Keyword::State),
        Command::Show(name) => put_one_name(text, Keyword::Show, *name),
        Command::Wiring(name) => put_one_name(text, Keyword::Wiring, *name),
        Command::Db(name) => put_one_name(text, Keyword::Db, *name),
        Command::Adj(name) => put_one_name(text, Keyword::Adj, *name),
        Command::Path { from, to, vid } => put_path(text, *from, *to, *vid),
        Command::Drops(name) => put_one_name(text, Keyword::Drops, *name),
        _ => Ok(()),
    }
}

/// The words of a command that asks something or lets something happen.
fn put_event(text: &mut Text, command: &Command) -> Result<(), NoMemory>
    ensures { IsTrue (asks_or_happens command.now) → OnOk result (text.new ≡ text.old ++ command_text command.now) }
{
    match command {
        Command::Restart(name) => put_one_name(text, Keyword::Restart, *name),
        Command::Tick(name) => put_one_name(text, Keyword::Tick, *name),
        Command::Deliver { link, dir } => put_deliver(text, *link, *dir),
        Command::Lose { link, dir, place } => put_lose(text, *link, *dir, *place),
        Command::Double { link, dir, place } => put_double(text, *link, *dir, *place),
        Command::Round(times) => put_one_number(text, Keyword::Round, *times),
        Command::Drain(most) => put_one_number(text, Keyword::Drain, *most),
        Command::Frame {
            bridge,
            port,
            frame,
        } => put_frame(text, *bridge, *port, frame.as_slice()),
        _ => put_question(text, command),
    }
}

/// The words of a command, by its form.
fn put_command(text: &mut Text, command: &Command) -> Result<(), NoMemory>
    ensures { OnOk result (text.new ≡ text.old ++ command_text command.now) }
{
    match command {
        Command::Vid { vid, ect } => put_vid(text, *vid, *ect),
        Command::Bridge {
            name,
            priority,
            system,
            source,
            ports,
        } => put_bridge(text, *name, *priority, *system, *source, *ports),
        Command::Link {
            name,
            a,
            port_a,
            b,
            port_b,
            cost,
        } => put_link(text, *name, (*a, *port_a), (*b, *port_b), *cost),
        Command::Isid { isid, vid } => put_isid(text, *isid, *vid),
        Command::Attach {
            bridge,
            port,
            isid,
            mode,
        } => put_attach(text, *bridge, *port, *isid, *mode),
        Command::Detach { bridge, port } => put_detach(text, *bridge, *port),
        Command::Metric { link, side, metric } => put_metric(text, *link, *side, *metric),
        Command::Down(name) => put_one_name(text, Keyword::Down, *name),
        Command::Up(name) => put_one_name(text, Keyword::Up, *name),
        _ => put_event(text, command),
    }
}

/// The line of a command, without its end: its keyword and its values, with a single space between two words, numbers
/// without leading zeros, and hexadecimal digits in lower case. `NoMemory` where no memory was found for it.
///
/// What is printed for a command that some line spells, `parse_line` reads as that command, if memory is found for a
/// frame.
pub fn print_command(alloc: Global, command: &Command) -> Result<Vec<u8>, NoMemory>
    ensures { IfOk result (λ text. text.items ≡ command_text command.now) }
{
    let mut text = Text::new(alloc);
    put_command(&mut text, command)?;
    Ok(text.into_bytes())
}
