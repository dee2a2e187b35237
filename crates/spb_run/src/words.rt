//! The program's words, and which form they are.
ghost use Rattle.std.specs.Prelude.{◌≡◌, map, string_bytes, IfSome};
ghost use Rattle.spb_run.specs.Words as spelled;

use spb_network::KindRule;

/// What the program's words ask for.
#[derive(Clone, Copy, Debug, PartialEq, Eq)]
pub enum Form {
    /// `run`, or `run --kind K`: the script that the source gives is played, where bridges take boxes by this rule.
    Run(KindRule),
    /// `make N`: the script for N bridges is written, 4 to 96.
    Make(u8),
    /// `try N`, or `try N --kind K`: the script for N bridges is played, 4 to 96, where bridges take boxes by this rule,
    /// and what its answers say is counted.
    Try(u8, KindRule),
    /// `list`: the capture that the source gives is listed.
    Listing,
    /// `capture`: the script that the source gives is played, where all bridges take plain boxes, and what is delivered
    /// is captured.
    Capture,
}

/// The number, if scripts are made for so many bridges.
fn if_made(bridges: u8) -> Option<u8>
    ensures { result ≡ spelled.if_made bridges }
{
    if bridges >= 4 && bridges <= 96 {
        Some(bridges)
    } else {
        None
    }
}

/// The number of bridges that a word says.
fn bridges_of(word: &[u8]) -> Option<u8>
    ensures { result ≡ spelled.bridges_of word.now }
{
    match word {
        [ones @ b'1'..=b'9'] => if_made(*ones - b'0'),
        [tens @ b'1'..=b'9', ones @ b'0'..=b'9'] => {
            if_made(10 * (*tens - b'0') + (*ones - b'0'))
        }
        _ => None,
    }
}

/// The rule by which bridges take boxes that a word names.
fn rule_named(word: &str) -> Option<KindRule>
    ensures { result ≡ spelled.rule_named word.now }
{
    match word {
        "plain" => Some(KindRule::Plain),
        "swift" => Some(KindRule::Swift),
        "mixed" => Some(KindRule::Mixed),
        _ => None,
    }
}

/// The rule that the last words of a form tell: `--kind` and a name, or no word where all bridges are plain.
fn rule_told(words: &[String]) -> Option<KindRule>
    ensures { result ≡ spelled.rule_told (map string_bytes words.now) }
{
    match words {
        [] => Some(KindRule::Plain),
        [option, name] if option.as_str() == "--kind" => rule_named(name.as_str()),
        _ => None,
    }
}

/// The form that the words behind `make` are.
fn make_form(words: &[String]) -> Option<Form>
    ensures form { result ≡ spelled.make_form (map string_bytes words.now) }
    ensures range { IfSome result spelled.IsForm }
{
    match words {
        [number] => bridges_of(number.as_bytes()).map(Form::Make),
        _ => None,
    }
}

/// The form that the words behind `try` are.
fn try_form(words: &[String]) -> Option<Form>
    ensures form { result ≡ spelled.try_form (map string_bytes words.now) }
    ensures range { IfSome result spelled.IsForm }
{
    match words {
        [number, others @ ..] => {
            let bridges = bridges_of(number.as_bytes())?;
            let rule = rule_told(others)?;
            Some(Form::Try(bridges, rule))
        }
        [] => None,
    }
}

/// The form that the words behind `list` are.
fn list_form(words: &[String]) -> Option<Form>
    ensures form { result ≡ spelled.list_form (map string_bytes words.now) }
    ensures range { IfSome result spelled.IsForm }
{
    match words {
        [] => Some(Form::Listing),
        _ => None,
    }
}

/// The form that the words behind `capture` are.
fn capture_form(words: &[String]) -> Option<Form>
    ensures form { result ≡ spelled.capture_form (map string_bytes words.now) }
    ensures range { IfSome result spelled.IsForm }
{
    match words {
        [] => Some(Form::Capture),
        _ => None,
    }
}

/// The form that the program's words are, its own name aside. None for all other words: no other spelling is accepted.
pub(crate) fn form_of(words: &[String]) -> Option<Form>
    ensures form { result ≡ spelled.form_of (map string_bytes words.now) }
    ensures range { IfSome result spelled.IsForm }
{
    match words {
        [first, others @ ..] if first.as_str() == "run" => rule_told(others).map(Form::Run),
        [first, others @ ..] if first.as_str() == "make" => make_form(others),
        [first, others @ ..] if first.as_str() == "try" => try_form(others),
        [first, others @ ..] if first.as_str() == "list" => list_form(others),
        [first, others @ ..] if first.as_str() == "capture" => capture_form(others),
        _ => None,
    }
}
