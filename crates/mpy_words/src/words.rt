//! The order of words.

ghost use Rattle.std.specs.Prelude.{◌≡◌, ◌≤◌, ◌<◌, length, map, string_bytes, IfOk, IfSome};
ghost use Rattle.mpy_words.specs.Command as commands;
ghost use Rattle.mpy_words.specs.Given.{none_given, most_count, IsBounded, RunsWithin};
ghost use Rattle.mpy_words.specs.Words as spec;

use crate::given::Given;
use crate::order::{Command, Named, Order, Setting, WordFault};

fn command(word: &str) -> Option<Command>
    ensures { result ≡ commands.command_of word.now }
{
    match word {
        "go" => Some(Command::Go),
        "check" => Some(Command::Check),
        "dump" => Some(Command::Dump),
        "cross" => Some(Command::Cross),
        "merge" => Some(Command::Merge),
        "freeze" => Some(Command::Freeze),
        "migrate" => Some(Command::Migrate),
        "run" => Some(Command::Run),
        "resume" => Some(Command::Resume),
        "board" => Some(Command::Board),
        "stress" => Some(Command::Stress),
        _ => None,
    }
}

/// An option of a command that runs a library.
fn run_setting(word: &str) -> Option<Setting>
    ensures { result ≡ commands.run_setting_of word.now }
{
    match word {
        "--cells" => Some(Setting::Cells),
        "--bytes" => Some(Setting::Bytes),
        "--steps" => Some(Setting::Steps),
        _ => None,
    }
}

/// The option of a command over a base.
fn base_setting(word: &str) -> Option<Setting>
    ensures { result ≡ commands.base_setting_of word.now }
{
    match word {
        "--base" => Some(Setting::Base),
        _ => None,
    }
}

fn setting(command: Command, word: &str) -> Option<Setting>
    ensures { result ≡ commands.setting_of command word.now }
{
    match command {
        Command::Go if word == "-O" => Some(Setting::Level),
        Command::CheckAs | Command::Cross if word == "-O" => Some(Setting::Level),
        Command::Cross if word == "-s" => Some(Setting::StoredName),
        Command::Run if word == "-m" => Some(Setting::MainName),
        Command::Run if word == "--base" => Some(Setting::Base),
        Command::Run | Command::Resume if word == "--save" => Some(Setting::Save),
        Command::Resume if word == "--steps" => Some(Setting::Steps),
        Command::Go | Command::Run => run_setting(word),
        Command::Resume | Command::Freeze | Command::Board => base_setting(word),
        _ => None,
    }
}

/// The words that a command names.
fn names(command: Command) -> &'static [Named]
    ensures { result.now ≡ commands.names_of command }
{
    match command {
        Command::Go => &[Named::Source],
        Command::Check | Command::Dump | Command::Run => &[Named::File],
        Command::Resume => &[Named::File, Named::Snapshot],
        Command::CheckAs | Command::Cross => &[Named::Source, Named::File],
        Command::Merge => &[Named::Output],
        Command::Freeze => &[Named::Manifest, Named::Output],
        Command::Migrate => &[Named::Input, Named::Output],
        Command::Board => &[Named::Image, Named::Plan],
        Command::Stress => &[Named::Seed, Named::Count],
    }
}

fn begins_with_dash(word: &str) -> bool
    ensures { result ≡ spec.begins_with_dash word.now }
{
    match word.as_bytes() {
        [byte, ..] => *byte == b'-',
        [] => false,
    }
}

/// Does the command take files behind its named words, as many as there are?
fn takes_files(command: Command) -> bool
    ensures { result ≡ commands.takes_files command }
{
    match command {
        Command::Go | Command::Check | Command::CheckAs | Command::Dump | Command::Cross => false,
        Command::Merge => true,
        Command::Freeze | Command::Migrate | Command::Run | Command::Resume => false,
        Command::Board | Command::Stress => false,
    }
}

/// Does the option name a file, and the word none?
fn names_none(setting: Setting, value: &str) -> bool
    ensures { result ≡ spec.names_none setting value.now }
{
    match setting {
        Setting::Base | Setting::Save => begins_with_dash(value),
        Setting::Level | Setting::StoredName | Setting::MainName => false,
        Setting::Cells | Setting::Bytes | Setting::Steps => false,
    }
}

/// The words behind those that name the command's files.
#[tactic(auto, unfolding(crate::specs::Words::past_files))]
fn behind_files(command: Command, words: &[String]) -> &[String]
    ensures words { map string_bytes result.now ≡ spec.behind_files command (map string_bytes words.now) }
    ensures fewer { length result.now ≤ length words.now }
{
    let mut rest = words;
    if takes_files(command) {
        'more: while let Some((word, behind)) = rest.split_first() {
            if begins_with_dash(word.as_str()) {
                return rest;
            }
            rest = behind;
        }
    }
    rest
}

/// Reads options, the last of all the words, of which there are `count`, behind what was given already.
#[tactic(auto, unfolding(crate::specs::Words::settings))]
fn settings(
    count: usize,
    command: Command,
    named: Given,
    words: &[String],
) -> Result<Order, WordFault>
    requires within { length words.now ≤ count }
    requires bounded { IsBounded count named }
    ensures order { result ≡ spec.settings count command named (map string_bytes words.now) }
    ensures same { IfOk result (λ order. order.command ≡ command) }
    ensures count { IfOk result (λ order. order.count ≤ most_count) }
    ensures level { IfOk result (λ order. order.level ≤ 3) }
    ensures stored_name { IfOk result (λ order. IfSome order.stored_name (λ at. at < count)) }
    ensures main_name { IfOk result (λ order. IfSome order.main_name (λ at. at < count)) }
    ensures base { IfOk result (λ order. IfSome order.base (λ at. at < count)) }
    ensures save { IfOk result (λ order. IfSome order.save (λ at. at < count)) }
    ensures run { IfOk result RunsWithin }
{
    let mut given = named;
    let mut rest = words;
    'more: while let Some((word, behind)) = rest.split_first() {
        let Some(setting) = setting(command, word.as_str()) else {
            return Err(WordFault::Unknown(count - rest.len()));
        };
        if given.has(setting) {
            return Err(WordFault::Twice(setting));
        }
        let Some((value, more)) = behind.split_first() else {
            return Err(WordFault::MissingValue(setting));
        };
        if names_none(setting, value.as_str()) {
            return Err(WordFault::MissingValue(setting));
        }
        let at = count - behind.len();
        let Some(with) = given.with(setting, at, value.as_bytes()) else {
            return Err(WordFault::BadNumber(at));
        };
        given = with;
        rest = more;
    }
    Ok(given.order(command))
}

/// Reads the named words and the numbers among them, passes files, and reads options.
#[tactic(auto, unfolding(crate::specs::Words::named))]
fn named(count: usize, command: Command, words: &[String]) -> Result<Order, WordFault>
    requires { length words.now ≤ count }
    ensures order { result ≡ spec.named count command none_given (commands.names_of command) (map string_bytes words.now) }
    ensures named { IfOk result (λ order. length (commands.names_of order.command) ≤ length words.now) }
    ensures count { IfOk result (λ order. order.count ≤ most_count) }
    ensures level { IfOk result (λ order. order.level ≤ 3) }
    ensures stored_name { IfOk result (λ order. IfSome order.stored_name (λ at. at < count)) }
    ensures main_name { IfOk result (λ order. IfSome order.main_name (λ at. at < count)) }
    ensures base { IfOk result (λ order. IfSome order.base (λ at. at < count)) }
    ensures save { IfOk result (λ order. IfSome order.save (λ at. at < count)) }
    ensures run { IfOk result RunsWithin }
{
    let mut given = Given::none();
    let mut rest = words;
    for wanted in names(command) {
        let Some((word, behind)) = rest.split_first() else {
            return Err(WordFault::MissingName(*wanted));
        };
        if begins_with_dash(word.as_str()) {
            return match setting(command, word.as_str()) {
                Some(_) => Err(WordFault::MissingName(*wanted)),
                None => Err(WordFault::Unknown(count - rest.len())),
            };
        }
        let Some(with) = given.with_name(*wanted, word.as_bytes()) else {
            return Err(WordFault::BadNumber(count - rest.len()));
        };
        given = with;
        rest = behind;
    }
    settings(count, command, given, behind_files(command, rest))
}

/// The check that these words ask for: that of a source and a file where two words name files.
fn check_of(words: &[String]) -> Command
    ensures { result ≡ spec.check_of (map string_bytes words.now) }
{
    let Some((source, behind)) = words.split_first() else {
        return Command::Check;
    };
    let Some((file, _)) = behind.split_first() else {
        return Command::Check;
    };
    if begins_with_dash(source.as_str()) || begins_with_dash(file.as_str()) {
        Command::Check
    } else {
        Command::CheckAs
    }
}

/// The command of a first word with these behind it.
fn command_in(command: Command, words: &[String]) -> Command
    ensures { result ≡ spec.command_in command (map string_bytes words.now) }
{
    match command {
        Command::Check => check_of(words),
        _ => command,
    }
}

/// The order that words give, the program's own name left out.
pub fn order_of(words: &[String]) -> Result<Order, WordFault>
    ensures order { result ≡ spec.order_of (map string_bytes words.now) }

    // The named words are there.
    ensures named { IfOk result (λ order. length (commands.names_of order.command) < length words.now) }

    // A made source has 20,000 assignments at most.
    ensures count { IfOk result (λ order. order.count ≤ most_count) }

    // The level is one of the four.
    ensures level { IfOk result (λ order. order.level ≤ 3) }

    // The name to store is one of the words.
    ensures stored_name { IfOk result (λ order. IfSome order.stored_name (λ at. at < length words.now)) }

    // The name of the main module is one of the words.
    ensures main_name { IfOk result (λ order. IfSome order.main_name (λ at. at < length words.now)) }

    // So is the base's.
    ensures base { IfOk result (λ order. IfSome order.base (λ at. at < length words.now)) }

    // So is that of the file to save to.
    ensures save { IfOk result (λ order. IfSome order.save (λ at. at < length words.now)) }

    // The room and the steps are within their bounds.
    ensures run { IfOk result RunsWithin }
{
    let Some((first, behind)) = words.split_first() else {
        return Err(WordFault::NoCommand);
    };
    match command(first.as_str()) {
        Some(command) => named(words.len(), command_in(command, behind), behind),
        None => Err(WordFault::Unknown(0)),
    }
}
