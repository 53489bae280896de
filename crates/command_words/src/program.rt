//! The grammar of the command line, as given to the parser.
ghost use Rattle.std.specs.Prelude.{◌≡◌, false, IfOk};
ghost use Rattle.std.specs.Option.{option_map};
ghost use Rattle.clap.specs.Walk.{rule_of, texts};
ghost use Rattle.clap.specs.Simple.{app_of, shape_of, with_subcommand};
ghost use Rattle.clap.specs.declared.builder.command.Command.TheViews.{out-Command};
ghost use Rattle.command_definitions.specs.Commands.{option_names};
ghost use Rattle.command_words.specs.Apps.{bare_program, command_among, command_before, listed_command, option_argument, program_with, subcommand_with, takes_of};

use clap::{Arg, ArgAction, Command};
use command_definitions::Request;
use cone_definitions::Order;
use std::alloc::{AllocError, Global};
use surface_definitions::Coords;
use text_io::LIMIT;

// Each command with its request if no option is given. If its options are required, any request of it.
static COMMANDS: [(&str, Request); 21] = [
    ("verify", Request::Verify(Coords::Standard)),
    ("info", Request::Info),
    (
        "surfaces",
        Request::Surfaces(Coords::Standard, Order::Given, LIMIT),
    ),
    ("rays", Request::Rays(Order::Given, LIMIT)),
    ("describe", Request::Describe(Coords::Standard)),
    ("lift", Request::Lift),
    ("crush", Request::Crush),
    ("play", Request::Play),
    ("sig", Request::Sig),
    ("same", Request::Same),
    ("group", Request::Group),
    ("check", Request::Check),
    ("descend", Request::Descend),
    ("make", Request::Make(0, 0)),
    ("bulk", Request::Bulk(0, 0)),
    ("decompose", Request::Decompose(Coords::Standard, LIMIT)),
    ("addup", Request::Addup(Coords::Standard)),
    ("cover", Request::Cover),
    ("pi1", Request::Pi1),
    ("csig", Request::Csig),
    ("csame", Request::Csame),
];

/// the option names of the commands
const NONE: &[&str] = &[];

const COORDS: &[&str] = &["coords"];

const COORDS_ORDER_LIMIT: &[&str] = &["coords", "order", "max-entry"];

const ORDER_LIMIT: &[&str] = &["order", "max-entry"];

const COORDS_LIMIT: &[&str] = &["coords", "max-entry"];

const SEED_MOVES: &[&str] = &["seed", "moves"];

/// The names of the options of `command`.
fn option_names(command: Request) -> &'static [&'static str]
    ensures { texts result.now ≡ option_names (takes_of command) }
{
    match command {
        Request::Verify(_) | Request::Describe(_) | Request::Addup(_) => COORDS,
        Request::Surfaces(_, _, _) => COORDS_ORDER_LIMIT,
        Request::Rays(_, _) => ORDER_LIMIT,
        Request::Make(_, _) | Request::Bulk(_, _) => SEED_MOVES,
        Request::Decompose(_, _) => COORDS_LIMIT,
        _ => NONE,
    }
}

/// The argument of option `name`.
fn option_argument<'a>(alloc: Global, name: &'a str) -> Arg<'a>
    ensures rule { rule_of result ≡ option_argument name.now }
    ensures local { result.global ≡ false }
{
    Arg::new(alloc, name).long(name).action(ArgAction::Set)
}

/// The command `name` with its options.
fn command<'a>(
    alloc: Global,
    name: &'static str,
    options: &'static [&'static str],
) -> Result<Command<'a>, AllocError>
    ensures shape { IfOk result (λ c. shape_of c ≡ subcommand_with name.entry.now (texts options.entry.now)) }
    ensures local { IfOk result (λ c. (out-Command c).has_globals ≡ false) }
{
    let mut command = Command::new(alloc, name);
    for option in options {
        command = command.arg(option_argument(alloc, option))?;
    }
    Ok(command)
}

/// Adds the command `name` with its options to `program`.
fn add<'a>(
    alloc: Global,
    program: Command<'a>,
    name: &'static str,
    options: &'static [&'static str],
) -> Result<Command<'a>, AllocError>
    ensures { IfOk result (λ c. app_of c
        ≡ with_subcommand (app_of program.entry) (subcommand_with name.entry.now (texts options.entry.now))) }
{
    program.subcommand(command(alloc, name, options)?)
}

/// The program's name and settings: no help, no version, and words without the program's name.
fn bare_program<'a>(alloc: Global) -> Command<'a>
    ensures { app_of result ≡ bare_program }
{
    Command::new(alloc, "trinorm")
        .no_binary_name(true)
        .disable_help_flag(true)
        .disable_help_subcommand(true)
        .disable_version_flag(true)
}

/// The command `name` among `rows`.
fn command_among(name: &str, rows: &[(&'static str, Request)]) -> Option<(&'static str, Request)>
    ensures { option_map listed_command result ≡ command_among name.now rows.now }
{
    for (word, command) in rows {
        if *word == name {
            return Some((*word, *command));
        }
    }
    None
}

/// The command that `words` begin with, by its name and a request of it, or `None` if the first word is no command.
pub fn command_before(words: &[&str]) -> Option<(&'static str, Request)>
    ensures { option_map listed_command result ≡ command_before (texts words.now) }
{
    let name = words.first()?;
    command_among(name, &COMMANDS)
}

/// The grammar of the program with the one command `name`.
pub fn program_with<'a>(
    alloc: Global,
    name: &'static str,
    command: Request,
) -> Result<Command<'a>, AllocError>
    ensures { IfOk result (λ c. app_of c ≡ program_with (name.entry.now, takes_of command)) }
{
    add(alloc, bare_program(alloc), name, option_names(command))
}
