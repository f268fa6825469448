// The forms of the words, as `clap` has them.
use clap::builder::ValueParser;
use clap::{Arg, ArgAction, Command, value_parser};
use std::alloc::{AllocError, Global};

/// The greatest budget.
const GREATEST_BUDGET: i64 = 16_777_216;

/// What stands at the end of the help.
const FORMS: &str = "The words of the commands:
  check PATH
  graph PATH PACKAGE CHANNEL
  resolve [--budget=N] PATH PACKAGE CHANNEL
  verify PATH PACKAGE CHANNEL
  run
  show NAMESPACE
  decide [--budget=N] NAMESPACE

PATH is a folder, or @ for the input; verify reads its certificate there, and @ is a folder's name to it.
run reads its events from the input. It, show and decide open the cluster file, cluster.olm in this directory.
N is how many lemmas the search may keep, from 1 to 16777216, and 10000 where it isn't given.";

/// A word that must be there.
fn word<'a>(alloc: Global, name: &'a str, help: &'a str) -> Arg<'a> {
    Arg::new(alloc, name)
        .required(true)
        .value_parser(ValueParser::NonEmptyString)
        .help(help)
}

fn help_option<'a>(alloc: Global) -> Arg<'a> {
    Arg::new(alloc, "help")
        .long("help")
        .action(ArgAction::Help)
        .help("Print this help")
}

fn budget_option<'a>(alloc: Global) -> Arg<'a> {
    Arg::new(alloc, "budget")
        .long("budget")
        .value_name("N")
        .require_equals(true)
        .value_parser(value_parser!(u32).range(1..=GREATEST_BUDGET))
        .default_value("10000")
        .help("How many lemmas the search may keep")
}

fn catalog_word<'a>(alloc: Global) -> Arg<'a> {
    word(
        alloc,
        "PATH",
        "The folder of the catalog, or @ for the input",
    )
}

/// One of the program's commands. Its help is shown where it is asked for behind the command, and isn't listed, since
/// such words are of no form.
fn named<'a>(alloc: Global, name: &'a str, about: &'a str) -> Result<Command<'a>, AllocError> {
    Command::new(alloc, name)
        .about(about)
        .disable_help_flag(true)
        .arg(help_option(alloc).hide(true))
}

/// The same with the channel that it is asked about.
fn with_channel<'a>(alloc: Global, command: Command<'a>) -> Result<Command<'a>, AllocError> {
    command
        .arg(word(alloc, "PACKAGE", "The package of the channel"))?
        .arg(word(alloc, "CHANNEL", "The channel"))
}

fn check_form<'a>(alloc: Global) -> Result<Command<'a>, AllocError> {
    named(
        alloc,
        "check",
        "Count what a catalog holds, or list the rules that it breaks",
    )?
    .arg(catalog_word(alloc))
}

fn graph_form<'a>(alloc: Global) -> Result<Command<'a>, AllocError> {
    let command = named(
        alloc,
        "graph",
        "List the upgrades in a channel of a catalog",
    )?
    .arg(catalog_word(alloc))?;
    with_channel(alloc, command)
}

fn resolve_form<'a>(alloc: Global) -> Result<Command<'a>, AllocError> {
    let command = named(
        alloc,
        "resolve",
        "Decide what a subscription to a channel installs",
    )?
    .arg(budget_option(alloc))?
    .arg(catalog_word(alloc))?;
    with_channel(alloc, command)
}

fn verify_form<'a>(alloc: Global) -> Result<Command<'a>, AllocError> {
    let command = named(
        alloc,
        "verify",
        "Check a certificate of resolve, which is read from the input",
    )?
    .arg(word(alloc, "PATH", "The folder of the catalog"))?;
    with_channel(alloc, command)
}

fn namespace_word<'a>(alloc: Global) -> Arg<'a> {
    word(alloc, "NAMESPACE", "The namespace")
}

fn run_form<'a>(alloc: Global) -> Result<Command<'a>, AllocError> {
    named(
        alloc,
        "run",
        "Apply events, which are read from the input, to the cluster file",
    )
}

fn show_form<'a>(alloc: Global) -> Result<Command<'a>, AllocError> {
    named(
        alloc,
        "show",
        "List the objects of a namespace in the cluster file",
    )?
    .arg(namespace_word(alloc))
}

fn decide_form<'a>(alloc: Global) -> Result<Command<'a>, AllocError> {
    named(
        alloc,
        "decide",
        "Decide what the subscriptions of a namespace install",
    )?
    .arg(budget_option(alloc))?
    .arg(namespace_word(alloc))
}

/// The whole program.
pub fn program<'a>(alloc: Global) -> Result<Command<'a>, AllocError> {
    Command::new(alloc, "olmctl")
        .about("Choose versions of operators from catalogs, with certificates")
        .after_help(FORMS)
        .disable_help_flag(true)
        .disable_help_subcommand(true)
        .subcommand_required(true)
        .arg(help_option(alloc))?
        .subcommand(check_form(alloc)?)?
        .subcommand(graph_form(alloc)?)?
        .subcommand(resolve_form(alloc)?)?
        .subcommand(verify_form(alloc)?)?
        .subcommand(run_form(alloc)?)?
        .subcommand(show_form(alloc)?)?
        .subcommand(decide_form(alloc)?)
}
