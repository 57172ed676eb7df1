//! What the command line asks for.

ghost use Rattle.std.specs.Prelude.{◌≡◌, IfOk, IfErr, Some, false, map, option_and_then, option_map};
ghost use Rattle.mctp_packet.specs.Memories.{out_of_memory};
ghost use Rattle.clap.specs.Words.{app_of, first_of, found_of, kind_of, rows_of, rule_of, subcommand_rows_of, with_rule};
ghost use Rattle.mctpctl_command_line.specs.FaultNumbers.{number_of_choose_fault};
ghost use Rattle.mctpctl_command_line.specs.Choice.{ask_subcommand as the_ask_subcommand, asked, asking_command as the_asking_command, binding_in, binding_named, choice_in as the_choice, choice_of, command as the_command, command_words as the_command_words, device_command as the_device_command, flag as the_flag, has_globals, is_given, line_command as the_line_command, line_subcommand as the_line_subcommand, link_in, linked, paced_subcommand as the_paced_subcommand, program as the_program, question_in, questioned, serve_subcommand as the_serve_subcommand, serving_subcommand as the_serving_subcommand, served, service_in, show_subcommand as the_show_subcommand, stated_subcommand as the_stated_subcommand, update_options, update_options_in, update_subcommand as the_update_subcommand, updated_file as the_updated_file, walk_options_in, walk_options, task_named, text_command as the_text_command, text_subcommand as the_text_subcommand, text_task_in, timed_subcommand as the_timed_subcommand, value_option as the_value_option, values_given, watch_options_in, watch_options, walk_subcommand as the_walk_subcommand, walking_command as the_walking_command, watch_subcommand as the_watch_subcommand, watching_command as the_watching_command, assigning_command as the_assigning_command, bringing_subcommand as the_bringing_subcommand, explained_subcommand as the_explained_subcommand, ReportsKind, ReportsRefusal};

use crate::help::{
    AGENT, ANSWER, ASK, ASKED, ASSIGN, BINDING, BINDINGS, COMMAND, COMMANDS, COMPONENT, COUNT,
    DECODE, DEVICE, DRY_RUN, EVERY, EXPLAIN, FAULTS, FIRMWARE, HEX, IMAGE, IMAGE_VERSION, KEEP,
    LIFETIME, LINE, LOG, NO_BINDING, NO_STATE, OWN, PIECE_LIFETIME, READINGS, RECORDS, RUN, SERVE,
    SHOW, STATE, STATUSES, TIMEOUT, TRIES, UPDATE, VERBOSE, VERSION, WALK, WATCH, WINDOW,
};
use clap::error::ErrorKind;
use clap::{Arg, ArgAction, ArgMatches, Command};
use mctp_packet::Memory;
use mctpctl_input::Binding;
use std::alloc::{AllocError, Global};
use thiserror::Error;

/// What the program is asked to do.
#[derive(Clone, Copy)]
pub enum Choice<'a> {
    /// A task over a text, on standard input.
    Text(TextTask),
    /// A device on a serial line, which is standard input and output.
    Serve(ServeOptions<'a>),
    /// Commands to a device on a serial line.
    Ask(AskOptions<'a>),
    /// All that a device on a serial line has.
    Walk(WalkOptions<'a>),
    /// What the sensors and effecters of a device on a serial line say, again and again.
    Watch(WatchOptions<'a>),
    /// The endpoint ID of the device at the other end of a serial line: it is given that of these options.
    Assign(LineOptions<'a>),
    /// A firmware update for a device on a serial line.
    Update(UpdateOptions<'a>),
}

/// What is done with a text.
#[derive(Clone, Copy, Debug, PartialEq, Eq)]
pub enum Task {
    /// Answer a capture of packets as the described device.
    Answer,
    /// Run requesters and the described device over a schedule.
    Run,
    /// Show the packets and messages of a capture.
    Show,
}

/// A task over a text, and how it is done.
#[derive(Clone, Copy, Debug, PartialEq, Eq)]
pub struct TextTask {
    /// The task.
    pub task: Task,
    /// Whether a fault of the input is explained (`--explain`).
    pub explain: bool,
    /// Whether messages are decoded (`--decode`, of `show`).
    pub decode: bool,
    /// Which frames stand on the lines, if they are not bare packets (`--binding`, of `show`).
    pub binding: Option<Binding>,
}

/// A device that is served.
#[derive(Clone, Copy)]
pub struct ServeOptions<'a> {
    /// The file of its description (`--device`).
    pub device: &'a str,
    /// The file that a capture of the line is written to (`--log`).
    pub log: Option<&'a str>,
    /// Whether drops are named on standard error (`--verbose`).
    pub verbose: bool,
    /// The faults of the line (`--faults`), as they are spelled.
    pub faults: Option<&'a str>,
    /// Whether a refused description is explained, and warned of what is ignored in it (`--explain`).
    pub explain: bool,
    /// The file of the device's firmware, where it takes updates (`--firmware`).
    pub firmware: Option<&'a str>,
    /// The endpoint ID of its update agent (`--agent`), as it is spelled.
    pub agent: Option<&'a str>,
    /// How late a packet of a request for a piece of the image may still come (`--lifetime`), as it is spelled.
    pub lifetime: Option<&'a str>,
}

/// Who asks whom on which line, and when again: the numbers as they are spelled.
#[derive(Clone, Copy)]
pub struct LineOptions<'a> {
    /// The line, a terminal (`--line`); standard input and output where there is none.
    pub line: Option<&'a str>,
    /// The endpoint ID of the requester (`--own`).
    pub own: &'a str,
    /// That of the device (`--device`).
    pub device: &'a str,
    /// The keeping time (`--keep`).
    pub keep: Option<&'a str>,
    /// How long a try waits (`--timeout`).
    pub timeout: Option<&'a str>,
    /// How many tries there are (`--tries`).
    pub tries: Option<&'a str>,
    /// The lifetime (`--lifetime`).
    pub lifetime: Option<&'a str>,
    /// The window (`--window`).
    pub window: Option<&'a str>,
    /// The file that keeps when requests were opened (`--state`).
    pub state: Option<&'a str>,
    /// Whether no such file is kept (`--no-state`).
    pub no_state: bool,
}

/// What a device is asked.
#[derive(Clone, Copy)]
pub struct AskOptions<'a> {
    /// Who asks whom.
    pub link: LineOptions<'a>,
    /// Whether answers are printed in hex (`--hex`).
    pub hex: bool,
    /// The file of the commands (`--file`).
    pub file: Option<&'a str>,
    /// How many words at the end of the command line are the command.
    pub count: usize,
}

/// A device that is asked for all that it has.
#[derive(Clone, Copy)]
pub struct WalkOptions<'a> {
    /// Who asks whom.
    pub link: LineOptions<'a>,
    /// The file that its records are written to (`--records`).
    pub records: Option<&'a str>,
}

/// A device whose sensors and effecters are read again and again: the numbers as they are spelled.
#[derive(Clone, Copy)]
pub struct WatchOptions<'a> {
    /// Who asks whom.
    pub link: LineOptions<'a>,
    /// How long a period is (`--every`).
    pub every: Option<&'a str>,
    /// How many periods there are (`--count`).
    pub count: Option<&'a str>,
    /// The file that the readings are written to (`--log`).
    pub readings: Option<&'a str>,
}

/// A device that is brought a firmware update: the numbers as they are spelled.
#[derive(Clone, Copy)]
pub struct UpdateOptions<'a> {
    /// Who asks whom.
    pub link: LineOptions<'a>,
    /// The file of the package, or of the image.
    pub image: &'a str,
    /// The component that the image is for (`--component`).
    pub component: Option<&'a str>,
    /// The version of the image (`--image-version`).
    pub version: Option<&'a str>,
    /// Whether the device is only asked what it is, and nothing is transferred (`--dry-run`).
    pub dry_run: bool,
}

/// Why there is no task.
#[derive(Debug, Drop, Error)]
pub enum ChooseFault {
    /// Help or the version was asked for: this is its text, and the exit status is 0.
    #[error("{0}")]
    Help(String),
    /// The line was refused: this says why, and the exit status is 2.
    #[error("{0}")]
    Refused(String),
    /// No memory was left; the exit status is 3.
    #[error("out of memory")]
    Memory(Memory),
}

impl From<AllocError> for ChooseFault {
    ghost use Rattle.mctpctl_command_line.specs.declared.choice.ChooseFault.TheVariants as faults;

    ghost from_gives = { λ _ fault. fault ≡ faults.Memory out_of_memory };

    fn from(refused: AllocError) -> ChooseFault {
        ChooseFault::Memory(refused.into())
    }
}

impl ChooseFault {
    /// The fault's number in this program's list.
    pub fn number(&self) -> u8
        ensures { result ≡ number_of_choose_fault self.now }
    {
        match self {
            ChooseFault::Help(_) => 1,
            ChooseFault::Refused(_) => 2,
            ChooseFault::Memory(_) => 3,
        }
    }
}

/// What a command line asks for, the program's name first.
pub fn choose<'a>(alloc: Global, words: &'a [&'a str]) -> Result<Choice<'a>, ChooseFault>
    ensures ok { IfOk result (λ choice. choice_of (map (λ word. word.now) words.now) ≡ Some (asked choice)) }
    ensures err { IfErr result (ReportsRefusal (map (λ word. word.now) words.now)) }
{
    let command = command(alloc)?;
    match command.try_get_matches_from(words) {
        Ok(matches) => match choice_in(&matches) {
            Some(choice) => Ok(choice),
            None => Err(ChooseFault::Refused(String::from_str(alloc, NO_BINDING)?)),
        },
        Err(error) => Err(refusal(alloc, &error)),
    }
}

/// The command line's definition for `clap`.
fn command<'a>(alloc: Global) -> Result<Command<'a>, AllocError>
    ensures { IfOk result (λ command. app_of command ≡ the_command) }
{
    let update = update_subcommand(alloc)?
        .about("Brings a firmware update to a device on a serial line")
        .after_help(UPDATE);
    assigning_command(alloc)?.subcommand(update)
}

/// The program with the subcommands that simulate a device, with `ask`, `walk`, `watch` and `assign`.
fn assigning_command<'a>(alloc: Global) -> Result<Command<'a>, AllocError>
    ensures { IfOk result (λ command. app_of command ≡ the_assigning_command) }
{
    let assign = stated_subcommand(alloc, "assign")?
        .about("Gives the device at the other end of a serial line an endpoint ID")
        .after_help(ASSIGN);
    watching_command(alloc)?.subcommand(assign)
}

/// The program with the subcommands that simulate a device, with `ask`, `walk` and `watch`.
fn watching_command<'a>(alloc: Global) -> Result<Command<'a>, AllocError>
    ensures { IfOk result (λ command. app_of command ≡ the_watching_command) }
{
    let watch = watch_subcommand(alloc)?
        .about("Reads the sensors and effecters of a device on a serial line again and again")
        .after_help(WATCH);
    walking_command(alloc)?.subcommand(watch)
}

/// The program with the subcommands that simulate a device, with `ask` and with `walk`.
fn walking_command<'a>(alloc: Global) -> Result<Command<'a>, AllocError>
    ensures { IfOk result (λ command. app_of command ≡ the_walking_command) }
{
    let walk = walk_subcommand(alloc)?
        .about("Asks a device on a serial line for all that it has, and prints a table of it")
        .after_help(WALK);
    asking_command(alloc)?.subcommand(walk)
}

/// The program with the subcommands that simulate a device, and with `ask`.
fn asking_command<'a>(alloc: Global) -> Result<Command<'a>, AllocError>
    ensures { IfOk result (λ command. app_of command ≡ the_asking_command) }
{
    let ask = ask_subcommand(alloc)?
        .about("Asks a device on a serial line, and prints its answers")
        .after_help(ASK);
    line_command(alloc)?.subcommand(ask)
}

/// The program with the subcommands that simulate a device.
fn line_command<'a>(alloc: Global) -> Result<Command<'a>, AllocError>
    ensures { IfOk result (λ command. app_of command ≡ the_line_command) }
{
    let serve = serve_subcommand(alloc)?
        .about("Serves the described device on a serial line, standard input and output")
        .after_help(SERVE);
    text_command(alloc)?.subcommand(serve)
}

/// The program with the subcommands that take a text.
fn text_command<'a>(alloc: Global) -> Result<Command<'a>, AllocError>
    ensures { IfOk result (λ command. app_of command ≡ the_text_command) }
{
    let show = show_subcommand(alloc)?
        .about("Shows the packets of a capture and the messages that they complete")
        .after_help(SHOW);
    device_command(alloc)?.subcommand(show)
}

/// The program with the subcommands that simulate a device over a text.
fn device_command<'a>(alloc: Global) -> Result<Command<'a>, AllocError>
    ensures { IfOk result (λ command. app_of command ≡ the_device_command) }
{
    let answer = text_subcommand(alloc, "answer")?
        .about("Answers the packets of a capture as the described device does")
        .after_help(ANSWER);
    let run = text_subcommand(alloc, "run")?
        .about("Runs requesters and the described device over a schedule of what is delivered")
        .after_help(RUN);
    program(alloc).subcommand(answer)?.subcommand(run)
}

/// A subcommand of this name, with `--explain`.
fn text_subcommand<'a>(alloc: Global, name: &'static str) -> Result<Command<'a>, AllocError>
    ensures app { IfOk result (λ command. app_of command ≡ the_text_subcommand name.now) }
    ensures local { IfOk result (λ command. has_globals command ≡ false) }
{
    with_flag(alloc, Command::new(alloc, name), "explain", EXPLAIN)
}

/// The subcommand `show`, with its options.
fn show_subcommand<'a>(alloc: Global) -> Result<Command<'a>, AllocError>
    ensures app { IfOk result (λ command. app_of command ≡ the_show_subcommand) }
    ensures local { IfOk result (λ command. has_globals command ≡ false) }
{
    let command = text_subcommand(alloc, "show")?;
    let command = with_flag(alloc, command, "decode", DECODE)?;
    with_option(alloc, command, "binding", BINDINGS, BINDING)
}

/// The subcommand `serve`, with its options.
fn serve_subcommand<'a>(alloc: Global) -> Result<Command<'a>, AllocError>
    ensures app { IfOk result (λ command. app_of command ≡ the_serve_subcommand) }
    ensures local { IfOk result (λ command. has_globals command ≡ false) }
{
    let command = explained_subcommand(alloc)?;
    let command = with_option(alloc, command, "firmware", "FILE", FIRMWARE)?;
    let command = with_option(alloc, command, "agent", "EID", AGENT)?;
    with_option(alloc, command, "lifetime", "MS", PIECE_LIFETIME)
}

/// The subcommand `serve`, with the options of its device, its log and its faults, and `--explain`.
fn explained_subcommand<'a>(alloc: Global) -> Result<Command<'a>, AllocError>
    ensures app { IfOk result (λ command. app_of command ≡ the_explained_subcommand) }
    ensures local { IfOk result (λ command. has_globals command ≡ false) }
{
    let command = serving_subcommand(alloc)?;
    let command = with_option(alloc, command, "faults", "FAULTS", FAULTS)?;
    with_flag(alloc, command, "explain", EXPLAIN)
}

/// The subcommand `serve`, with the options of its device and its log.
fn serving_subcommand<'a>(alloc: Global) -> Result<Command<'a>, AllocError>
    ensures app { IfOk result (λ command. app_of command ≡ the_serving_subcommand) }
    ensures local { IfOk result (λ command. has_globals command ≡ false) }
{
    let device = value_option(alloc, "device", "FILE", DEVICE).required(true);
    let command = Command::new(alloc, "serve").arg(device)?;
    let command = with_option(alloc, command, "log", "FILE", LOG)?;
    with_flag(alloc, command, "verbose", VERBOSE)
}

/// The subcommand `ask`, with its options.
fn ask_subcommand<'a>(alloc: Global) -> Result<Command<'a>, AllocError>
    ensures app { IfOk result (λ command. app_of command ≡ the_ask_subcommand) }
    ensures local { IfOk result (λ command. has_globals command ≡ false) }
{
    let command = stated_subcommand(alloc, "ask")?;
    let command = with_flag(alloc, command, "hex", HEX)?;
    let command = with_option(alloc, command, "file", "FILE", COMMANDS)?;
    command.arg(command_words(alloc))
}

/// The subcommand `walk`, with its options.
fn walk_subcommand<'a>(alloc: Global) -> Result<Command<'a>, AllocError>
    ensures app { IfOk result (λ command. app_of command ≡ the_walk_subcommand) }
    ensures local { IfOk result (λ command. has_globals command ≡ false) }
{
    let command = stated_subcommand(alloc, "walk")?;
    with_option(alloc, command, "records", "FILE", RECORDS)
}

/// The subcommand `watch`, with its options.
fn watch_subcommand<'a>(alloc: Global) -> Result<Command<'a>, AllocError>
    ensures app { IfOk result (λ command. app_of command ≡ the_watch_subcommand) }
    ensures local { IfOk result (λ command. has_globals command ≡ false) }
{
    let command = stated_subcommand(alloc, "watch")?;
    let command = with_option(alloc, command, "every", "MS", EVERY)?;
    let command = with_option(alloc, command, "count", "N", COUNT)?;
    with_option(alloc, command, "log", "FILE", READINGS)
}

/// The subcommand `update`, with its options and its file.
fn update_subcommand<'a>(alloc: Global) -> Result<Command<'a>, AllocError>
    ensures app { IfOk result (λ command. app_of command ≡ the_update_subcommand) }
    ensures local { IfOk result (λ command. has_globals command ≡ false) }
{
    bringing_subcommand(alloc)?.arg(updated_file(alloc))
}

/// The subcommand `update`, with its options.
fn bringing_subcommand<'a>(alloc: Global) -> Result<Command<'a>, AllocError>
    ensures app { IfOk result (λ command. app_of command ≡ the_bringing_subcommand) }
    ensures local { IfOk result (λ command. has_globals command ≡ false) }
{
    let command = stated_subcommand(alloc, "update")?;
    let command = with_option(alloc, command, "component", "COMPONENT", COMPONENT)?;
    let command = with_option(alloc, command, "image-version", "TEXT", IMAGE_VERSION)?;
    with_flag(alloc, command, "dry-run", DRY_RUN)
}

/// The file of a package or an image: the one word that is no option.
fn updated_file<'a>(alloc: Global) -> Arg<'a>
    ensures rule { rule_of result ≡ the_updated_file }
    ensures local { result.global ≡ false }
{
    Arg::new(alloc, "image")
        .value_name("IMAGE")
        .action(ArgAction::Set)
        .required(true)
        .help(IMAGE)
}

/// A subcommand of this name, with the options of a line, of time, of the pace and of the state.
fn stated_subcommand<'a>(alloc: Global, name: &'static str) -> Result<Command<'a>, AllocError>
    ensures app { IfOk result (λ command. app_of command ≡ the_stated_subcommand name.now) }
    ensures local { IfOk result (λ command. has_globals command ≡ false) }
{
    let command = paced_subcommand(alloc, name)?;
    let command = with_option(alloc, command, "state", "FILE", STATE)?;
    with_flag(alloc, command, "no-state", NO_STATE)
}

/// A subcommand of this name, with the options of a line, of time and of the pace.
fn paced_subcommand<'a>(alloc: Global, name: &'static str) -> Result<Command<'a>, AllocError>
    ensures app { IfOk result (λ command. app_of command ≡ the_paced_subcommand name.now) }
    ensures local { IfOk result (λ command. has_globals command ≡ false) }
{
    let command = timed_subcommand(alloc, name)?;
    let command = with_option(alloc, command, "lifetime", "MS", LIFETIME)?;
    with_option(alloc, command, "window", "N", WINDOW)
}

/// A subcommand of this name, with the options of a line and of time.
fn timed_subcommand<'a>(alloc: Global, name: &'static str) -> Result<Command<'a>, AllocError>
    ensures app { IfOk result (λ command. app_of command ≡ the_timed_subcommand name.now) }
    ensures local { IfOk result (λ command. has_globals command ≡ false) }
{
    let command = line_subcommand(alloc, name)?;
    let command = with_option(alloc, command, "keep", "MS", KEEP)?;
    let command = with_option(alloc, command, "timeout", "MS", TIMEOUT)?;
    with_option(alloc, command, "tries", "N", TRIES)
}

/// A subcommand of this name, with the options of a line.
fn line_subcommand<'a>(alloc: Global, name: &'static str) -> Result<Command<'a>, AllocError>
    ensures app { IfOk result (λ command. app_of command ≡ the_line_subcommand name.now) }
    ensures local { IfOk result (λ command. has_globals command ≡ false) }
{
    let own = value_option(alloc, "own", "EID", OWN).required(true);
    let device = value_option(alloc, "device", "EID", ASKED).required(true);
    let command = with_option(alloc, Command::new(alloc, name), "line", "PATH", LINE)?;
    command.arg(own)?.arg(device)
}

/// The words of a command: all that are left.
fn command_words<'a>(alloc: Global) -> Arg<'a>
    ensures rule { rule_of result ≡ the_command_words }
    ensures local { result.global ≡ false }
{
    Arg::new(alloc, "command")
        .value_name("COMMAND")
        .action(ArgAction::Append)
        .num_args(1..)
        .trailing_var_arg(true)
        .help(COMMAND)
}

/// A command with one more flag, of this name, with what help says of it.
fn with_flag<'a>(
    alloc: Global,
    command: Command<'a>,
    name: &'static str,
    help: &'static str,
) -> Result<Command<'a>, AllocError>
    ensures app { IfOk result (λ more. app_of more ≡ with_rule (app_of command.entry) (the_flag name.now)) }
    ensures local { has_globals command.entry ≡ false → IfOk result (λ more. has_globals more ≡ false) }
{
    command.arg(flag(alloc, name, help))
}

/// A command with one more option, of this name and with a value, with what help calls the value and says of it.
fn with_option<'a>(
    alloc: Global,
    command: Command<'a>,
    name: &'static str,
    value: &'static str,
    help: &'static str,
) -> Result<Command<'a>, AllocError>
    ensures app { IfOk result (λ more. app_of more ≡ with_rule (app_of command.entry) (the_value_option name.now)) }
    ensures local { has_globals command.entry ≡ false → IfOk result (λ more. has_globals more ≡ false) }
{
    command.arg(value_option(alloc, name, value, help))
}

/// A flag of this name, with what help says of it.
fn flag<'a>(alloc: Global, name: &'static str, help: &'static str) -> Arg<'a>
    ensures rule { rule_of result ≡ the_flag name.now }
    ensures local { result.global ≡ false }
{
    Arg::new(alloc, name)
        .long(name)
        .action(ArgAction::SetTrue)
        .help(help)
}

/// An option of this name with a value, with what help calls the value and says of the option.
fn value_option<'a>(
    alloc: Global,
    name: &'static str,
    value: &'static str,
    help: &'static str,
) -> Arg<'a>
    ensures rule { rule_of result ≡ the_value_option name.now }
    ensures local { result.global ≡ false }
{
    flag(alloc, name, help)
        .value_name(value)
        .action(ArgAction::Set)
}

/// The program, which requires a subcommand and has a version.
fn program<'a>(alloc: Global) -> Command<'a>
    ensures { app_of result ≡ the_program }
{
    Command::new(alloc, "mctpctl")
        .about("PLDM over MCTP: captures, a simulated device, and a requester on a serial line")
        .version(VERSION)
        .after_help(STATUSES)
        .subcommand_required(true)
}

/// What the subcommand that `clap` found asks for.
#[tactic(auto, using(crate::proofs::FoundSubcommands::none_found, crate::proofs::FoundSubcommands::one_found))]
fn choice_in<'a>(matches: &ArgMatches<'a>) -> Option<Choice<'a>>
    ensures { option_map asked result ≡ option_and_then the_choice (subcommand_rows_of matches.now) }
{
    let (name, matches) = matches.subcommand()?;
    choice_for(name, matches)
}

/// What a subcommand of this name asks for, by its arguments.
fn choice_for<'a>(name: &str, matches: &ArgMatches<'a>) -> Option<Choice<'a>>
    ensures { option_map asked result ≡ the_choice (name.now, rows_of (found_of matches.now)) }
{
    match name {
        "serve" => Some(Choice::Serve(service_of(matches)?)),
        "ask" => Some(Choice::Ask(question_of(matches)?)),
        "walk" => Some(Choice::Walk(walk_options_of(matches)?)),
        "watch" => Some(Choice::Watch(watch_options_of(matches)?)),
        "assign" => Some(Choice::Assign(link_of(matches)?)),
        "update" => Some(Choice::Update(update_options_of(matches)?)),
        _ => Some(Choice::Text(text_task(name, matches)?)),
    }
}

/// What a subcommand of this name does with a text, by its flags.
fn text_task(name: &str, matches: &ArgMatches<'_>) -> Option<TextTask>
    ensures { result ≡ text_task_in (name.now, rows_of (found_of matches.now)) }
{
    let task = named(name)?;
    let binding = binding_in(matches)?;
    Some(TextTask {
        task,
        explain: is_given(matches, "explain"),
        decode: is_given(matches, "decode"),
        binding,
    })
}

/// The binding that was given, if one was; none at all where its name is no binding's.
fn binding_in(matches: &ArgMatches<'_>) -> Option<Option<Binding>>
    ensures { result ≡ binding_in (rows_of (found_of matches.now)) }
{
    match value(matches, "binding") {
        Some(name) => match binding_named(name) {
            Some(binding) => Some(Some(binding)),
            None => None,
        },
        None => Some(None),
    }
}

/// The binding of a name.
fn binding_named(name: &str) -> Option<Binding>
    ensures { result ≡ binding_named name.now }
{
    match name {
        "i2c" => Some(Binding::I2c),
        "i3c" => Some(Binding::I3c),
        "serial" => Some(Binding::Serial),
        _ => None,
    }
}

/// The device that is served, by the arguments of `serve`.
fn service_of<'a>(matches: &ArgMatches<'a>) -> Option<ServeOptions<'a>>
    ensures { option_map served result ≡ service_in (rows_of (found_of matches.now)) }
{
    let device = value(matches, "device")?;
    Some(ServeOptions {
        device,
        log: value(matches, "log"),
        verbose: is_given(matches, "verbose"),
        faults: value(matches, "faults"),
        explain: is_given(matches, "explain"),
        firmware: value(matches, "firmware"),
        agent: value(matches, "agent"),
        lifetime: value(matches, "lifetime"),
    })
}

/// What a device is asked, by the arguments of `ask`.
fn question_of<'a>(matches: &ArgMatches<'a>) -> Option<AskOptions<'a>>
    ensures { option_map questioned result ≡ question_in (rows_of (found_of matches.now)) }
{
    let link = link_of(matches)?;
    Some(AskOptions {
        link,
        hex: is_given(matches, "hex"),
        file: value(matches, "file"),
        count: count_of(matches, "command"),
    })
}

/// The device that is asked for all that it has, by the arguments of `walk`.
fn walk_options_of<'a>(matches: &ArgMatches<'a>) -> Option<WalkOptions<'a>>
    ensures { option_map walk_options result ≡ walk_options_in (rows_of (found_of matches.now)) }
{
    let link = link_of(matches)?;
    Some(WalkOptions {
        link,
        records: value(matches, "records"),
    })
}

/// The device that is read again and again, by the arguments of `watch`.
fn watch_options_of<'a>(matches: &ArgMatches<'a>) -> Option<WatchOptions<'a>>
    ensures { option_map watch_options result ≡ watch_options_in (rows_of (found_of matches.now)) }
{
    let link = link_of(matches)?;
    Some(WatchOptions {
        link,
        every: value(matches, "every"),
        count: value(matches, "count"),
        readings: value(matches, "log"),
    })
}

/// The device that is brought an update, by the arguments of `update`.
fn update_options_of<'a>(matches: &ArgMatches<'a>) -> Option<UpdateOptions<'a>>
    ensures { option_map update_options result ≡ update_options_in (rows_of (found_of matches.now)) }
{
    let link = link_of(matches)?;
    let image = value(matches, "image")?;
    Some(UpdateOptions {
        link,
        image,
        component: value(matches, "component"),
        version: value(matches, "image-version"),
        dry_run: is_given(matches, "dry-run"),
    })
}

/// Who asks whom, by the arguments of a subcommand that asks.
fn link_of<'a>(matches: &ArgMatches<'a>) -> Option<LineOptions<'a>>
    ensures { option_map linked result ≡ link_in (rows_of (found_of matches.now)) }
{
    let own = value(matches, "own")?;
    let device = value(matches, "device")?;
    Some(LineOptions {
        line: value(matches, "line"),
        own,
        device,
        keep: value(matches, "keep"),
        timeout: value(matches, "timeout"),
        tries: value(matches, "tries"),
        lifetime: value(matches, "lifetime"),
        window: value(matches, "window"),
        state: value(matches, "state"),
        no_state: is_given(matches, "no-state"),
    })
}

/// How many values of an argument were given.
#[tactic(auto, using(crate::proofs::GivenFlags::values_by_rows))]
fn count_of(matches: &ArgMatches<'_>, name: &str) -> usize
    ensures { result ≡ values_given name.now (rows_of (found_of matches.now)) }
{
    match matches.get_strs(name) {
        Some(values) => values.len(),
        None => 0,
    }
}

/// The value of an option, where it was given.
#[tactic(auto, using(crate::proofs::GivenFlags::value_by_rows))]
fn value<'a>(matches: &ArgMatches<'a>, name: &str) -> Option<&'a str>
    ensures { option_map (λ text. text.now) result ≡ first_of name.now (rows_of (found_of matches.now)) }
{
    matches.get_str(name)
}

/// Whether a flag was given: `clap` then has the text `true` for it.
#[tactic(auto, using(crate::proofs::GivenFlags::value_by_rows))]
fn is_given(matches: &ArgMatches<'_>, name: &str) -> bool
    ensures { result ≡ is_given name.now (rows_of (found_of matches.now)) }
{
    match matches.get_str(name) {
        Some(text) => text == "true",
        None => false,
    }
}

/// The task of a subcommand's name.
fn named(name: &str) -> Option<Task>
    ensures { result ≡ task_named name.now }
{
    match name {
        "answer" => Some(Task::Answer),
        "run" => Some(Task::Run),
        "show" => Some(Task::Show),
        _ => None,
    }
}

/// What `clap`'s error comes to.
fn refusal(alloc: Global, error: &clap::Error) -> ChooseFault
    ensures { ReportsKind (kind_of error.now) result }
{
    let kind = error.kind();
    if kind == ErrorKind::OutOfMemory {
        return AllocError.into(); // `clap` keeps nothing more of it
    }
    match error.to_string(alloc) {
        Ok(text) if kind == ErrorKind::DisplayHelp || kind == ErrorKind::DisplayVersion => {
            ChooseFault::Help(text)
        }
        Ok(text) => ChooseFault::Refused(text),
        Err(refused) => refused.into(),
    }
}
