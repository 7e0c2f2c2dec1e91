//! The program's arguments, read by `clap`.
ghost use Rattle.std.specs.Prelude.{◌≡◌, ◌≢◌, ◌≤◌, true, false, Err, map, codes, OnOk, IfOk, IfSome, IfNone};
ghost use Rattle.std.specs.String.{string_bytes};
ghost use Rattle.clap.specs.Words.{app_of, found_of, kind_of, one_text, rows_of, rule_of};
ghost use Rattle.nv_options.specs.Options.{program, generate_rule, hops_rule, faults, accepts, generate_among, generate_in, hops_among, hops_in, AskForText, AskOnlyForText};
ghost use Rattle.nv_options.specs.inner.Passed.{HasPassed};

use clap::error::ErrorKind;
use clap::{Arg, ArgAction, ArgMatches, Command, Error};
use std::alloc::{AllocError, Global};

// How many hops a traced packet may take where no argument says so.
const DEFAULT_HOPS: u8 = 16;

/// What the arguments ask for (not from OVN).
#[derive(Clone, Copy)]
pub struct Options {
    /// How many hops a traced packet may take, from 1 to 64: what `--hops` says, and 16 where it is not given.
    pub hops: u8,
    /// How many ports the generated network has, from 1 to 16000: what `--generate` says. Where it is not given, none is generated.
    pub generate: Option<u16>,
}

/// Why arguments are not accepted.
#[derive(Clone, Copy)]
pub enum ArgumentFault {
    /// They are not of the form, or ask for help or the version.
    Refused,
    /// Memory ran out.
    Memory,
}

impl From<AllocError> for ArgumentFault {
    ghost use Rattle.std.specs.Prelude.{◌≡◌};
    ghost use Rattle.nv_options.specs.declared.options.ArgumentFault.TheVariants.{Memory};

    ghost from_gives = { λ error fault. fault ≡ Memory };

    fn from(_error: AllocError) -> ArgumentFault {
        ArgumentFault::Memory
    }
}

/// Accepts the arguments, of which the first is the program's name, exactly where `clap` finds no fault in them. The
/// answer is what they ask for. The fault is `Refused` only for arguments in which `clap` finds one, and `Memory` where
/// memory runs out.
#[tactic(auto, unfolding(crate::specs::Options::hops_in, crate::specs::Options::generate_in))]
pub fn accept_arguments(alloc: Global, arguments: &[String]) -> Result<Options, ArgumentFault>
    ensures accepted { OnOk result (accepts (map string_bytes arguments.now) ≡ true) }
    ensures hops { IfOk result (λ options. options.hops ≡ hops_in (map string_bytes arguments.now)) }
    ensures generate { IfOk result (λ options. options.generate ≡ generate_in (map string_bytes arguments.now)) }
    ensures hops_within { IfOk result (λ options. (1 ≤ options.hops) × (options.hops ≤ 64)) }
    ensures ports_within { IfOk result (λ options. IfSome options.generate (λ ports. (1 ≤ ports) × (ports ≤ 16000))) }
    ensures refused { result ≡ Err ArgumentFault.Refused → accepts (map string_bytes arguments.now) ≡ false }
{
    let command = command(alloc)?;
    match command.try_get_matches_from(arguments) {
        Ok(matches) => Ok(Options {
            hops: hops_of(&matches),
            generate: generate_of(&matches),
        }),
        Err(error) => Err(fault_of(&error)),
    }
}

// The value of `--hops`, or the default.
fn hops_of(matches: &ArgMatches<'_>) -> u8
    requires { HasPassed 64 (one_text (found_of matches.now) (codes "hops")) }
    ensures value { result ≡ hops_among (rows_of (found_of matches.now)) }
    ensures within { (1 ≤ result) × (result ≤ 64) }
{
    matches.get_one::<u8>("hops").unwrap_or(DEFAULT_HOPS)
}

// The value of `--generate`, where there is one.
fn generate_of(matches: &ArgMatches<'_>) -> Option<u16>
    requires { HasPassed 16000 (one_text (found_of matches.now) (codes "generate")) }
    ensures value { result ≡ generate_among (rows_of (found_of matches.now)) }
    ensures within { IfSome result (λ ports. (1 ≤ ports) × (ports ≤ 16000)) }
{
    matches.get_one::<u16>("generate")
}

// The fault that an error of `clap` is.
fn fault_of(error: &Error) -> ArgumentFault
    ensures { (result ≡ ArgumentFault.Refused) → (kind_of error.now ≢ ErrorKind.OutOfMemory) }
{
    match error.kind() {
        ErrorKind::OutOfMemory => ArgumentFault::Memory,
        _ => ArgumentFault::Refused,
    }
}

/// The help or the version, where the arguments ask for one of them. The text is `clap`'s, and no clause speaks of it.
/// Where memory runs out the answer is `AllocError`.
pub fn requested_text(alloc: Global, arguments: &[String]) -> Result<Option<String>, AllocError>
    ensures asked { IfOk result (λ text. IfSome text (λ _. AskForText (faults (map string_bytes arguments.now)))) }
    ensures given { IfOk result (λ text. IfNone text (¬ AskOnlyForText (faults (map string_bytes arguments.now)))) }
{
    let command = command(alloc)?;
    match command.try_get_matches_from(arguments) {
        Ok(_) => Ok(None),
        Err(error) => match error.kind() {
            ErrorKind::DisplayHelp => Ok(Some(text_of(alloc, &error)?)),
            ErrorKind::DisplayVersion => Ok(Some(text_of(alloc, &error)?)),
            ErrorKind::OutOfMemory => Err(AllocError),
            _ => Ok(None),
        },
    }
}

fn text_of(alloc: Global, error: &Error) -> Result<String, AllocError> {
    format!(in alloc; "{error}")
}

// The command: `--hops N`, `--generate N`, and the flags `--help` and `--version`.
fn command<'a>(alloc: Global) -> Result<Command<'a>, AllocError>
    ensures { IfOk result (λ command. app_of command ≡ program) }
{
    let command = Command::new(alloc, "ovn_nd").version("0.1.0").about(
        "Answers a script of OVN commands: edits, listings of flows, traces and dumps",
    );
    command.arg(hops_option(alloc))?.arg(generate_option(alloc))
}

// `--hops N`.
fn hops_option<'a>(alloc: Global) -> Arg<'a>
    ensures rule { rule_of result ≡ hops_rule }
    ensures local { result.global ≡ false }
{
    Arg::new(alloc, "hops")
        .long("hops")
        .action(ArgAction::Set)
        .value_parser(clap::value_parser!(u8).range(1..=64))
        .value_name("N")
        .help("How many hops a traced packet may take, from 1 to 64 [default: 16]")
}

// `--generate N`.
fn generate_option<'a>(alloc: Global) -> Arg<'a>
    ensures rule { rule_of result ≡ generate_rule }
    ensures local { result.global ≡ false }
{
    Arg::new(alloc, "generate")
        .long("generate")
        .action(ArgAction::Set)
        .value_parser(clap::value_parser!(u16).range(1..=16000))
        .value_name("N")
        .help("Begins with a generated network of N ports, from 1 to 16000, and tells its size")
}
