//! The definition of the command line for `clap`.
ghost use Rattle.std.specs.Prelude.{◌≡◌, false, codes, IfOk};
ghost use Rattle.clap.specs.{declared.builder.command.Command.TheViews.out-Command as fields_of, Simple.{app_of, shape_of, new_shape}, Walk.rule_of};
ghost use Rattle.command_line.specs.Words.{board_rule, flag_rule, json_rule, list_shape, check_shape, run_shape, firmware_shape, audit_shape, ready_shape, demo_and_list_app, with_check_app, with_run_app, with_firmware_app, with_audit_app, pciguest_app};

use clap::{Arg, ArgAction, Command};
use std::alloc::{AllocError, Global};

/// The version of the program, which is also the version in the library's header.
const VERSION: &str = "0.4.0-dev";

const STRICT: &str = "Exit with status 1 if a line is refused";

/// Returns the argument that names a board file.
fn board_arg<'a>(alloc: Global) -> Arg<'a>
    ensures rule { rule_of result ≡ board_rule }
    ensures local { result.global ≡ false }
{
    Arg::new(alloc, "board")
        .required(true)
        .value_name("BOARD")
        .help("The board file")
}

/// Returns the flag `--NAME` with its help text.
fn flag_arg<'a>(alloc: Global, name: &'a str, help: &'a str) -> Arg<'a>
    ensures rule { rule_of result ≡ flag_rule name.entry.now }
    ensures local { result.global ≡ false }
{
    Arg::new(alloc, name)
        .long(name)
        .action(ArgAction::SetTrue)
        .help(help)
}

/// Returns the flag `--json`, which asks for a report as JSON.
fn json_flag_arg<'a>(alloc: Global) -> Arg<'a>
    ensures rule { rule_of result ≡ json_rule }
    ensures local { result.global ≡ false }
{
    flag_arg(alloc, "json", "Write the report as JSON")
}

/// Returns the subcommand `demo`.
fn demo_subcommand<'a>(alloc: Global) -> Command<'a>
    ensures shape { shape_of result ≡ new_shape (codes "demo") }
    ensures local { (fields_of result).has_globals ≡ false }
{
    Command::new(alloc, "demo")
        .about("Run a script from standard input on a built-in board")
        .after_help("Examples:\n  echo 'a cr 0 0 4' | pciguest demo")
}

/// Returns the subcommand `list [--json] BOARD`.
fn list_subcommand<'a>(alloc: Global) -> Result<Command<'a>, AllocError>
    ensures shape { IfOk result (λ c. shape_of c ≡ list_shape) }
    ensures local { IfOk result (λ c. (fields_of c).has_globals ≡ false) }
{
    Command::new(alloc, "list")
        .about("Set up a board, and report where its functions, regions and windows are")
        .after_help("Examples:\n  pciguest list board.toml\n  pciguest list --json board.toml")
        .arg(json_flag_arg(alloc))?
        .arg(board_arg(alloc))
}

/// Returns the subcommand `run [--strict] BOARD`.
fn run_subcommand<'a>(alloc: Global) -> Result<Command<'a>, AllocError>
    ensures shape { IfOk result (λ c. shape_of c ≡ run_shape) }
    ensures local { IfOk result (λ c. (fields_of c).has_globals ≡ false) }
{
    Command::new(alloc, "run")
        .about("Set up a board, and run a script from standard input on it")
        .after_help("Examples:\n  pciguest run board.toml < guests.script")
        .arg(flag_arg(alloc, "strict", STRICT))?
        .arg(board_arg(alloc))
}

/// Returns the subcommand `check [--all] [--plain] BOARD`.
fn check_subcommand<'a>(alloc: Global) -> Result<Command<'a>, AllocError>
    ensures shape { IfOk result (λ c. shape_of c ≡ check_shape) }
    ensures local { IfOk result (λ c. (fields_of c).has_globals ≡ false) }
{
    Command::new(alloc, "check")
        .about("Check a board file, and report every problem in it")
        .after_help("Examples:\n  pciguest check board.toml\n  pciguest check --all board.toml")
        .arg(flag_arg(
            alloc,
            "all",
            "Also warn about apertures more than ten times larger than needed",
        ))?
        .arg(flag_arg(alloc, "plain", "Write only one line for each problem"))?
        .arg(board_arg(alloc))
}

/// Returns the subcommand `firmware [--strict] BOARD`.
fn firmware_subcommand<'a>(alloc: Global) -> Result<Command<'a>, AllocError>
    ensures shape { IfOk result (λ c. shape_of c ≡ firmware_shape) }
    ensures local { IfOk result (λ c. (fields_of c).has_globals ≡ false) }
{
    Command::new(alloc, "firmware")
        .about("Drive a board from reset with firmware commands read from standard input")
        .after_help("Examples:\n  echo 'host cr 00:00.0 0 4' | pciguest firmware board.toml")
        .arg(flag_arg(alloc, "strict", STRICT))?
        .arg(board_arg(alloc))
}

/// Returns the subcommand `audit [--json] [--strict] BOARD`.
fn audit_subcommand<'a>(alloc: Global) -> Result<Command<'a>, AllocError>
    ensures shape { IfOk result (λ c. shape_of c ≡ audit_shape) }
    ensures local { IfOk result (λ c. (fields_of c).has_globals ≡ false) }
{
    Command::new(alloc, "audit")
        .about("Like 'firmware', then report what is wrong in the registers")
        .after_help("Examples:\n  pciguest audit board.toml < set_up.script")
        .arg(json_flag_arg(alloc))?
        .arg(flag_arg(
            alloc,
            "strict",
            "Exit with status 1 if a line is refused or something is wrong",
        ))?
        .arg(board_arg(alloc))
}

/// Returns the subcommand `ready [--json] [--strict] BOARD`.
fn ready_subcommand<'a>(alloc: Global) -> Result<Command<'a>, AllocError>
    ensures shape { IfOk result (λ c. shape_of c ≡ ready_shape) }
    ensures local { IfOk result (λ c. (fields_of c).has_globals ≡ false) }
{
    Command::new(alloc, "ready")
        .about("Like 'audit', then report what is left to do")
        .after_help("Examples:\n  pciguest ready board.toml < set_up.script")
        .arg(json_flag_arg(alloc))?
        .arg(flag_arg(alloc, "strict", STRICT))?
        .arg(board_arg(alloc))
}

/// Returns the command line with only `demo` and `list`.
fn root_with_demo_and_list<'a>(alloc: Global) -> Result<Command<'a>, AllocError>
    ensures { IfOk result (λ c. app_of c ≡ demo_and_list_app) }
{
    let demo_subcommand = demo_subcommand(alloc);
    let list_subcommand = list_subcommand(alloc)?;
    Command::new(alloc, "pciguest")
        .about("Simulate a PCI board, the firmware that sets it up, and guests that use it")
        .after_help("Examples:\n  pciguest list board.toml\n  pciguest help run")
        .version(VERSION)
        .disable_help_subcommand(true)
        .subcommand_required(true)
        .subcommand(demo_subcommand)?
        .subcommand(list_subcommand)
}

/// Returns the command line with the subcommands up to `check`.
fn root_up_to_check<'a>(alloc: Global) -> Result<Command<'a>, AllocError>
    ensures { IfOk result (λ c. app_of c ≡ with_check_app) }
{
    let check_subcommand = check_subcommand(alloc)?;
    root_with_demo_and_list(alloc)?.subcommand(check_subcommand)
}

/// Returns the command line with the subcommands up to `run`.
fn root_up_to_run<'a>(alloc: Global) -> Result<Command<'a>, AllocError>
    ensures { IfOk result (λ c. app_of c ≡ with_run_app) }
{
    let run_subcommand = run_subcommand(alloc)?;
    root_up_to_check(alloc)?.subcommand(run_subcommand)
}

/// Returns the command line with the subcommands up to `firmware`.
fn root_up_to_firmware<'a>(alloc: Global) -> Result<Command<'a>, AllocError>
    ensures { IfOk result (λ c. app_of c ≡ with_firmware_app) }
{
    let firmware_subcommand = firmware_subcommand(alloc)?;
    root_up_to_run(alloc)?.subcommand(firmware_subcommand)
}

/// Returns the command line with the subcommands up to `audit`.
fn root_up_to_audit<'a>(alloc: Global) -> Result<Command<'a>, AllocError>
    ensures { IfOk result (λ c. app_of c ≡ with_audit_app) }
{
    let audit_subcommand = audit_subcommand(alloc)?;
    root_up_to_firmware(alloc)?.subcommand(audit_subcommand)
}

/// Returns the complete command line of the program.
pub(crate) fn root_command<'a>(alloc: Global) -> Result<Command<'a>, AllocError>
    ensures { IfOk result (λ c. app_of c ≡ pciguest_app) }
{
    let ready_subcommand = ready_subcommand(alloc)?;
    root_up_to_audit(alloc)?.subcommand(ready_subcommand)
}
