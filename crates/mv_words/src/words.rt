//! The command line in the words of its parser.

ghost use Rattle.std.specs.Prelude.{◌≡◌, IfOk, false};
ghost use Rattle.clap.specs.Words.{Rule, app_of, new_app, rule_of, shape_of, with_rule, with_subcommand};
ghost use Rattle.clap.specs.declared.builder.command.Command.TheViews.{out-Command as fields_of};
ghost use Rattle.mv_words.specs.Words.{code_rule, command_line, flag_rule, mvhub, turns_rule};

use crate::texts::{
    CANON, CHECK, CODES, EXPLAIN, Help, PROGRAM, SHOW, STEPS, STRICT, TRAIL, TURNS, VERSION, WORK,
};
use clap::builder::ValueParser;
use clap::{Arg, ArgAction, Command};
use std::alloc::{AllocError, Global};

/// The command line that the program takes.
pub fn command_line<'a>(alloc: Global) -> Result<Command<'a>, AllocError>
    ensures { IfOk result (λ line. app_of line ≡ command_line) }
{
    let line = program(alloc);
    let line = with_taking(alloc, line, "steps", STEPS, flag(alloc, "strict", STRICT))?;
    let line = line.subcommand(told(alloc, "trail", TRAIL))?;
    let line = line.subcommand(told(alloc, "show", SHOW))?;
    let line = with_taking(alloc, line, "canon", CANON, flag(alloc, "check", CHECK))?;
    let line = with_taking(alloc, line, "work", WORK, turns(alloc))?;
    with_taking(alloc, line, "explain", EXPLAIN, codes(alloc))
}

/// The command line with one command more, which has this name and takes an argument.
fn with_taking<'a>(
    alloc: Global,
    line: Command<'a>,
    name: &'a str,
    help: Help,
    arg: Arg<'a>,
) -> Result<Command<'a>, AllocError>
    requires { arg.global ≡ false }
    ensures { (rule : Rule) → rule_of arg.entry ≡ rule
        → IfOk result (λ new. app_of new ≡ with_subcommand (app_of line.entry) (with_rule (new_app name.entry.now) rule).top) }
{
    line.subcommand(told(alloc, name, help).arg(arg)?)
}

/// The program, with no subcommand yet.
fn program<'a>(alloc: Global) -> Command<'a>
    ensures { app_of result ≡ mvhub }
{
    told(alloc, "mvhub", PROGRAM)
        .version(VERSION)
        .arg_required_else_help(true)
        .subcommand_required(true)
}

/// A command of this name, with its help.
fn told<'a>(alloc: Global, name: &'a str, help: Help) -> Command<'a>
    ensures app { app_of result ≡ new_app name.entry.now }
    ensures shape { shape_of result ≡ (new_app name.entry.now).top }
    ensures local { (fields_of result).has_globals ≡ false }
{
    Command::new(alloc, name)
        .about(help.about)
        .after_help(help.below)
}

/// An option that is given or not, with no value.
fn flag<'a>(alloc: Global, name: &'a str, help: &'a str) -> Arg<'a>
    ensures rule { rule_of result ≡ flag_rule name.entry.now }
    ensures local { result.global ≡ false }
{
    Arg::new(alloc, name)
        .long(name)
        .help(help)
        .action(ArgAction::SetTrue)
}

/// The option of `work`: how many turns, a number of 32 bits without a minus.
fn turns<'a>(alloc: Global) -> Arg<'a>
    ensures rule { rule_of result ≡ turns_rule }
    ensures local { result.global ≡ false }
{
    Arg::new(alloc, "turns")
        .long("turns")
        .value_name("N")
        .help(TURNS)
        .value_parser(ValueParser::unsigned(0, u64::from(u32::MAX)))
        .required(true)
}

/// The words that `explain` takes: one or more.
fn codes<'a>(alloc: Global) -> Arg<'a>
    ensures rule { rule_of result ≡ code_rule }
    ensures local { result.global ≡ false }
{
    Arg::new(alloc, "code")
        .value_name("CODE")
        .help(CODES)
        .num_args(1..)
        .required(true)
}
