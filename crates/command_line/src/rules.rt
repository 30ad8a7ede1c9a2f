// What `clap` is told of the options.

ghost use Rattle.std.specs.Prelude.{◌≡◌, false, IfOk};
ghost use Rattle.clap.specs.Words.{app_of, rule_of};
ghost use Rattle.command_line.specs.ClapRules.{option_rule, options_app};

use clap::{Arg, ArgAction, Command};
use std::alloc::{AllocError, Global};

/// The command with its six options. Their values are texts to `clap`, which would take a number with
/// a zero or a plus in front.
pub(crate) fn command<'a>(alloc: Global) -> Result<Command<'a>, AllocError>
    ensures { IfOk result (λ command. app_of command ≡ options_app) }
{
    let summary = Arg::new(alloc, "summary")
        .long("summary")
        .action(ArgAction::SetTrue);
    Command::new(alloc, "cppgc_main")
        .no_binary_name(true)
        .disable_help_flag(true)
        .arg(option(alloc, "pages"))?
        .arg(option(alloc, "page-words"))?
        .arg(option(alloc, "markers"))?
        .arg(summary)?
        .arg(option(alloc, "generate"))?
        .arg(option(alloc, "count"))
}

// An option with a value.
fn option<'a>(alloc: Global, name: &'a str) -> Arg<'a>
    ensures rule { rule_of result ≡ option_rule name.now }
    ensures local { result.global ≡ false }
{
    Arg::new(alloc, name).long(name).action(ArgAction::Set)
}
