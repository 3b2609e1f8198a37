//! The command of `clap` that takes the words.

ghost use Rattle.std.specs.Prelude.{◌≡◌, IfOk, false};
ghost use Rattle.clap.specs.Words.{app_of, rule_of};
ghost use Rattle.cli_words.specs.Rules.{bare_app, brief_rule, budget_rule, command_app, mode_rule, order_rule, seed_rule, step_rule};

use clap::{Arg, ArgAction, Command, value_parser};
use std::alloc::{AllocError, Global};

fn mode_arg<'a>(alloc: Global) -> Arg<'a>
    ensures rule { rule_of result ≡ mode_rule }
    ensures local { result.global ≡ false }
{
    Arg::new(alloc, "mode").required(true)
}

fn budget_arg<'a>(alloc: Global) -> Arg<'a>
    ensures rule { rule_of result ≡ budget_rule }
    ensures local { result.global ≡ false }
{
    Arg::new(alloc, "budget")
        .long("budget")
        .default_value("1000000000000000000")
        .value_parser(value_parser!(u64).range(..=1_000_000_000_000_000_000))
}

fn order_arg<'a>(alloc: Global) -> Arg<'a>
    ensures rule { rule_of result ≡ order_rule }
    ensures local { result.global ≡ false }
{
    Arg::new(alloc, "order").long("order").default_value("fifo")
}

fn brief_arg<'a>(alloc: Global) -> Arg<'a>
    ensures rule { rule_of result ≡ brief_rule }
    ensures local { result.global ≡ false }
{
    Arg::new(alloc, "brief")
        .long("brief")
        .action(ArgAction::SetTrue)
}

fn seed_arg<'a>(alloc: Global) -> Arg<'a>
    ensures rule { rule_of result ≡ seed_rule }
    ensures local { result.global ≡ false }
{
    Arg::new(alloc, "seed")
        .long("seed")
        .default_value("1")
        .value_parser(value_parser!(u64))
}

fn step_arg<'a>(alloc: Global) -> Arg<'a>
    ensures rule { rule_of result ≡ step_rule }
    ensures local { result.global ≡ false }
{
    Arg::new(alloc, "step")
        .long("step")
        .default_value("1000")
        .value_parser(value_parser!(u64))
}

fn bare_command<'a>(alloc: Global) -> Command<'a>
    ensures { app_of result ≡ bare_app }
{
    Command::new(alloc, "codac_cli")
        .no_binary_name(true)
        .disable_help_flag(true)
        .disable_version_flag(true)
}

/// The whole command.
#[tactic(auto, unfolding(crate::specs::Rules::command_app))]
pub fn command<'a>(alloc: Global) -> Result<Command<'a>, AllocError>
    ensures { IfOk result (λ c. app_of c ≡ command_app) }
{
    let with_mode = bare_command(alloc).arg(mode_arg(alloc))?;
    let with_budget = with_mode.arg(budget_arg(alloc))?;
    let with_order = with_budget.arg(order_arg(alloc))?;
    let with_brief = with_order.arg(brief_arg(alloc))?;
    let with_seed = with_brief.arg(seed_arg(alloc))?;
    let with_step = with_seed.arg(step_arg(alloc))?;
    Ok(with_step)
}
