// The command `resolve`.
ghost use Rattle.std.specs.Prelude.{◌≡◌, ◌≤◌, length, true, false, Some};
ghost use Rattle.olm_io.specs.Outside.{HasCause};
ghost use Rattle.catalog_choice.specs.Deciding.{IsAnswered};
ghost use Rattle.fbc_read.specs.Bodies.{input_limit};
ghost use Rattle.olm_cli.specs.declared.causes.Cause.{Cause};
ghost use Rattle.olm_cli.specs.Causes.{is_after_reading, is_free_end};
ghost use Rattle.olm_cli.specs.Resolving as spec;
ghost use Rattle.olm_cli.specs.Runs.{Comes};

use crate::causes::Cause;
use crate::printing::print;
use crate::reading::valid_of;
use crate::words::ChannelWords;
use catalog_choice::{Answer, Decided};
use olm_base::Bytes;
use olm_io::Sink;
use problem_build::BuildFault;
use std::alloc::Global;

/// How a run with this decision ends.
pub fn ended(decided: Decided) -> Option<Cause>
    ensures end { result ≡ spec.ended decided }
    ensures bound { is_free_end result ≡ false }
    ensures kind { is_after_reading result ≡ true }
{
    match decided {
        Decided::Chosen => None,
        Decided::Refused => Some(Cause::NoChoice),
        Decided::Undecided => Some(Cause::BudgetSpent),
    }
}

/// The cause for which there is no problem to decide.
pub fn problem_cause(fault: BuildFault) -> Cause
    ensures cause { result ≡ spec.problem_cause fault }
    ensures kind { is_after_reading (Some result) ≡ true }
{
    match fault {
        BuildFault::TooManyVariables { count } => Cause::TooManyVariables { count },
        BuildFault::Memory => Cause::NoMemory,
    }
}

/// What is told of the problem that the catalog of a text is asked.
fn answer_of(
    alloc: Global,
    text: Bytes,
    budget: u32,
    names: ChannelWords<'_>,
) -> Result<Answer, BuildFault>
    ensures { IsAnswered text names.entry.package_name.now names.entry.channel.now budget result }
{
    catalog_choice::resolve_text(
        alloc,
        text,
        names.package_name.as_slice(),
        names.channel.as_slice(),
        budget,
    )
}

/// Decides what the catalog of a text is asked, and prints the answer.
fn print_answer<O: Sink>(
    alloc: Global,
    text: Bytes,
    budget: u32,
    names: ChannelWords<'_>,
    out: &mut O,
) -> Option<Cause>
    ensures run { Comes (spec.Answers budget names.entry.package_name.now names.entry.channel.now text) result (O.held out.old) (O.held out.new) }
    ensures cause { HasCause (O.faults out.old) (O.faults out.new) (result ≡ Some Cause.OutputFailed) }
    ensures kind { is_after_reading result ≡ true }
{
    match answer_of(alloc, text, budget, names) {
        Ok(answer) => print(answer.text.as_slice(), ended(answer.decided), out),
        Err(fault) => Some(problem_cause(fault)),
    }
}

/// Decides for a package and a channel over a text's catalog, and prints the decision with its certificate. A refusal
/// ends the run with its own status, and so does a budget that is spent before there is a decision.
pub fn resolve_text<O: Sink>(
    alloc: Global,
    text: Bytes,
    budget: u32,
    names: ChannelWords<'_>,
    out: &mut O,
) -> Option<Cause>
    requires within { length text ≤ input_limit }
    ensures run { Comes (spec.ResolveRuns budget names.entry.package_name.now names.entry.channel.now text) result (O.held out.old) (O.held out.new) }
    ensures cause { HasCause (O.faults out.old) (O.faults out.new) (result ≡ Some Cause.OutputFailed) }
    ensures kind { is_after_reading result ≡ true }
{
    match valid_of(alloc, text.as_slice()) {
        Ok(_valid) => print_answer(alloc, text, budget, names, out),
        Err(cause) => Some(cause),
    }
}
