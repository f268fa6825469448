// What is told on `err` of a run.
ghost use Rattle.std.specs.Prelude.{◌≡◌, ◌≤◌, ◌⊎◌, List, ℕ, Some};
ghost use Rattle.olm_io.specs.Outside.{AppendsFront};
ghost use Rattle.olm_cli.specs.declared.causes.Cause.{Cause};
ghost use Rattle.olm_cli.specs.Lines as spec;

use crate::causes::Cause;
use crate::lines::{tell, tell_cause};
use olm_base::{Memory, Text};
use olm_io::Sink;
use std::alloc::Global;
use word_texts::fault_text;

/// Hands over what `clap` says of the words, where there is memory for it.
fn tell_fault<E: Sink>(alloc: Global, words: &[Text], err: &mut E)
    ensures text { (text : List ℕ) × AppendsFront (E.held err.old) (E.held err.new) text }
    ensures count { E.faults err.old ≤ E.faults err.new }
{
    match fault_text(alloc, words) {
        Ok(text) => {
            let _whole = tell(err, text.as_slice());
        }
        Err(Memory) => {}
    }
}

/// Tells that the words are of no form, and behind that, where it was put whole, what `clap` says of them.
fn tell_words<E: Sink>(alloc: Global, words: &[Text], err: &mut E)
    ensures line { spec.Tells (Some Cause.BadWords) (E.held err.old) (E.held err.new) }
    ensures count { E.faults err.old ≤ E.faults err.new }
{
    if tell(err, b"olmctl: words\n") {
        tell_fault(alloc, words, err);
    }
}

/// Tells for which cause the run of these words ends. Where there is no memory to make its line, the run ends for that.
pub fn tell_run<E: Sink>(alloc: Global, words: &[Text], cause: Cause, err: &mut E) -> Cause
    ensures line { spec.Tells (Some result) (E.held err.old) (E.held err.new) }
    ensures cause { (result ≡ cause) ⊎ (result ≡ Cause.NoMemory) }
    ensures words { cause ≡ Cause.BadWords → result ≡ Cause.BadWords }
    ensures silent { result ≡ Cause.BudgetSpent → err.new ≡ err.old }
    ensures count { E.faults err.old ≤ E.faults err.new }
{
    match cause {
        Cause::BadWords => {
            tell_words(alloc, words, err);
            Cause::BadWords
        }
        Cause::BudgetSpent => Cause::BudgetSpent,
        other => tell_cause(alloc, other, err),
    }
}
