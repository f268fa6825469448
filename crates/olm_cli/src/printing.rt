// Putting the output of a run.
ghost use Rattle.std.specs.Prelude.{◌≡◌, not, false, true, Some};
ghost use Rattle.olm_base.specs.Outcome.{Ends};
ghost use Rattle.olm_io.specs.Outside.{HasCause, Puts};
ghost use Rattle.olm_cli.specs.declared.causes.Cause.{Cause};
ghost use Rattle.olm_cli.specs.Causes.{is_after_reading, is_free_end};

use crate::causes::Cause;
use olm_io::{Outage, Sink};

/// Puts the whole output of a run, which then ends so.
pub fn print<O: Sink>(output: &[u8], end: Option<Cause>, out: &mut O) -> Option<Cause>
    requires bound { is_free_end end ≡ false }
    requires after { is_after_reading end ≡ true }
    ensures end { Ends is_free_end end result }
    ensures output { Puts (not (is_free_end result)) (O.held out.old) (O.held out.new) output.now }
    ensures cause { HasCause (O.faults out.old) (O.faults out.new) (result ≡ Some Cause.OutputFailed) }
    ensures kind { is_after_reading result ≡ true }
{
    match out.put(output) {
        Ok(()) => end,
        Err(Outage::Failed) => Some(Cause::OutputFailed),
        Err(Outage::Memory) => Some(Cause::NoMemory),
    }
}
