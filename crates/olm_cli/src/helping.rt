// The command `--help`.
ghost use Rattle.std.specs.Prelude.{◌≡◌, ◌≢◌, Some};
ghost use Rattle.olm_io.specs.Outside.{HasCause};
ghost use Rattle.olm_cli.specs.declared.causes.Cause.{Cause};
ghost use Rattle.olm_cli.specs.Commands as spec;
ghost use Rattle.olm_cli.specs.Runs.{Comes};

use crate::causes::Cause;
use crate::printing::print;
use olm_base::Memory;
use olm_io::Sink;
use std::alloc::Global;
use word_texts::help_text;

/// Prints how the program is used.
pub fn print_help<O: Sink>(alloc: Global, out: &mut O) -> Option<Cause>
    ensures run { Comes spec.HelpRuns result (O.held out.old) (O.held out.new) }
    ensures words { result ≢ Some Cause.BadWords }
    ensures folder { result ≢ Some Cause.FolderFailed }
    ensures input { result ≢ Some Cause.InputFailed }
    ensures disk { result ≢ Some Cause.DiskFailed }
    ensures output { HasCause (O.faults out.old) (O.faults out.new) (result ≡ Some Cause.OutputFailed) }
{
    match help_text(alloc) {
        Ok(text) => print(text.as_slice(), None, out),
        Err(Memory) => Some(Cause::NoMemory),
    }
}
