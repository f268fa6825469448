// The command `graph`.
ghost use Rattle.std.specs.Prelude.{◌≡◌, ◌≤◌, length, true, IfErr, Some};
ghost use Rattle.olm_base.specs.Outcome.{Gives};
ghost use Rattle.olm_io.specs.Outside.{HasCause};
ghost use Rattle.fbc_read.specs.Bodies.{input_limit};
ghost use Rattle.olm_cli.specs.declared.causes.Cause.{Cause};
ghost use Rattle.olm_cli.specs.Causes.{is_after_reading, is_free, is_of_text};
ghost use Rattle.olm_cli.specs.Graph as spec;
ghost use Rattle.olm_cli.specs.Runs.{Comes};

use crate::causes::Cause;
use crate::printing::print;
use crate::reading::valid_of;
use crate::words::ChannelWords;
use catalog_lines::graph_lines;
use fbc_types::CheckedCatalog;
use olm_base::{Bytes, Memory};
use olm_io::Sink;
use std::alloc::Global;

/// The lines of the channel, where the catalog has it.
fn lines_of(
    alloc: Global,
    catalog: &CheckedCatalog,
    names: ChannelWords<'_>,
) -> Result<Bytes, Cause>
    ensures answer { Gives is_free (spec.lines_of names.entry.package_name.now names.entry.channel.now catalog.now) result }
    ensures kind { IfErr result (λ cause. is_of_text cause ≡ true) }
{
    match graph_lines(
        alloc,
        catalog,
        names.package_name.as_slice(),
        names.channel.as_slice(),
    ) {
        Ok(Some(lines)) => Ok(lines),
        Ok(None) => Err(Cause::NoChannel),
        Err(Memory) => Err(Cause::NoMemory),
    }
}

fn read_lines(alloc: Global, text: &[u8], names: ChannelWords<'_>) -> Result<Bytes, Cause>
    requires within { length text.now ≤ input_limit }
    ensures answer { Gives is_free (spec.graph_of names.entry.package_name.now names.entry.channel.now text.now) result }
    ensures kind { IfErr result (λ cause. is_of_text cause ≡ true) }
{
    match valid_of(alloc, text) {
        Ok(valid) => lines_of(alloc, &valid.catalog, names),
        Err(cause) => Err(cause),
    }
}

/// Prints the upgrades in a channel of a text's catalog.
pub fn graph_text<O: Sink>(
    alloc: Global,
    text: &[u8],
    names: ChannelWords<'_>,
    out: &mut O,
) -> Option<Cause>
    requires within { length text.now ≤ input_limit }
    ensures run { Comes (spec.GraphRuns names.entry.package_name.now names.entry.channel.now text.now) result (O.held out.old) (O.held out.new) }
    ensures cause { HasCause (O.faults out.old) (O.faults out.new) (result ≡ Some Cause.OutputFailed) }
    ensures kind { is_after_reading result ≡ true }
{
    match read_lines(alloc, text, names) {
        Ok(lines) => print(lines.as_slice(), None, out),
        Err(cause) => Some(cause),
    }
}
