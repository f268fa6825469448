// The command `check`.
ghost use Rattle.std.specs.Prelude.{◌≡◌, ◌≤◌, length, true, Some};
ghost use Rattle.olm_io.specs.Outside.{HasCause};
ghost use Rattle.fbc_read.specs.Bodies.{input_limit};
ghost use Rattle.olm_cli.specs.declared.causes.Cause.{Cause};
ghost use Rattle.olm_cli.specs.Causes.{is_after_reading};
ghost use Rattle.olm_cli.specs.Checking as spec;
ghost use Rattle.olm_cli.specs.Runs.{Comes};

use crate::causes::Cause;
use crate::printing::print;
use crate::reading::catalog_of;
use catalog_lines::{counts_line, fault_lines};
use fbc_check::{CheckRefusal, check};
use fbc_types::Catalog;
use olm_base::Memory;
use olm_io::Sink;
use std::alloc::Global;

/// Checks a catalog, and prints what it holds or which rules it breaks.
fn check_catalog<O: Sink>(alloc: Global, catalog: Catalog, out: &mut O) -> Option<Cause>
    ensures run { Comes (λ ran. ran ≡ spec.checked_run catalog) result (O.held out.old) (O.held out.new) }
    ensures cause { HasCause (O.faults out.old) (O.faults out.new) (result ≡ Some Cause.OutputFailed) }
    ensures kind { is_after_reading result ≡ true }
{
    match check(alloc, catalog) {
        Ok(valid) => match counts_line(alloc, &valid) {
            Ok(line) => print(line.as_slice(), None, out),
            Err(Memory) => Some(Cause::NoMemory),
        },
        Err(CheckRefusal::Broken { catalog: _, faults }) => {
            match fault_lines(alloc, faults.as_slice()) {
                Ok(lines) => print(lines.as_slice(), Some(Cause::BrokenRules), out),
                Err(Memory) => Some(Cause::NoMemory),
            }
        }
        Err(CheckRefusal::Memory) => Some(Cause::NoMemory),
    }
}

/// Checks the catalog of a text.
pub fn check_text<O: Sink>(alloc: Global, text: &[u8], out: &mut O) -> Option<Cause>
    requires within { length text.now ≤ input_limit }
    ensures run { Comes (spec.CheckRuns text.now) result (O.held out.old) (O.held out.new) }
    ensures cause { HasCause (O.faults out.old) (O.faults out.new) (result ≡ Some Cause.OutputFailed) }
    ensures kind { is_after_reading result ≡ true }
{
    let mut catalog = Catalog::new(alloc);
    match catalog_of(alloc, text, &mut catalog) {
        Ok(_count) => check_catalog(alloc, catalog, out),
        Err(cause) => Some(cause),
    }
}
