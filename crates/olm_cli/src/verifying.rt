// The command `verify`.
ghost use Rattle.std.specs.Prelude.{◌≡◌, ◌≢◌, ◌≤◌, length, true, false, Some};
ghost use Rattle.std.specs.Io.KnownBytes.{IsAtEnd};
ghost use Rattle.olm_io.specs.Outside.{HasCause};
ghost use Rattle.catalog_choice.specs.Deciding.{IsVerified};
ghost use Rattle.fbc_read.specs.Bodies.{input_limit};
ghost use Rattle.olm_cli.specs.declared.causes.Cause.{Cause};
ghost use Rattle.olm_cli.specs.Causes.{is_after_reading, is_answered, is_free, is_free_end, is_of_reading, status_of};
ghost use Rattle.olm_cli.specs.Places.{InputHolds, is_of_folder};
ghost use Rattle.olm_cli.specs.Runs.{AfterHeld, Comes, stopped};
ghost use Rattle.olm_cli.specs.Verifying as spec;

use crate::causes::Cause;
use crate::places::{read_folder, read_input};
use crate::printing::print;
use crate::reading::valid_of;
use crate::resolving::problem_cause;
use crate::words::ChannelWords;
use answer_lines::Checked;
use olm_base::{Bytes, Text};
use olm_folder::Folder;
use olm_io::{Sink, Source};
use problem_build::BuildFault;
use std::alloc::Global;

/// How a run ends whose text is accepted, or isn't.
fn judged(accepted: bool) -> Option<Cause>
    ensures end { result ≡ spec.judged accepted }
    ensures bound { is_free_end result ≡ false }
    ensures kind { is_after_reading result ≡ true }
{
    if accepted {
        None
    } else {
        Some(Cause::NotAccepted)
    }
}

/// What a certificate's text shows of the problem that the catalog of a text is asked.
fn verdict_of(
    alloc: Global,
    text: Bytes,
    names: ChannelWords<'_>,
    certificate: &[u8],
) -> Result<Checked, BuildFault>
    requires within { length certificate.now ≤ input_limit }
    ensures { IsVerified text names.entry.package_name.now names.entry.channel.now certificate.now result }
{
    catalog_choice::verify_text(
        alloc,
        text,
        names.package_name.as_slice(),
        names.channel.as_slice(),
        certificate,
    )
}

/// Prints what a certificate's text shows of that problem.
fn print_verdict<O: Sink>(
    alloc: Global,
    text: Bytes,
    names: ChannelWords<'_>,
    certificate: &[u8],
    out: &mut O,
) -> Option<Cause>
    requires within { length certificate.now ≤ input_limit }
    ensures run { Comes (spec.Verdicts names.entry.package_name.now names.entry.channel.now text certificate.now) result (O.held out.old) (O.held out.new) }
    ensures cause { HasCause (O.faults out.old) (O.faults out.new) (result ≡ Some Cause.OutputFailed) }
    ensures kind { is_after_reading result ≡ true }
{
    match verdict_of(alloc, text, names, certificate) {
        Ok(checked) => print(checked.line.as_slice(), judged(checked.accepted), out),
        Err(fault) => Some(problem_cause(fault)),
    }
}

/// The same over a text whose catalog must break no rule.
fn verify_text<O: Sink>(
    alloc: Global,
    text: Bytes,
    names: ChannelWords<'_>,
    certificate: &[u8],
    out: &mut O,
) -> Option<Cause>
    requires text { length text ≤ input_limit }
    requires within { length certificate.now ≤ input_limit }
    ensures run { Comes (spec.TextRuns names.entry.package_name.now names.entry.channel.now text certificate.now) result (O.held out.old) (O.held out.new) }
    ensures cause { HasCause (O.faults out.old) (O.faults out.new) (result ≡ Some Cause.OutputFailed) }
    ensures kind { is_after_reading result ≡ true }
{
    match valid_of(alloc, text.as_slice()) {
        Ok(_valid) => print_verdict(alloc, text, names, certificate, out),
        Err(cause) => Some(cause),
    }
}

/// Reads the certificate from the input.
fn verify_input<S: Source, O: Sink>(
    alloc: Global,
    text: Bytes,
    names: ChannelWords<'_>,
    input: &mut S,
    out: &mut O,
) -> Option<Cause>
    requires text { length text ≤ input_limit }
    ensures run { Comes (spec.InputRuns names.entry.package_name.now names.entry.channel.now (S.left input.old) text) result (O.held out.old) (O.held out.new) }
    ensures words { result ≢ Some Cause.BadWords }
    ensures disk { result ≢ Some Cause.DiskFailed }
    ensures folder { result ≢ Some Cause.FolderFailed }
    ensures input { HasCause (S.faults input.old) (S.faults input.new) (result ≡ Some Cause.InputFailed) }
    ensures output { HasCause (O.faults out.old) (O.faults out.new) (result ≡ Some Cause.OutputFailed) }
    ensures end { is_answered (status_of result) ≡ true → IsAtEnd (S.left input.new) }
{
    match read_input(alloc, input) {
        Ok(certificate) => verify_text(alloc, text, names, certificate.as_slice(), out),
        Err(cause) => Some(cause),
    }
}

/// Reads the input, and answers the cause for which the run stops anyway, or that of the input.
fn stop_behind_input<S: Source>(alloc: Global, cause: Cause, input: &mut S) -> Cause
    requires of_folder { is_of_folder cause ≡ true }
    ensures run { is_free result ≡ false → AfterHeld (InputHolds (S.left input.old)) (λ text ran. ran ≡ stopped cause) (stopped result) }
    ensures folder { result ≡ Cause.FolderFailed → cause ≡ Cause.FolderFailed }
    ensures input { HasCause (S.faults input.old) (S.faults input.new) (result ≡ Cause.InputFailed) }
    ensures kind { is_of_reading result ≡ true }
{
    match read_input(alloc, input) {
        Ok(_certificate) => cause,
        Err(fault) => fault,
    }
}

/// The cause for which a run stops whose folder gave no text, but this cause.
fn stop_without_text<S: Source>(alloc: Global, cause: Cause, input: &mut S) -> Cause
    requires of_folder { is_of_folder cause ≡ true }
    ensures run { is_free result ≡ false → spec.NoTextRuns (S.left input.old) cause (stopped result) }
    ensures folder { result ≡ Cause.FolderFailed → cause ≡ Cause.FolderFailed }
    ensures input { HasCause (S.faults input.old) (S.faults input.new) (result ≡ Cause.InputFailed) }
    ensures kind { is_of_reading result ≡ true }
{
    match cause {
        Cause::SplitFile { path, fault } => {
            stop_behind_input(alloc, Cause::SplitFile { path, fault }, input)
        }
        cause => cause,
    }
}

/// Reads the folder's catalog and then the input, and prints what the input shows of the catalog's problem.
pub fn verify<F: Folder, S: Source, O: Sink>(
    alloc: Global,
    path: &Text,
    names: ChannelWords<'_>,
    folder: &mut F,
    input: &mut S,
    out: &mut O,
) -> Option<Cause>
    ensures run { Comes (spec.VerifyRuns path.now names.entry.package_name.now names.entry.channel.now (F.held folder.old) (S.left input.old)) result (O.held out.old) (O.held out.new) }
    ensures words { result ≢ Some Cause.BadWords }
    ensures disk { result ≢ Some Cause.DiskFailed }
    ensures same { F.held folder.new ≡ F.held folder.old }
    ensures folder { HasCause (F.faults folder.old) (F.faults folder.new) (result ≡ Some Cause.FolderFailed) }
    ensures input { HasCause (S.faults input.old) (S.faults input.new) (result ≡ Some Cause.InputFailed) }
    ensures output { HasCause (O.faults out.old) (O.faults out.new) (result ≡ Some Cause.OutputFailed) }
    ensures end { is_answered (status_of result) ≡ true → IsAtEnd (S.left input.new) }
{
    match read_folder(alloc, path, folder) {
        Ok(text) => verify_input(alloc, text, names, input, out),
        Err(cause) => Some(stop_without_text(alloc, cause, input)),
    }
}
