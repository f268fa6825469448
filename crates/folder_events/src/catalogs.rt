// The event that gives a catalog source the catalog that lies in a folder.
ghost use Rattle.std.specs.Prelude.{◌≡◌, ◌≤◌, true, false, not, length, Ok, IfOk, IfErr};
ghost use Rattle.olm_base.specs.Outcome.{Ends};
ghost use Rattle.olm_io.specs.Outside.{HasCause};
ghost use Rattle.fbc_read.specs.Bodies.{input_limit};
ghost use Rattle.object_store.specs.Puts.{IsSound};
ghost use Rattle.user_events.specs.Answers.{Answers, store_failed, folder_failed};
ghost use Rattle.folder_events.specs.Answers as answers;
ghost use Rattle.folder_events.specs.Answers.{is_free};
ghost use Rattle.folder_events.specs.Catalogs as spec;

use crate::valid::valid;
use crate::words::{split_text, unread_text};
use fbc_read::{BodyFault, catalog_body};
use object_store::Cluster;
use olm_base::{Bytes, Memory, Name, Text};
use olm_folder::Folder;
use olm_io::FolderFault;
use std::alloc::Global;
use user_events::{Refusal, UserAnswer, write_catalog};

fn refused(words: Result<Text, Memory>) -> UserAnswer
    ensures words { IfOk words (λ words. result ≡ UserAnswer.Refused words) }
    ensures memory { IfErr words (λ e. result ≡ UserAnswer.Memory) }
{
    match words {
        Ok(reason) => UserAnswer::Refused { reason },
        Err(Memory) => UserAnswer::Memory,
    }
}

// What comes of the event where the folder gives no text.
fn fault_answer(alloc: Global, fault: &BodyFault) -> UserAnswer
    ensures answer { Ends is_free (answers.fault_answer fault.now) result }
    ensures failed { folder_failed result ≡ true → fault.now ≡ BodyFault.Folder FolderFault.Failed }
    ensures store { store_failed result ≡ false }
{
    match fault {
        BodyFault::Yaml { path } => refused(unread_text(alloc, path)),
        BodyFault::Split { path, fault } => refused(split_text(alloc, path, *fault)),
        BodyFault::Folder(FolderFault::TooLong { limit: _ }) => {
            refused(Text::from_str(alloc, "limit 67108864"))
        }
        BodyFault::Folder(FolderFault::Failed) => UserAnswer::FolderFailed,
        BodyFault::Folder(FolderFault::Memory) => UserAnswer::Memory,
        BodyFault::Memory => UserAnswer::Memory,
    }
}

// Gives a catalog source this text, if it is a valid catalog.
fn write_valid<C: Cluster>(
    alloc: Global,
    namespace: &Name,
    name: &Name,
    text: Bytes,
    priority: Option<i64>,
    cluster: &mut C,
) -> UserAnswer
    requires ready { C.ready cluster.old ≡ true }
    requires within { length text ≤ input_limit }
    ensures answer { Answers C.fits (C.limit cluster.old) (C.history cluster.old) (λ asked. spec.catalog_after (C.history cluster.old) namespace.now name.now priority (Ok text) ≡ asked) (C.history cluster.new) result }
    ensures limit { C.limit cluster.new ≡ C.limit cluster.old }
    ensures tells { C.tells cluster.new ≡ C.tells cluster.old }
    ensures sound { IsSound (C.tells cluster.old) (C.damage cluster.old) → IsSound (C.tells cluster.new) (C.damage cluster.new) }
    ensures cause { HasCause (C.faults cluster.old) (C.faults cluster.new) (store_failed result ≡ true) }
    ensures ready { C.ready cluster.new ≡ not (store_failed result) }
    ensures folder { folder_failed result ≡ false }
{
    match valid(alloc, text) {
        Ok(body) => write_catalog(alloc, namespace, name, body, priority.unwrap_or(0), cluster),
        Err(Refusal::Reason { words }) => UserAnswer::Refused { reason: words },
        Err(Refusal::Memory) => UserAnswer::Memory,
    }
}

/// Gives a catalog source the catalog that lies below a path of the folder, and this priority, or 0 where none is
/// given, whatever stands there. It is refused for the first fault of the catalog, or the first rule that it breaks.
///
/// The folder is read before the store is asked.
pub fn catalog<C: Cluster, F: Folder>(
    alloc: Global,
    namespace: &Name,
    name: &Name,
    path: &Text,
    priority: Option<i64>,
    cluster: &mut C,
    folder: &mut F,
) -> UserAnswer
    requires ready { C.ready cluster.old ≡ true }
    ensures answer { Answers C.fits (C.limit cluster.old) (C.history cluster.old) (spec.AsksCatalog (F.held folder.old) (C.history cluster.old) namespace.now name.now path.now priority) (C.history cluster.new) result }
    ensures limit { C.limit cluster.new ≡ C.limit cluster.old }
    ensures tells { C.tells cluster.new ≡ C.tells cluster.old }
    ensures sound { IsSound (C.tells cluster.old) (C.damage cluster.old) → IsSound (C.tells cluster.new) (C.damage cluster.new) }
    ensures cause { HasCause (C.faults cluster.old) (C.faults cluster.new) (store_failed result ≡ true) }
    ensures ready { C.ready cluster.new ≡ not (store_failed result) }
    ensures unasked { folder_failed result ≡ true → cluster.new ≡ cluster.old }
    ensures folder { HasCause (F.faults folder.old) (F.faults folder.new) (folder_failed result ≡ true) }
    ensures same { F.held folder.new ≡ F.held folder.old }
{
    match catalog_body(alloc, folder, path) {
        Ok(text) => write_valid(alloc, namespace, name, text, priority, cluster),
        Err(fault) => fault_answer(alloc, &fault),
    }
}
