// The CSVs of a namespace.
ghost use Rattle.std.specs.Prelude.{◌≡◌, IfOk, option_copied};
ghost use Rattle.cluster_objects.specs.Kinds.{as_csv};
ghost use Rattle.csv_phases.specs.Csvs as spec;

use cluster_objects::{CsvPhase, CsvStatus, Key, Object, Status};
use object_store::{Shared, View};
use olm_base::{Memory, Name};
use std::alloc::Global;
use std::marker::Model;
use view_basis::csv_in;
use view_slots::{csv_key, object_at};

/// A CSV of the view's namespace: what stands at its key in which version, and its status.
#[derive(Drop)]
pub struct Csv<'a> {
    pub key: &'a Key,
    pub version: u64,
    pub object: &'a Object,
    pub status: &'a CsvStatus,
}

impl<'a> Model for Csv<'a> {
    ghost use Rattle.csv_phases.specs.Csvs as spec;

    ghost Value = { spec.Csv };

    ghost view = { λ csv. record { key = csv.key.now; version = csv.version; object = csv.object.now; status = csv.status.now } };
}

// The CSV of a slot, if one of the view's namespace stands there.
fn csv_entry<'a>(view: &View, entry: &'a (Key, Shared)) -> Option<Csv<'a>>
    ensures { result ≡ spec.csv_entry view.now entry.now }
{
    let slot = entry.1.slot();
    match (csv_in(view.namespace(), entry), &slot.object) {
        (Some(status), Some(object)) => Some(Csv {
            key: &entry.0,
            version: slot.version,
            object,
            status,
        }),
        (Some(_), None) => None,
        (None, _) => None,
    }
}

/// The CSVs of the view's namespace, in the order of the slots.
pub fn csvs_of<'a>(alloc: Global, view: &'a View) -> Result<Vec<Csv<'a>>, Memory>
    ensures { IfOk result (λ csvs. csvs.items ≡ spec.csvs view.now) }
{
    let mut csvs = Vec::new(alloc);
    'slots: for entry in view.slots() {
        if let Some(csv) = csv_entry(view, entry) {
            csvs.push(csv)?;
        }
    }
    Ok(csvs)
}

// The status of a CSV, whatever the key that it stands at.
fn as_csv<'a>(there: Option<&'a Object>) -> Option<&'a CsvStatus>
    ensures { option_copied result ≡ as_csv (option_copied there.entry) }
{
    match there {
        None => None,
        Some(object) => match &object.status {
            Status::Csv(csv) => Some(csv),
            _ => None,
        },
    }
}

/// The status of the CSV of this name in the view's namespace, if it is there.
pub fn csv_named<'a>(
    alloc: Global,
    view: &'a View,
    name: &Name,
) -> Result<Option<&'a CsvStatus>, Memory>
    ensures { IfOk result (λ csv. option_copied csv ≡ spec.csv_named view.now name.now) }
{
    let key = csv_key(alloc, view.namespace(), name)?;
    Ok(as_csv(object_at(view, &key)))
}

/// Whether a CSV in this phase isn't yet replaced.
pub fn is_current(phase: CsvPhase) -> bool
    ensures { result ≡ spec.is_current phase }
{
    match phase {
        CsvPhase::Nothing
        | CsvPhase::Pending
        | CsvPhase::InstallReady
        | CsvPhase::Installing
        | CsvPhase::Succeeded
        | CsvPhase::Failed => true,
        CsvPhase::Replacing | CsvPhase::Deleting => false,
    }
}

/// Whether no CSV of this name is there, or it is Replacing or Deleting.
pub fn is_gone(alloc: Global, view: &View, name: &Name) -> Result<bool, Memory>
    ensures { IfOk result (λ gone. gone ≡ spec.is_gone view.now name.now) }
{
    match csv_named(alloc, view, name)? {
        Some(csv) => Ok(!is_current(csv.phase)),
        None => Ok(true),
    }
}

/// Whether these are the same phase.
pub fn is_in(wanted: CsvPhase, found: CsvPhase) -> bool
    ensures { result ≡ spec.is_in wanted found }
{
    rank(wanted) == rank(found)
}

// The phases in the order of an installation.
fn rank(phase: CsvPhase) -> u8
    ensures { result ≡ spec.rank phase }
{
    match phase {
        CsvPhase::Nothing => 0,
        CsvPhase::Pending => 1,
        CsvPhase::InstallReady => 2,
        CsvPhase::Installing => 3,
        CsvPhase::Succeeded => 4,
        CsvPhase::Failed => 5,
        CsvPhase::Replacing => 6,
        CsvPhase::Deleting => 7,
    }
}
