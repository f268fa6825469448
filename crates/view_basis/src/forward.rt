// Which CSVs of a namespace may be upgraded.
ghost use Rattle.std.specs.Prelude.{◌≡◌, ◌&&◌, codes, option_map};
ghost use Rattle.std.specs.BTreeMap.{is_at};
ghost use Rattle.cluster_objects.specs.Keys.{key_cmp, same_text};
ghost use Rattle.cluster_objects.specs.Places.{strategy_key};
ghost use Rattle.object_store.specs.Seen.{slot_seen};
ghost use Rattle.view_basis.specs.Forward as spec;

use cluster_history::Slot;
use cluster_objects::{CsvPhase, CsvStatus, Key, Status, StrategyStatus, is_strategy_key};
use object_store::View;
use olm_base::Name;

fn is_called_strategy(namespace: &Name, key: &Key) -> bool
    ensures { result ≡ (same_text key.now.namespace namespace.now && same_text key.now.name (codes "strategy")) }
{
    key.namespace.as_slice() == namespace.as_bytes()
        && key.name.as_bytes() == b"strategy".as_slice()
}

// Whether it is the one key at which a strategy of the namespace counts.
fn is_its_strategy_key(namespace: &Name, key: &Key) -> bool
    ensures { result ≡ is_at (key_cmp (strategy_key namespace.now)) key.now }
{
    is_strategy_key(key) && is_called_strategy(namespace, key)
}

fn strategy_slot(view: &View) -> Option<&Slot>
    ensures { option_map (λ slot. slot.now) result ≡ slot_seen view.now.slots (strategy_key view.now.namespace) }
{
    for entry in view.slots() {
        if is_its_strategy_key(view.namespace(), &entry.0) {
            return Some(entry.1.slot());
        }
    }
    None
}

fn strategy(view: &View) -> Option<StrategyStatus>
    ensures { result ≡ spec.strategy view.now }
{
    match strategy_slot(view) {
        None => None,
        Some(slot) => match &slot.object {
            None => None,
            Some(object) => match &object.status {
                Status::Strategy(status) => Some(*status),
                _ => None,
            },
        },
    }
}

/// Whether the view's namespace is forward: whether its strategy lets an upgrade leave a version that failed. It takes
/// no memory.
pub fn is_forward(view: &View) -> bool
    ensures { result ≡ spec.is_forward view.now }
{
    match strategy(view) {
        None => false,
        Some(status) => status.forward,
    }
}

/// Whether a CSV may be upgraded in a namespace that is forward or isn't.
pub(crate) fn may_upgrade(forward: bool, csv: &CsvStatus) -> bool
    ensures { result ≡ spec.may_upgrade forward csv.now }
{
    match csv.phase {
        CsvPhase::Nothing => false,
        CsvPhase::Pending => false,
        CsvPhase::InstallReady => false,
        CsvPhase::Installing => false,
        CsvPhase::Succeeded => true,
        CsvPhase::Failed => forward,
        CsvPhase::Replacing => false,
        CsvPhase::Deleting => false,
    }
}
