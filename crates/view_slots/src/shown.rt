// What a view shows at a key.
ghost use Rattle.std.specs.Prelude.{◌≡◌, option_copied};
ghost use Rattle.cluster_history.specs.History.{slot_in};

use cluster_objects::{Key, Object};
use object_store::View;

/// The version of a key in a view, or 0 if it shows nothing there.
pub fn version_at(view: &View, key: &Key) -> u64
    ensures { result ≡ (slot_in view.now.slots key.now).version }
{
    match view.slot(key) {
        Some(slot) => slot.version,
        None => 0,
    }
}

/// The object that a view shows at a key, if it shows one.
pub fn object_at<'a>(view: &'a View, key: &Key) -> Option<&'a Object>
    ensures { option_copied result ≡ (slot_in view.now.slots key.now).object }
{
    match view.slot(key) {
        Some(slot) => slot.object.as_ref(),
        None => None,
    }
}
