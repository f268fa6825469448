// The forms of a write: each expects the version that its key has in the view.
ghost use Rattle.std.specs.Prelude.{◌≡◌, IfOk};
ghost use Rattle.csv_phases.specs.Phases as spec;

use cluster_objects::{Key, Object, Status, Write, Writer};
use object_store::View;
use olm_base::Memory;

/// What stands there, with another status. It has no stamp, and the view's length.
pub fn with_status(view: &View, object: &Object, new: Status) -> Result<Object, Memory>
    ensures { IfOk result (λ changed. changed ≡ spec.with_status view.now object.now new) }
{
    Ok(Object {
        body: object.body.clone()?,
        status: new,
        owner: object.owner.clone()?,
        stamp: None,
        seen: view.length(),
    })
}

/// A write by the role phases that puts an object.
pub fn puts(key: &Key, version: u64, object: Object) -> Result<Write, Memory>
    ensures { IfOk result (λ write. write ≡ spec.puts key.now version object) }
{
    Ok(Write {
        by: Writer::Phases,
        expect: version,
        key: key.clone()?,
        object: Some(object),
    })
}

/// A write by the role phases that removes what stands at a key.
pub fn removes(key: &Key, version: u64) -> Result<Write, Memory>
    ensures { IfOk result (λ write. write ≡ spec.removes key.now version) }
{
    Ok(Write {
        by: Writer::Phases,
        expect: version,
        key: key.clone()?,
        object: None,
    })
}
