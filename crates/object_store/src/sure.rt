// A history in memory that never fails.
ghost use Rattle.std.specs.Prelude.{◌≡◌, ◌≤◌, ◌+◌, ◌∷◌, ◌++◌, ◌||◌, [], IfOk, OnOk, OnErr, length};
ghost use Rattle.std.specs.List.{filter};
ghost use Rattle.std.specs.BTreeMap.{insert_entry};
ghost use Rattle.cluster_objects.specs.Keys.{same_text, key_cmp};
ghost use Rattle.cluster_objects.specs.Stamps.{stamps_of};
ghost use Rattle.cluster_history.specs.History.{Start, Slots, IsInOrder, empty, after_all, slot, slot_in, state};
ghost use Rattle.cluster_history.specs.declared.slots.Slot.{Slot};
ghost use Rattle.object_store.specs.Appends.{IsUndoneBy, TakesBack};
ghost use Rattle.object_store.specs.Seen.{slot_seen};
ghost use Rattle.cluster_history.specs.Views.{is_visible, is_global};

use crate::{Cluster, ClusterFault, PutAnswer, Shared, View, WRITE_LIMIT};
use cluster_history::Slot;
use cluster_objects::{Key, Object, Stamp, Write, Writer};
use olm_base::{Many, Memory, Name};
use std::alloc::{AllocError, Global};
use std::collections::BTreeMap;
use std::marker::Model;

// A write, whose object stands in the slot that it made.
#[derive(Drop)]
struct Kept {
    by: Writer,
    expect: u64,
    key: Key,
    slot: Shared,
}

impl Model for Kept {
    ghost use Rattle.cluster_objects.specs.declared.objects.Write.{Write};

    ghost Value = { Write };

    ghost view = { λ k. record { by = k.by; expect = k.expect; key = k.key; object = k.slot.object } };
}

/// A store in memory that never fails and is never damaged. Its limit is the most writes that it takes.
#[derive(Drop)]
pub struct SureCluster {
    alloc: Global,
    limit: u64,
    writes: Vec<Kept>,
    slots: BTreeMap<Key, Shared>,
}

impl Model for SureCluster {
    ghost use Rattle.std.specs.Prelude.{◌≡◌, ℕ, List};
    ghost use Rattle.cluster_history.specs.History.{Start, empty, after_all, state};
    ghost use Rattle.cluster_objects.specs.declared.objects.Write.{Write};

    // the limit and the writes
    ghost Value = { ℕ × List Write };

    ghost view = { λ s. (s.limit, s.writes.items) };

    ghost invariant = { λ s. s.slots.entries ≡ state (after_all (Start empty) s.writes.items) };
}

/// What `append` did.
#[derive(Debug, Drop)]
pub struct Appended {
    /// The position of the write.
    pub version: u64,
    /// What stood at the write's key before it.
    pub before: Option<Shared>,
}

fn is_same(a: &[u8], b: &[u8]) -> bool
    ensures { result ≡ same_text a.now b.now }
{
    a == b
}

fn visible(namespace: &Name, key: &Key) -> bool
    ensures { result ≡ is_visible namespace.now key.now }
{
    let at = key.namespace.as_slice();
    is_same(at, namespace.as_bytes()) || everywhere(at) || is_same(at, b"")
}

fn everywhere(at: &[u8]) -> bool
    ensures { result ≡ is_global at.now }
{
    is_same(at, b"olm") || is_same(at, b"openshift-marketplace")
}

// The stamps of a slot, and then that of an object.
fn stamps_after(
    alloc: Global,
    before: &[Stamp],
    object: &Option<Object>,
) -> Result<Many<Stamp>, AllocError>
    ensures { IfOk result (λ stamps. stamps ≡ before.now ++ stamps_of object.now) }
{
    let mut stamps = Vec::new(alloc);
    for stamp in before {
        stamps.push(stamp.clone()?)?;
    }
    if let Some(
        Object {
            stamp: Some(stamp),
            ..
        },
    ) = object
    {
        stamps.push(stamp.clone()?)?;
    }
    Ok(Many::from_vec(stamps))
}

// The slot that a write of this object at this position makes.
fn slot_after(
    alloc: Global,
    slots: &BTreeMap<Key, Shared>,
    position: u64,
    key: &Key,
    object: Option<Object>,
) -> Result<Shared, AllocError>
    ensures { IfOk result (λ s. s ≡ record { version = position; object = object; stamps = (slot_in slots.now.entries key.now).stamps ++ stamps_of object }) }
{
    let stamps = stamps_after(alloc, stamps_at(slots, key), &object)?;
    Shared::new(
        alloc,
        Slot {
            version: position,
            object,
            stamps,
        },
    )
}

// The stamps of a key's slot.
fn stamps_at<'a>(slots: &'a BTreeMap<Key, Shared>, key: &Key) -> &'a [Stamp]
    ensures { result.now ≡ (slot_in slots.now.entries key.now).stamps }
{
    match slots.get(key) {
        Some(there) => there.slot().stamps.as_slice(),
        None => &[],
    }
}

fn version_at(slots: &BTreeMap<Key, Shared>, key: &Key) -> u64
    ensures { result ≡ (slot_in slots.now.entries key.now).version }
{
    match slots.get(key) {
        Some(there) => there.slot().version,
        None => 0,
    }
}

// Adds an entry that the namespace sees.
fn keep(
    namespace: &Name,
    key: &Key,
    slot: &Shared,
    entries: &mut Vec<(Key, Shared)>,
) -> Result<(), AllocError>
    ensures { OnOk result (entries.new.items ≡ entries.old.items ++ filter (λ e. is_visible namespace.now e.0) ((key.now, slot.now) ∷ [])) }
{
    if visible(namespace, key) {
        entries.push((key.clone()?, slot.clone()?))?;
    }
    Ok(())
}

// The entries that a namespace sees.
fn seen(
    alloc: Global,
    namespace: &Name,
    slots: &BTreeMap<Key, Shared>,
) -> Result<Vec<(Key, Shared)>, AllocError>
    ensures { IfOk result (λ v. v.items ≡ filter (λ e. is_visible namespace.now e.0) slots.now.entries) }
{
    let mut entries = Vec::new(alloc);
    for (key, slot) in slots.iter() {
        keep(namespace, key, slot, &mut entries)?;
    }
    Ok(entries)
}

// Adds a write, or nothing.
fn append(
    alloc: Global,
    writes: &mut Vec<Kept>,
    slots: &mut BTreeMap<Key, Shared>,
    write: Write,
) -> Result<Appended, AllocError>
    requires { slots.old.entries ≡ state (after_all (Start empty) writes.old.items) }
    ensures done { IfOk result (λ appended. (writes.new.items ≡ writes.old.items ++ write ∷ []) × (appended.version ≡ length writes.old.items + 1)) }
    ensures before { IfOk result (λ appended. appended.before ≡ slot_seen slots.old.entries write.key) }
    ensures err { OnErr result (writes.new.items ≡ writes.old.items) }
    ensures state { slots.new.entries ≡ state (after_all (Start empty) writes.new.items) }
{
    let version = writes.as_slice().len() as u64 + 1;
    let Write {
        by,
        expect,
        key,
        object,
    } = write;
    let slot = slot_after(alloc, slots, version, &key, object)?;
    let kept = Kept {
        by,
        expect,
        key: key.clone()?,
        slot: slot.clone()?,
    };
    writes.push(kept)?;
    match slots.insert(key, slot) {
        Ok(before) => Ok(Appended { version, before }),
        Err(_) => {
            let _ = writes.pop();
            Err(AllocError)
        }
    }
}

fn version_of(appended: Appended) -> u64
    ensures { result ≡ appended.version }
{
    appended.version
}

// Gives a key what stood there before a slot was made at it.
fn put_back(slots: &mut BTreeMap<Key, Shared>, key: Key, before: Option<Shared>)
    ensures { (es : Slots) (made : Slot) → IsInOrder es → slots.old.entries ≡ insert_entry key_cmp es key made → before ≡ slot_seen es key → slots.new.entries ≡ es }
{
    match before {
        Some(slot) => {
            let _ = slots.insert(key, slot);
        }
        None => {
            let _ = slots.remove(&key);
        }
    }
}

impl SureCluster {
    /// An empty store, which takes so many writes.
    pub fn new(alloc: Global, limit: u64) -> SureCluster
        requires { limit ≤ WRITE_LIMIT }
        ensures { result ≡ (limit, []) }
    {
        SureCluster {
            alloc,
            limit,
            writes: Vec::new(alloc),
            slots: BTreeMap::new(alloc),
        }
    }

    /// How many writes it has.
    pub fn length(&self) -> u64
        ensures { result ≡ length self.now.1 }
    {
        self.writes.as_slice().len() as u64
    }

    /// The version of a key, 0 where it was never written.
    pub fn version(&self, key: &Key) -> u64
        ensures { result ≡ (slot (after_all (Start empty) self.now.1) key.now).version }
    {
        version_at(&self.slots, key)
    }

    /// Adds a write, whatever version it expects and whatever the limit is.
    pub fn append(&mut self, alloc: Global, write: Write) -> Result<Appended, Memory>
        ensures done { OnOk result (self.new ≡ (self.old.0, self.old.1 ++ write ∷ [])) }
        ensures version { IfOk result (λ appended. appended.version ≡ length self.old.1 + 1) }
        ensures before { IfOk result (λ appended. appended.before ≡ slot_seen (state (after_all (Start empty) self.old.1)) write.key) }
        ensures err { OnErr result (self.new ≡ self.old) }
    {
        Ok(append(alloc, &mut self.writes, &mut self.slots, write)?)
    }

    /// Takes the last write back, with what `append` answered for it. It takes no memory.
    pub fn take_back(&mut self, appended: Appended)
        requires { IsUndoneBy appended.before self.old.1 }
        ensures limit { self.new.0 ≡ self.old.0 }
        ensures writes { TakesBack self.old.1 self.new.1 }
    {
        if let Some(kept) = self.writes.pop() {
            put_back(&mut self.slots, kept.key, appended.before);
        }
    }
}

impl Cluster for SureCluster {
    ghost use Rattle.std.specs.Prelude.{true, None};
    ghost use Rattle.cluster_history.specs.History.{Start, empty, after_all};

    ghost tells = { λ s. true };

    ghost history = { λ s. after_all (Start empty) s.1 };

    ghost limit = { λ s. s.0 };

    ghost fits = { λ h w. true };

    ghost faults = { λ s. 0 };

    ghost ready = { λ s. true };

    ghost damage = { λ s. None };

    fn snapshot(&mut self, alloc: Global, namespace: &Name) -> Result<View, ClusterFault> {
        match snapshot_of(
            alloc,
            namespace,
            self.writes.as_slice().len() as u64,
            &self.slots,
        ) {
            Ok(view) => Ok(view),
            Err(_) => Err(ClusterFault::Memory),
        }
    }

    fn reopen(&mut self, _alloc: Global) -> Result<(), ClusterFault> {
        Ok(())
    }

    fn put(&mut self, alloc: Global, write: Write) -> PutAnswer {
        let found = version_at(&self.slots, &write.key);
        if found != write.expect {
            discard(write);
            PutAnswer::Conflict { found }
        } else if self.writes.as_slice().len() as u64 >= self.limit {
            discard(write);
            PutAnswer::Full
        } else {
            match append(alloc, &mut self.writes, &mut self.slots, write) {
                Ok(appended) => PutAnswer::Done {
                    version: version_of(appended),
                },
                Err(_) => PutAnswer::Memory,
            }
        }
    }
}

// Lets a write go.
pub(crate) fn discard(_write: Write) {}

fn snapshot_of(
    alloc: Global,
    namespace: &Name,
    length: u64,
    slots: &BTreeMap<Key, Shared>,
) -> Result<View, AllocError>
    ensures { IfOk result (λ v. v ≡ record { namespace = namespace.now; length = length; slots = filter (λ e. is_visible namespace.now e.0) slots.now.entries }) }
{
    let entries = seen(alloc, namespace, slots)?;
    Ok(View::new(namespace.clone()?, length, entries))
}
