// The line of an event.
ghost use Rattle.std.specs.Prelude.{◌≡◌, ◌++◌, codes, OnOk, IfOk};
ghost use Rattle.cluster_objects.specs.Keys.{printed};
ghost use Rattle.event_runs.specs.Lines as spec;

use cluster_objects::{Key, print_key};
use event_script::Event;
use olm_base::{Memory, Name, Text};
use std::alloc::Global;

fn put_placed(line: &mut Vec<u8>, words: &[u8], namespace: &Name, name: &Name) -> Result<(), Memory>
    ensures { OnOk result (line.new.items ≡ line.old.items ++ words.now ++ spec.placed namespace.now name.now) }
{
    line.extend_from_slice(words)?;
    line.extend_from_slice(namespace.as_bytes())?;
    line.push(b'/')?;
    line.extend_from_slice(name.as_bytes())?;
    Ok(())
}

fn put_text(line: &mut Vec<u8>, words: &[u8], text: &[u8]) -> Result<(), Memory>
    ensures { OnOk result (line.new.items ≡ line.old.items ++ words.now ++ text.now) }
{
    line.extend_from_slice(words)?;
    line.extend_from_slice(text)?;
    Ok(())
}

fn put_key(line: &mut Vec<u8>, words: &[u8], key: &Key) -> Result<(), Memory>
    ensures { OnOk result (line.new.items ≡ line.old.items ++ words.now ++ printed key.now) }
{
    line.extend_from_slice(words)?;
    print_key(key, line)
}

fn put_delete(
    line: &mut Vec<u8>,
    group: &Text,
    kind: &Name,
    namespace: &Text,
    name: &Name,
) -> Result<(), Memory>
    ensures { OnOk result (line.new.items ≡ line.old.items ++ codes "delete " ++ printed (record { group = group.now; kind = kind.now; namespace = namespace.now; name = name.now })) }
{
    let key = Key {
        group: group.clone()?,
        kind: kind.clone()?,
        namespace: namespace.clone()?,
        name: name.clone()?,
    };
    put_key(line, b"delete ", &key)
}

fn put_front(line: &mut Vec<u8>, event: &Event) -> Result<(), Memory>
    ensures { OnOk result (line.new.items ≡ line.old.items ++ spec.front event.now) }
{
    match event {
        Event::Apply { body: _ } => put_text(line, b"apply", b""),
        Event::Delete {
            group,
            kind,
            namespace,
            name,
        } => put_delete(line, group, kind, namespace, name),
        Event::Approve { namespace, name } => put_placed(line, b"approve ", namespace, name),
        Event::Catalog {
            namespace,
            name,
            path: _,
            priority: _,
        } => put_placed(line, b"catalog ", namespace, name),
        Event::Ready {
            namespace,
            name,
            state: _,
        } => put_placed(line, b"ready ", namespace, name),
        Event::Retry {
            namespace,
            budget: _,
        } => put_text(line, b"retry ", namespace.as_bytes()),
        Event::Restart => put_text(line, b"restart", b""),
        Event::Release { namespace } => put_text(line, b"release ", namespace.as_bytes()),
        Event::Worker { .. }
        | Event::Look { .. }
        | Event::Act { .. }
        | Event::Settle { .. }
        | Event::Lease { .. } => put_text(line, b"", b""),
    }
}

fn put_done_front(line: &mut Vec<u8>, event: &Event, key: &Key) -> Result<(), Memory>
    ensures { OnOk result (line.new.items ≡ line.old.items ++ spec.done_front event.now key.now) }
{
    match event {
        Event::Apply { body: _ } => put_key(line, b"apply ", key),
        other => put_front(line, other),
    }
}

/// The line of an event whose write has this key and this version.
pub(crate) fn done_line(
    alloc: Global,
    event: &Event,
    key: &Key,
    version: u64,
) -> Result<Vec<u8>, Memory>
    ensures { IfOk result (λ line. line.items ≡ spec.done_line event.now key.now version) }
{
    let mut line = Vec::new(alloc);
    put_done_front(&mut line, event, key)?;
    let digits = version.to_string(alloc)?;
    put_text(&mut line, b" version ", digits.as_bytes())?;
    line.push(b'\n')?;
    Ok(line)
}

/// The line of an event that is refused for this reason.
pub(crate) fn refused_line(alloc: Global, event: &Event, reason: &Text) -> Result<Vec<u8>, Memory>
    ensures { IfOk result (λ line. line.items ≡ spec.refused_line event.now reason.now) }
{
    let mut line = Vec::new(alloc);
    put_front(&mut line, event)?;
    put_text(&mut line, b" refused ", reason.as_slice())?;
    line.push(b'\n')?;
    Ok(line)
}
