// Texts of events.
use crate::rows::Stop;
use event_script::{Event, read_events};
use std::alloc::Global;

fn put_events(out: &mut String, events: &[Event]) -> Result<(), Stop> {
    writeln!(out, "{} events", events.len())?;
    for event in events {
        writeln!(out, "{event:?}")?;
    }
    Ok(())
}

/// `events TEXT`: the events of a text, or its fault.
pub fn events_row(alloc: Global, out: &mut String, text: &str) -> Result<(), Stop> {
    if text.len() > 1 << 31 {
        return Err(Stop::Row);
    }
    match read_events(alloc, text.as_bytes()) {
        Ok(events) => put_events(out, events.as_slice()),
        Err(fault) => Ok(writeln!(out, "{fault}")?),
    }
}
