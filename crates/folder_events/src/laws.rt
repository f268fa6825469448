//! What the events of a user have.

ghost use Rattle.folder_events.specs.Laws as law;

/// An object with a catalog's status that an event writes has a valid catalog as its body.
pub fn catalogs_are_valid()
    ensures { law.WritesValidCatalogs }
{}

/// By a folder that tells what it holds an event asks for one thing alone.
pub fn asks_one_thing()
    ensures { law.AsksOneThing }
{}
