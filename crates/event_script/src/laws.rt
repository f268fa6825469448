// Laws of the definitions.
ghost use Rattle.std.specs.Prelude.{ℕ, List};
ghost use Rattle.event_script.specs.Order.{IsDecided, HaveOwnBytes};
ghost use Rattle.event_script.specs.Script.{events_of};

/// The laws of scripts: a text's answer is the events of its blobs, one for each, or the first fault in its order;
/// and the bytes of each blob are the JSON object that it is.
pub fn script_law()
    ensures decided { (text : List ℕ) → IsDecided text (events_of text) }
    ensures bytes { (text : List ℕ) → HaveOwnBytes text }
{}
