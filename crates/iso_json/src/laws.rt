//! What holds of every message and every table: functions that do nothing, and whose contracts are laws.

ghost use Rattle.iso_json.specs.RoundTrip.{ClearJsonSays};

/// The JSON in clear of a message that the table takes says that very message, unless an element's text has stars where a
/// description puts some.
pub fn clear_json_says()
    ensures { ClearJsonSays }
{}
