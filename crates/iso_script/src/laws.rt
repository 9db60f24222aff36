//! What holds of rules: functions that do nothing, and whose contracts are laws.

ghost use Rattle.iso_script.specs.Misbehaving.{ReadByNone};
ghost use Rattle.iso_script.specs.Turns.{TurnsByCount};

/// Behind any messages, a rule decides at a message that it is for exactly where that one is its n-th, 2n-th and so on, if no
/// rule before it decides.
pub fn turns_come_by_count()
    ensures { TurnsByCount }
{}

/// The bytes that go out in place of an answer are no message under any table.
pub fn garbage_is_no_message()
    ensures { ReadByNone }
{}
