//! What holds of every text: functions that do nothing, and whose contracts are laws.

ghost use Rattle.iso_input.specs.Decoding.{ComesBack, IsDecoded};
ghost use Rattle.iso_input.specs.Dumps.{DumpsComeBack};

/// A text that is no dump stands for the bytes that its digits decode to without the spacing, and the digits of bytes stand
/// for those bytes.
pub fn digits_decode()
    // A text that is no dump stands for what its digits decode to without the spacing, and for
    // nothing where they don't decode.
    ensures decoded { IsDecoded }
    // The digits of any bytes, of either case, stand for those bytes.
    ensures back { ComesBack }
{}

/// A dump as `xxd`, `hexdump -C` and Wireshark write it stands for the bytes of its lines, whatever their text columns show.
pub fn dumps_come_back()
    ensures { DumpsComeBack }
{}
