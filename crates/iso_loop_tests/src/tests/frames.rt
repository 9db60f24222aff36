//! What peers send, and what they get.

use crate::Coming;

/// A frame of an echo test, and that of its response.
const ECHO: &[u8] = b"00550800822000000000000004000000000000000102030405000001301";

const ECHOED: &[u8] = b"0057081082200000020000000400000000000000010203040500000100301";

/// The same behind five bytes.
const ECHO_BEHIND: &[u8] = b"0060ABCDE0800822000000000000004000000000000000102030405000001301";

const ECHOED_BEHIND: &[u8] = b"0062ABCDE081082200000020000000400000000000000010203040500000100301";

/// A frame of a purchase of 10.00, and that of the response that grants it.
const PURCHASE: &[u8] =
    b"00820200722000010000800016411111111111111100000000000000100001020304050000070512345840";

const GRANTED: &[u8] =
    b"0090021072200001060080001641111111111111110000000000000010000102030405000007051234500000100840";

/// The same behind five bytes.
const PURCHASE_BEHIND: &[u8] =
    b"0087ABCDE0200722000010000800016411111111111111100000000000000100001020304050000070512345840";

/// A purchase under the BCD table, behind two bytes, and the response that grants it.
const BCD_PURCHASE: &[u8] =
    b"\x00\x2B\x02\x00\x72\x20\x00\x01\x00\x00\x80\x00\x16\x41\x11\x11\x11\x11\x11\x11\x11\x00\x00\x00\
\x00\x00\x00\x00\x10\x00\x01\x02\x03\x04\x05\x00\x00\x12\x05\x01\x23\x45840";

const BCD_GRANTED: &[u8] =
    b"\x00\x33\x02\x10\x72\x20\x00\x01\x06\x00\x80\x00\x16\x41\x11\x11\x11\x11\x11\x11\x11\x00\x00\x00\
\x00\x00\x00\x00\x10\x00\x01\x02\x03\x04\x05\x00\x00\x12\x05\x01\x23\x4500000100840";

const BCD_GRANTED_SECOND: &[u8] =
    b"\x00\x33\x02\x10\x72\x20\x00\x01\x06\x00\x80\x00\x16\x41\x11\x11\x11\x11\x11\x11\x11\x00\x00\x00\
\x00\x00\x00\x00\x10\x00\x01\x02\x03\x04\x05\x00\x00\x12\x05\x01\x23\x4500000200840";

/// Its reversal under the ASCII table, and the response.
const REVERSAL: &[u8] =
    b"0101042082200001000000000000004000000000010203050000001305123450200000012010203040500000012345\
00000000000";

const REVERSED: &[u8] =
    b"0103043082200001020000000000004000000000010203050000001305123450002000000120102030405000000123\
4500000000000";

/// Half of a frame.
const HALF: &[u8] = b"0055080082200000000000000400";

/// A frame of three bytes that are no message.
const GARBAGE: &[u8] = b"0003abc";

/// Behind five bytes, the response that refuses the purchase, and that of the echo test.
const REFUSED_BEHIND: &[u8] =
    b"0089ABCDE021072200001020080001641111111111111110000000000000010000102030405000007051234512840\
0062ABCDE081082200000020000000400000000000000010203040500000100301";

/// Behind five bytes, the response that grants the purchase, and that of the echo test.
const GRANTED_BEHIND: &[u8] =
    b"0095ABCDE021072200001060080001641111111111111110000000000000010000102030405000007051234500000100840\
0062ABCDE081082200000020000000400000000000000010203040500000100301";

/// What a peer sends.
#[derive(Clone, Copy)]
pub(super) enum Sends {
    Nothing,
    Echo,
    Purchase,
    BcdPurchase,
    /// A reversal, in the second turn.
    ReversalLater,
    /// An echo test, and in the second turn a purchase.
    EchoPurchaseLater,
    /// An echo test, and a purchase behind a short read.
    EchoPurchase,
    EchoEnd,
    HalfEnd,
    HalfFailure,
    GarbageEcho,
    EchoBadHeader,
    /// A purchase and an echo test, both behind five bytes.
    BehindBoth,
    /// The same, and then garbage.
    BehindBothGarbage,
    /// Garbage, and an echo test behind five bytes.
    GarbageEchoBehind,
}

/// What comes of the stream of a peer that sends this.
pub(super) fn coming_of(sends: Sends) -> &'static [Coming] {
    match sends {
        Sends::Nothing => &[],
        Sends::Echo => &[Coming::Bytes(ECHO)],
        Sends::Purchase => &[Coming::Bytes(PURCHASE)],
        Sends::BcdPurchase => &[Coming::Bytes(BCD_PURCHASE)],
        Sends::ReversalLater => &[Coming::Nothing, Coming::Bytes(REVERSAL)],
        Sends::EchoPurchaseLater => &[
            Coming::Bytes(ECHO),
            Coming::Nothing,
            Coming::Bytes(PURCHASE),
        ],
        Sends::EchoPurchase => &[Coming::Bytes(ECHO), Coming::Bytes(PURCHASE)],
        Sends::EchoEnd => &[Coming::Bytes(ECHO), Coming::End],
        Sends::HalfEnd => &[Coming::Bytes(HALF), Coming::End],
        Sends::HalfFailure => &[Coming::Bytes(HALF), Coming::Failure],
        Sends::GarbageEcho => &[Coming::Bytes(GARBAGE), Coming::Bytes(ECHO)],
        Sends::EchoBadHeader => &[Coming::Bytes(ECHO), Coming::Bytes(b"00x5")],
        Sends::BehindBoth => &[Coming::Bytes(PURCHASE_BEHIND), Coming::Bytes(ECHO_BEHIND)],
        Sends::BehindBothGarbage => &[
            Coming::Bytes(PURCHASE_BEHIND),
            Coming::Bytes(ECHO_BEHIND),
            Coming::Bytes(GARBAGE),
        ],
        Sends::GarbageEchoBehind => &[Coming::Bytes(GARBAGE), Coming::Bytes(ECHO_BEHIND)],
    }
}

/// What a peer gets.
#[derive(Clone, Copy)]
pub(super) enum Gets {
    Nothing,
    Echoed,
    Granted,
    BcdGranted,
    BcdGrantedSecond,
    Reversed,
    EchoedBehind,
    RefusedBehind,
    GrantedBehind,
}

/// The bytes of what a peer gets.
pub(super) fn bytes_of(gets: Gets) -> &'static [u8] {
    match gets {
        Gets::Nothing => b"",
        Gets::Echoed => ECHOED,
        Gets::Granted => GRANTED,
        Gets::BcdGranted => BCD_GRANTED,
        Gets::BcdGrantedSecond => BCD_GRANTED_SECOND,
        Gets::Reversed => REVERSED,
        Gets::EchoedBehind => ECHOED_BEHIND,
        Gets::RefusedBehind => REFUSED_BEHIND,
        Gets::GrantedBehind => GRANTED_BEHIND,
    }
}
