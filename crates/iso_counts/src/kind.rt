//! What kind of message a frame is.
ghost use Rattle.std.specs.Prelude.{◌≡◌};
ghost use Rattle.iso_counts.specs.Kind.{kind_of, kind_of_frame, kind_place};

/// What kind of message a frame is.
#[derive(Clone, Copy, Debug, PartialEq, Eq)]
pub enum Kind {
    /// It asks for money to be held, taken or given.
    Request,
    /// It tells that this was done.
    Advice,
    /// It takes something back.
    Reversal,
    /// It is of the network, as the echo test.
    Network,
    /// It is another message.
    Other,
    /// It isn't one whole message.
    Unreadable,
}

/// How many kinds there are.
pub const KINDS: usize = 6;

/// The kinds by their places, as they are written.
pub const KIND_WORDS: [&str; KINDS] = [
    "request",
    "advice",
    "reversal",
    "network",
    "other",
    "unreadable",
];

impl Kind {
    /// The kind of a message, by the number of its message type.
    pub fn of_type(number: u16) -> Kind
        // Class 1 or 2 is a request or an advice, by the function digit 0 or 2; class 4 is a
        // reversal, 8 is of the network; the rest is other.
        ensures { result ≡ kind_of number }
    {
        match (number / 100 % 10, number / 10 % 10) {
            (1 | 2, 0) => Kind::Request,
            (1 | 2, 2) => Kind::Advice,
            (4, _) => Kind::Reversal,
            (8, _) => Kind::Network,
            _ => Kind::Other,
        }
    }

    /// The kind of a frame, whose message type is known or isn't.
    pub fn of_frame(number: Option<u16>) -> Kind
        // It is the kind of its message type, and other where that isn't known.
        ensures { result ≡ kind_of_frame number }
    {
        match number {
            Some(number) => Kind::of_type(number),
            None => Kind::Other,
        }
    }

    /// Its place among all kinds.
    pub fn place(self) -> usize
        // Requests 0, advices 1, reversals 2, the network 3, other messages
        // 4, what isn't readable 5.
        ensures { result ≡ kind_place self }
    {
        match self {
            Kind::Request => 0,
            Kind::Advice => 1,
            Kind::Reversal => 2,
            Kind::Network => 3,
            Kind::Other => 4,
            Kind::Unreadable => 5,
        }
    }
}
