//! Message types.

ghost use Rattle.std.specs.Prelude.{◌≡◌, ◌<◌, ◌%◌, ◌==◌, option_map};

/// A message type: four decimal digits (ISO 8583:1987, message type identifier).
#[derive(Clone, Copy, Debug, PartialEq, Eq)]
pub struct Mti {
    /// 0 is 1987, 1 is 1993, 2 is 2003, 9 is private use.
    pub version: u8,
    /// What the message is about: `MtiClass` has the names.
    pub class: u8,
    /// 0 request, 1 response, 2 advice, 3 advice response.
    pub function: u8,
    /// 0 acquirer, 2 issuer, 4 other; the odd digit behind each is its repeat.
    pub origin: u8,
    ghost version_digit: { version < 10 },
    ghost class_digit: { class < 10 },
    ghost function_digit: { function < 10 },
    ghost origin_digit: { origin < 10 },
}

/// What a message is about: the meaning of the class digit.
#[derive(Clone, Copy, Debug, PartialEq, Eq)]
pub enum MtiClass {
    Authorization,
    Financial,
    FileAction,
    Reversal,
    Reconciliation,
    Administrative,
    FeeCollection,
    NetworkManagement,
    /// A digit without a meaning.
    Reserved(u8),
}

impl Mti {
    ghost use Rattle.iso_parts.specs.Mti.{digits, type_digits, digits_in, mti_number, class_of, base_digits, response_digits};

    /// The type with the digits of a number, `None` above 9999.
    pub fn from_digits(n: u16) -> Option<Mti>
        ensures { option_map digits result ≡ type_digits n }
    {
        if n > 9999 {
            return None;
        }
        Some(Mti {
            version: (n / 1000) as u8,
            class: (n / 100 % 10) as u8,
            function: (n / 10 % 10) as u8,
            origin: (n % 10) as u8,
        })
    }

    /// The type that four ASCII digits write, `None` for any other text. Takes no memory.
    pub fn from_text(text: &[u8]) -> Option<Mti>
        ensures { option_map digits result ≡ digits_in text.now }
    {
        match text {
            [
                a @ b'0'..=b'9',
                b @ b'0'..=b'9',
                c @ b'0'..=b'9',
                d @ b'0'..=b'9',
            ] => Some(Mti {
                version: *a - b'0',
                class: *b - b'0',
                function: *c - b'0',
                origin: *d - b'0',
            }),
            _ => None,
        }
    }

    /// The number that the four digits write, at most 9999.
    pub fn number(&self) -> u16
        ensures { result ≡ mti_number self.now }
    {
        self.version as u16 * 1000
            + self.class as u16 * 100
            + self.function as u16 * 10
            + self.origin as u16
    }

    /// What the class digit means.
    pub fn class(&self) -> MtiClass
        ensures { result ≡ class_of self.now.class }
    {
        match self.class {
            1 => MtiClass::Authorization,
            2 => MtiClass::Financial,
            3 => MtiClass::FileAction,
            4 => MtiClass::Reversal,
            5 => MtiClass::Reconciliation,
            6 => MtiClass::Administrative,
            7 => MtiClass::FeeCollection,
            8 => MtiClass::NetworkManagement,
            other => MtiClass::Reserved(other),
        }
    }

    /// The type of the first delivery: the origin is rounded down to even.
    pub fn base(&self) -> Mti
        ensures { digits result ≡ base_digits self.now }
    {
        Mti {
            version: self.version,
            class: self.class,
            function: self.function,
            origin: self.origin - self.origin % 2,
        }
    }

    /// Whether the origin is that of a repeat.
    pub fn is_repeat(&self) -> bool
        ensures { result ≡ (self.now.origin % 2 == 1) }
    {
        self.origin % 2 == 1
    }

    /// The type of the response: a request and an advice have one, with the next function and no repeat.
    pub fn response(&self) -> Option<Mti>
        ensures { option_map digits result ≡ response_digits self.now }
    {
        match self.function {
            0 | 2 => Some(Mti {
                version: self.version,
                class: self.class,
                function: self.function + 1,
                origin: self.origin - self.origin % 2,
            }),
            _ => None,
        }
    }
}
