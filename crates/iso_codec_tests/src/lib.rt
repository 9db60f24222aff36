//! The tests of the codec: worked examples over the public calls of `iso_parts`, `iso_table` and `iso_wire`, in one crate, so
//! that none of these is proved a second time with its tests.
#![tactic(auto)]

/// A row of a table, in a constant too, where no function is called.
#[cfg(test)]
macro_rules! row {
    ($class:expr, $coding:expr, $length:expr, $max:expr, $pad:expr) => {
        FieldSpec {
            class: $class,
            coding: $coding,
            length: $length,
            max: $max,
            pad: $pad,
        }
    };
}

/// A row of a number.
#[cfg(test)]
macro_rules! number {
    ($coding:expr, $length:expr, $max:expr) => {
        row!(CharClass::N, $coding, $length, $max, Pad::None)
    };
}

/// A row of characters.
#[cfg(test)]
macro_rules! text {
    ($length:expr, $max:expr) => {
        row!(CharClass::ANS, Coding::Ascii, $length, $max, Pad::None)
    };
}

/// A row of bytes.
#[cfg(test)]
macro_rules! bytes {
    ($coding:expr, $length:expr, $max:expr) => {
        row!(CharClass::B, $coding, $length, $max, Pad::None)
    };
}

#[cfg(test)]
mod faults;
#[cfg(test)]
mod parts;
#[cfg(test)]
mod table;
#[cfg(test)]
mod wire;
