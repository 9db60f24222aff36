//! Which messages a rule is for.

ghost use Rattle.std.specs.Prelude.{◌≡◌};
ghost use Rattle.iso_script.specs.Fitting.{account_in, amount_in, base_in, is_account, is_within};
ghost use Rattle.iso_script.specs.Fitting.{fits_account, fits_amount, fits_type, fits};

use iso_order::Pan;
use iso_wire::Message;

/// Amounts from one to another, in minor units.
#[derive(Clone, Copy, Debug, PartialEq, Eq)]
pub struct Amounts {
    /// The least of them.
    pub least: u64,
    /// The greatest of them.
    pub most: u64,
}

/// Which messages a rule is for: all that is given must fit.
#[derive(Clone, Copy, Debug, PartialEq, Eq)]
pub struct Pattern {
    /// The account number (element 2).
    pub account: Option<Pan>,
    /// The amounts (element 4).
    pub amounts: Option<Amounts>,
    /// The message type without its repeat digit, as a number of four digits.
    pub mti: Option<u16>,
}

/// The account number of a message, if it has one.
fn account_in(message: &Message) -> Option<Pan>
    ensures { result ≡ account_in message.now }
{
    Pan::from_digits(message.get(2)?)
}

/// Whether an account number is that of a message.
fn is_account(account: Pan, found: Option<Pan>) -> bool
    ensures { result ≡ is_account account found }
{
    match found {
        Some(found) => account == found,
        None => false,
    }
}

impl Amounts {
    /// Whether an amount is one of them.
    fn has(&self, found: Option<u64>) -> bool
        ensures { result ≡ is_within self.now found }
    {
        match found {
            Some(amount) => self.least <= amount && amount <= self.most,
            None => false,
        }
    }
}

impl Pattern {
    /// Whether a message has the account number, where one is given.
    fn fits_account(&self, message: &Message) -> bool
        ensures { result ≡ fits_account self.now.account message.now }
    {
        match self.account {
            Some(account) => is_account(account, account_in(message)),
            None => true,
        }
    }

    /// Whether a message has one of the amounts, where some are given.
    fn fits_amount(&self, message: &Message) -> bool
        ensures { result ≡ fits_amount self.now.amounts message.now }
    {
        match self.amounts {
            Some(amounts) => amounts.has(message.get_number(4)),
            None => true,
        }
    }

    /// Whether a message is of the type, where one is given, or a repeat of it.
    fn fits_type(&self, message: &Message) -> bool
        ensures { result ≡ fits_type self.now.mti message.now }
    {
        match self.mti {
            Some(mti) => message.mti().base().number() == mti,
            None => true,
        }
    }

    /// Whether a message fits: it has all that is given. Takes no memory.
    pub fn fits(&self, message: &Message) -> bool
        // The account number (element 2), the amount (element 4) and the type without its repeat
        // digit are as given, each where it is given.
        ensures { result ≡ fits self.now message.now }
    {
        self.fits_account(message) && self.fits_amount(message) && self.fits_type(message)
    }
}
