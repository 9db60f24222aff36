//! Whether both ends have the same on each account.
ghost use Rattle.std.specs.Prelude.{◌≡◌, ◌↔◌, ◌-ℤ◌, pos, IsTrue, None};
ghost use Rattle.iso_tally.specs.Books.{AllAgree, IsAgreed};
ghost use Rattle.iso_tally.specs.declared.books.Verdict.TheVariants.{Agree, Untold};

use iso_order::Pan;

/// What both ends say of an account, once all is closed. Amounts are in minor units.
#[derive(Clone, Copy, Debug, PartialEq, Eq)]
pub struct AccountBooks {
    /// Its number.
    pub pan: Pan,
    /// What was on it before the acquirer's first order.
    pub opening: i64,
    /// What the acquirer's own books say was spent or is held of it.
    pub spent: u128,
    /// What the host told is on it, if it told.
    pub told: Option<i64>,
}

/// Whether both ends agree on an account.
#[derive(Clone, Copy, Debug, PartialEq, Eq)]
pub enum Verdict {
    /// The host told what was on it less what was spent.
    Agree,
    /// The host told another amount.
    Differ,
    /// The host told none.
    Untold,
}

/// Whether what is left of an amount, once so much was spent of it, is that.
fn is_left(opening: i64, spent: u128, told: i64) -> bool
    ensures { IsTrue result ↔ (told ≡ opening -ℤ pos spent) }
{
    told <= opening && u128::from(opening.abs_diff(told)) == spent
}

impl AccountBooks {
    /// Whether both ends agree on the account.
    pub fn verdict(&self) -> Verdict
        // Both ends agree exactly where the host told the opening amount less what the
        // acquirer's own books spent of it.
        ensures agree { (result ≡ Agree) ↔ IsAgreed self.now }
        // It is untold exactly where the host told no amount.
        ensures untold { (result ≡ Untold) ↔ (self.now.told ≡ None) }
    {
        match self.told {
            Some(told) if is_left(self.opening, self.spent, told) => Verdict::Agree,
            Some(_) => Verdict::Differ,
            None => Verdict::Untold,
        }
    }
}

fn is_agreed(books: &AccountBooks) -> bool
    ensures { IsTrue result ↔ IsAgreed books.now }
{
    matches!(books.verdict(), Verdict::Agree)
}

/// Whether both ends agree on every account.
pub fn all_agree(books: &[AccountBooks]) -> bool
    ensures { IsTrue result ↔ AllAgree books.now }
{
    books.iter().all(|of| is_agreed(of))
}

/// The transactions to look at where both ends differ on an account.
#[derive(Drop, Debug)]
pub struct Doubt {
    /// The place of the account in its document, from 0 on.
    pub place: usize,
    /// The trace numbers (element 11) of its transactions that are open or were reversed.
    pub traces: Vec<u32>,
    /// The messages of the first of them, each a line of JSON with its card data masked: a request, and its reversal behind it.
    pub messages: Vec<String>,
}
