//! Codes of two digits: the parts of the processing code (3), the response code (39), and the types of additional
//! amounts (54), by ISO 8583:1987. Codes that it leaves to a nation or a network have no meaning here.

ghost use Rattle.std.specs.Prelude.{◌≡◌, ◌<◌, ◌==◌, ◌||◌, is_some, nat_le};
ghost use Rattle.iso_meaning.specs.Codes.{two_digits, is_code, is_transaction, is_account, is_amount, is_response, is_from};

/// The number of two digits.
pub(crate) fn two_digits(code: &[u8]) -> Option<u8>
    ensures { result ≡ two_digits code.now }
{
    match *code {
        [a @ b'0'..=b'9', b @ b'0'..=b'9'] => Some(10 * (a - b'0') + (b - b'0')),
        _ => None,
    }
}

/// The transaction type of a number.
fn transaction_of(number: u8) -> Option<&'static str>
    ensures { is_some result ≡ is_transaction number }
{
    match number {
        0 => Some("Goods and services"),
        1 => Some("Cash withdrawal"),
        2 => Some("Adjustment, debit"),
        3 => Some("Cheque guarantee"),
        4 => Some("Cheque verification"),
        5 => Some("Eurocheque"),
        6 => Some("Traveller cheque"),
        7 => Some("Letter of credit"),
        8 => Some("Giro"),
        9 => Some("Goods and services with cash back"),
        20 => Some("Returns"),
        21 => Some("Deposit"),
        22 => Some("Adjustment, credit"),
        23 => Some("Cheque deposit guarantee"),
        24 => Some("Cheque deposit"),
        30 => Some("Available funds inquiry"),
        31 => Some("Balance inquiry"),
        40 => Some("Account transfer"),
        _ => None,
    }
}

/// The account type of a number.
fn account_of(number: u8) -> Option<&'static str>
    ensures { is_some result ≡ is_account number }
{
    match number {
        0 => Some("Default"),
        10 => Some("Savings"),
        20 => Some("Cheque"),
        30 => Some("Credit"),
        40 => Some("Universal"),
        50 => Some("Investment"),
        _ => None,
    }
}

/// The amount type of a number.
fn amount_of(number: u8) -> Option<&'static str>
    ensures { is_some result ≡ is_amount number }
{
    match number {
        1 => Some("Ledger balance"),
        2 => Some("Available balance"),
        3 => Some("Amount owing"),
        4 => Some("Amount due"),
        _ => None,
    }
}

/// The meaning of a response code's number below 20.
fn response_below_20(number: u8) -> Option<&'static str>
    ensures { is_some result ≡ nat_le number 19 }
{
    match number {
        0 => Some("Approved"),
        1 => Some("Refer to card issuer"),
        2 => Some("Refer to card issuer, special condition"),
        3 => Some("Invalid merchant"),
        4 => Some("Pick up card"),
        5 => Some("Do not honour"),
        6 => Some("Error"),
        7 => Some("Pick up card, special condition"),
        8 => Some("Honour with identification"),
        9 => Some("Request in progress"),
        10 => Some("Approved for partial amount"),
        11 => Some("Approved (VIP)"),
        12 => Some("Invalid transaction"),
        13 => Some("Invalid amount"),
        14 => Some("Invalid card number"),
        15 => Some("No such issuer"),
        16 => Some("Approved, update track 3"),
        17 => Some("Customer cancellation"),
        18 => Some("Customer dispute"),
        19 => Some("Re-enter transaction"),
        _ => None,
    }
}

/// The meaning of a response code's number from 20 to 39.
fn response_below_40(number: u8) -> Option<&'static str>
    ensures { is_some result ≡ is_from 20 39 number }
{
    match number {
        20 => Some("Invalid response"),
        21 => Some("No action taken"),
        22 => Some("Suspected malfunction"),
        23 => Some("Unacceptable transaction fee"),
        24 => Some("File update not supported by receiver"),
        25 => Some("Unable to locate record on file"),
        26 => Some("Duplicate file update record, old record replaced"),
        27 => Some("File update field edit error"),
        28 => Some("File update file locked out"),
        29 => Some("File update not successful, contact acquirer"),
        30 => Some("Format error"),
        31 => Some("Bank not supported by switch"),
        32 => Some("Completed partially"),
        33 => Some("Expired card, pick up"),
        34 => Some("Suspected fraud, pick up"),
        35 => Some("Card acceptor contact acquirer, pick up"),
        36 => Some("Restricted card, pick up"),
        37 => Some("Card acceptor call acquirer security, pick up"),
        38 => Some("Allowable PIN tries exceeded, pick up"),
        39 => Some("No credit account"),
        _ => None,
    }
}

/// The meaning of a response code's number from 40 to 59.
fn response_below_60(number: u8) -> Option<&'static str>
    ensures { is_some result ≡ (is_from 40 44 number || is_from 51 59 number) }
{
    match number {
        40 => Some("Requested function not supported"),
        41 => Some("Lost card, pick up"),
        42 => Some("No universal account"),
        43 => Some("Stolen card, pick up"),
        44 => Some("No investment account"),
        51 => Some("Not sufficient funds"),
        52 => Some("No cheque account"),
        53 => Some("No savings account"),
        54 => Some("Expired card"),
        55 => Some("Incorrect PIN"),
        56 => Some("No card record"),
        57 => Some("Transaction not permitted to cardholder"),
        58 => Some("Transaction not permitted to terminal"),
        59 => Some("Suspected fraud"),
        _ => None,
    }
}

/// The meaning of a response code's number from 60 on.
fn response_from_60(number: u8) -> Option<&'static str>
    ensures { is_some result ≡ (is_from 60 68 number || number == 75 || is_from 90 96 number) }
{
    match number {
        60 => Some("Card acceptor contact acquirer"),
        61 => Some("Exceeds withdrawal amount limit"),
        62 => Some("Restricted card"),
        63 => Some("Security violation"),
        64 => Some("Original amount incorrect"),
        65 => Some("Exceeds withdrawal frequency limit"),
        66 => Some("Card acceptor call acquirer security"),
        67 => Some("Hard capture, pick up at the machine"),
        68 => Some("Response received too late"),
        75 => Some("Allowable number of PIN tries exceeded"),
        90 => Some("Cutoff is in process"),
        91 => Some("Issuer or switch is inoperative"),
        92 => Some("No routing to the financial institution"),
        93 => Some("Transaction cannot be completed, violation of law"),
        94 => Some("Duplicate transmission"),
        95 => Some("Reconcile error"),
        96 => Some("System malfunction"),
        _ => None,
    }
}

/// The meaning of a response code's number.
fn response_of(number: u8) -> Option<&'static str>
    ensures { is_some result ≡ is_response number }
{
    match number {
        0..=19 => response_below_20(number),
        20..=39 => response_below_40(number),
        40..=59 => response_below_60(number),
        _ => response_from_60(number),
    }
}

/// The transaction type of the first two digits of a processing code (3).
pub fn transaction_type(code: &[u8]) -> Option<&'static str>
    // Words exactly for the codes 00 to 09, 20 to 24, 30, 31 and 40.
    ensures { is_some result ≡ is_code is_transaction code.now }
{
    transaction_of(two_digits(code)?)
}

/// The account type of the third and fourth digits of a processing code, from which account, of the fifth and sixth, to
/// which account, and of an additional amount.
pub fn account_type(code: &[u8]) -> Option<&'static str>
    // Words exactly for the codes 00, 10, 20, 30, 40 and 50.
    ensures { is_some result ≡ is_code is_account code.now }
{
    account_of(two_digits(code)?)
}

/// The amount type of an additional amount (54).
pub fn amount_type(code: &[u8]) -> Option<&'static str>
    // Words exactly for the codes 01 to 04.
    ensures { is_some result ≡ is_code is_amount code.now }
{
    amount_of(two_digits(code)?)
}

/// The meaning of a response code (39).
pub fn response_code(code: &[u8]) -> Option<&'static str>
    // Words exactly for the codes 00 to 44, 51 to 68, 75 and 90 to 96.
    ensures { is_some result ≡ is_code is_response code.now }
{
    response_of(two_digits(code)?)
}
