//! Currencies: elements 49, 50 and 51, by ISO 4217 as of 2025.

ghost use Rattle.std.specs.Prelude.{◌≡◌, ◌≤◌, ℕ, IfSome, IsTrue};
ghost use Rattle.iso_meaning.specs.Currencies.{three_digits, is_three_digits, is_alphabetic};

/// A currency.
#[derive(Clone, Copy, Debug, PartialEq, Eq)]
pub struct Currency {
    /// Its three letters.
    pub letters: &'static str,
    /// How many digits of an amount stand behind the point. Metals, units of account and the codes for tests and for
    /// no currency have no such number.
    pub minor_digits: Option<u8>,
}

/// The number of three digits.
fn three_digits(code: &[u8]) -> Option<u16>
    ensures { result ≡ three_digits code.now }
{
    match *code {
        [a @ b'0'..=b'9', b @ b'0'..=b'9', c @ b'0'..=b'9'] => {
            Some(100 * u16::from(a - b'0') + 10 * u16::from(b - b'0') + u16::from(c - b'0'))
        }
        _ => None,
    }
}

/// The letters of a number below 100.
fn letters_below_100(number: u16) -> Option<&'static str>
    ensures { IfSome result (λ letters. IsTrue (is_alphabetic letters.now)) }
{
    match number {
        8 => Some("ALL"),
        12 => Some("DZD"),
        32 => Some("ARS"),
        36 => Some("AUD"),
        44 => Some("BSD"),
        48 => Some("BHD"),
        50 => Some("BDT"),
        51 => Some("AMD"),
        52 => Some("BBD"),
        60 => Some("BMD"),
        64 => Some("BTN"),
        68 => Some("BOB"),
        72 => Some("BWP"),
        84 => Some("BZD"),
        90 => Some("SBD"),
        96 => Some("BND"),
        _ => None,
    }
}

/// The letters of a number from 100 to 199.
fn letters_below_200(number: u16) -> Option<&'static str>
    ensures { IfSome result (λ letters. IsTrue (is_alphabetic letters.now)) }
{
    match number {
        104 => Some("MMK"),
        108 => Some("BIF"),
        116 => Some("KHR"),
        124 => Some("CAD"),
        132 => Some("CVE"),
        136 => Some("KYD"),
        144 => Some("LKR"),
        152 => Some("CLP"),
        156 => Some("CNY"),
        170 => Some("COP"),
        174 => Some("KMF"),
        188 => Some("CRC"),
        192 => Some("CUP"),
        _ => None,
    }
}

/// The letters of a number from 200 to 299.
fn letters_below_300(number: u16) -> Option<&'static str>
    ensures { IfSome result (λ letters. IsTrue (is_alphabetic letters.now)) }
{
    match number {
        203 => Some("CZK"),
        208 => Some("DKK"),
        214 => Some("DOP"),
        222 => Some("SVC"),
        230 => Some("ETB"),
        232 => Some("ERN"),
        238 => Some("FKP"),
        242 => Some("FJD"),
        262 => Some("DJF"),
        270 => Some("GMD"),
        292 => Some("GIP"),
        _ => None,
    }
}

/// The letters of a number from 300 to 399.
fn letters_below_400(number: u16) -> Option<&'static str>
    ensures { IfSome result (λ letters. IsTrue (is_alphabetic letters.now)) }
{
    match number {
        320 => Some("GTQ"),
        324 => Some("GNF"),
        328 => Some("GYD"),
        332 => Some("HTG"),
        340 => Some("HNL"),
        344 => Some("HKD"),
        348 => Some("HUF"),
        352 => Some("ISK"),
        356 => Some("INR"),
        360 => Some("IDR"),
        364 => Some("IRR"),
        368 => Some("IQD"),
        376 => Some("ILS"),
        388 => Some("JMD"),
        392 => Some("JPY"),
        398 => Some("KZT"),
        _ => None,
    }
}

/// The letters of a number from 400 to 499.
fn letters_below_500(number: u16) -> Option<&'static str>
    ensures { IfSome result (λ letters. IsTrue (is_alphabetic letters.now)) }
{
    match number {
        400 => Some("JOD"),
        404 => Some("KES"),
        408 => Some("KPW"),
        410 => Some("KRW"),
        414 => Some("KWD"),
        417 => Some("KGS"),
        418 => Some("LAK"),
        422 => Some("LBP"),
        426 => Some("LSL"),
        430 => Some("LRD"),
        434 => Some("LYD"),
        446 => Some("MOP"),
        454 => Some("MWK"),
        458 => Some("MYR"),
        462 => Some("MVR"),
        480 => Some("MUR"),
        484 => Some("MXN"),
        496 => Some("MNT"),
        498 => Some("MDL"),
        _ => None,
    }
}

/// The letters of a number from 500 to 599.
fn letters_below_600(number: u16) -> Option<&'static str>
    ensures { IfSome result (λ letters. IsTrue (is_alphabetic letters.now)) }
{
    match number {
        504 => Some("MAD"),
        512 => Some("OMR"),
        516 => Some("NAD"),
        524 => Some("NPR"),
        532 => Some("XCG"),
        533 => Some("AWG"),
        548 => Some("VUV"),
        554 => Some("NZD"),
        558 => Some("NIO"),
        566 => Some("NGN"),
        578 => Some("NOK"),
        586 => Some("PKR"),
        590 => Some("PAB"),
        598 => Some("PGK"),
        _ => None,
    }
}

/// The letters of a number from 600 to 699.
fn letters_below_700(number: u16) -> Option<&'static str>
    ensures { IfSome result (λ letters. IsTrue (is_alphabetic letters.now)) }
{
    match number {
        600 => Some("PYG"),
        604 => Some("PEN"),
        608 => Some("PHP"),
        634 => Some("QAR"),
        643 => Some("RUB"),
        646 => Some("RWF"),
        654 => Some("SHP"),
        682 => Some("SAR"),
        690 => Some("SCR"),
        _ => None,
    }
}

/// The letters of a number from 700 to 799.
fn letters_below_800(number: u16) -> Option<&'static str>
    ensures { IfSome result (λ letters. IsTrue (is_alphabetic letters.now)) }
{
    match number {
        702 => Some("SGD"),
        704 => Some("VND"),
        706 => Some("SOS"),
        710 => Some("ZAR"),
        728 => Some("SSP"),
        748 => Some("SZL"),
        752 => Some("SEK"),
        756 => Some("CHF"),
        760 => Some("SYP"),
        764 => Some("THB"),
        776 => Some("TOP"),
        780 => Some("TTD"),
        784 => Some("AED"),
        788 => Some("TND"),
        _ => None,
    }
}

/// The letters of a number from 800 to 899.
fn letters_below_900(number: u16) -> Option<&'static str>
    ensures { IfSome result (λ letters. IsTrue (is_alphabetic letters.now)) }
{
    match number {
        800 => Some("UGX"),
        807 => Some("MKD"),
        818 => Some("EGP"),
        826 => Some("GBP"),
        834 => Some("TZS"),
        840 => Some("USD"),
        858 => Some("UYU"),
        860 => Some("UZS"),
        882 => Some("WST"),
        886 => Some("YER"),
        _ => None,
    }
}

/// The letters of a number from 900 to 949.
fn letters_below_950(number: u16) -> Option<&'static str>
    ensures { IfSome result (λ letters. IsTrue (is_alphabetic letters.now)) }
{
    match number {
        901 => Some("TWD"),
        924 => Some("ZWG"),
        925 => Some("SLE"),
        926 => Some("VED"),
        927 => Some("UYW"),
        928 => Some("VES"),
        929 => Some("MRU"),
        930 => Some("STN"),
        933 => Some("BYN"),
        934 => Some("TMT"),
        936 => Some("GHS"),
        938 => Some("SDG"),
        940 => Some("UYI"),
        941 => Some("RSD"),
        943 => Some("MZN"),
        944 => Some("AZN"),
        946 => Some("RON"),
        947 => Some("CHE"),
        948 => Some("CHW"),
        949 => Some("TRY"),
        _ => None,
    }
}

/// The letters of a number from 950 to 969.
fn letters_below_970(number: u16) -> Option<&'static str>
    ensures { IfSome result (λ letters. IsTrue (is_alphabetic letters.now)) }
{
    match number {
        950 => Some("XAF"),
        951 => Some("XCD"),
        952 => Some("XOF"),
        953 => Some("XPF"),
        955 => Some("XBA"),
        956 => Some("XBB"),
        957 => Some("XBC"),
        958 => Some("XBD"),
        959 => Some("XAU"),
        960 => Some("XDR"),
        961 => Some("XAG"),
        962 => Some("XPT"),
        963 => Some("XTS"),
        964 => Some("XPD"),
        965 => Some("XUA"),
        967 => Some("ZMW"),
        968 => Some("SRD"),
        969 => Some("MGA"),
        _ => None,
    }
}

/// The letters of a number from 970 on.
fn letters_from_970(number: u16) -> Option<&'static str>
    ensures { IfSome result (λ letters. IsTrue (is_alphabetic letters.now)) }
{
    match number {
        970 => Some("COU"),
        971 => Some("AFN"),
        972 => Some("TJS"),
        973 => Some("AOA"),
        975 => Some("BGN"),
        976 => Some("CDF"),
        977 => Some("BAM"),
        978 => Some("EUR"),
        979 => Some("MXV"),
        980 => Some("UAH"),
        981 => Some("GEL"),
        984 => Some("BOV"),
        985 => Some("PLN"),
        986 => Some("BRL"),
        990 => Some("CLF"),
        994 => Some("XSU"),
        997 => Some("USN"),
        999 => Some("XXX"),
        _ => None,
    }
}

/// The letters of a number.
fn letters_of(number: u16) -> Option<&'static str>
    ensures { IfSome result (λ letters. IsTrue (is_alphabetic letters.now)) }
{
    match number {
        0..=99 => letters_below_100(number),
        100..=199 => letters_below_200(number),
        200..=299 => letters_below_300(number),
        300..=399 => letters_below_400(number),
        400..=499 => letters_below_500(number),
        500..=599 => letters_below_600(number),
        600..=699 => letters_below_700(number),
        700..=799 => letters_below_800(number),
        800..=899 => letters_below_900(number),
        900..=949 => letters_below_950(number),
        950..=969 => letters_below_970(number),
        _ => letters_from_970(number),
    }
}

/// How many digits stand behind the point in amounts of a number's currency.
fn minor_digits_of(number: u16) -> Option<u8>
    ensures { IfSome result (λ digits. digits ≤ 4) }
{
    match number {
        955..=965 | 994 | 999 => None,
        108
        | 152
        | 262
        | 324
        | 352
        | 392
        | 410
        | 548
        | 600
        | 646
        | 704
        | 800
        | 940
        | 950
        | 952
        | 953
        | 174 => Some(0),
        48 | 368 | 400 | 414 | 434 | 512 | 788 => Some(3),
        927 | 990 => Some(4),
        _ => Some(2),
    }
}

/// The currency of a code of three digits. An unknown code, and any other text, gives none.
pub fn currency_of(code: &[u8]) -> Option<Currency>
    // A currency comes only of three digits, and nothing else.
    ensures digits { IfSome result (λ _. IsTrue (is_three_digits code.now)) }
    // The letters of a currency are three capitals.
    ensures letters { IfSome result (λ found. IsTrue (is_alphabetic found.letters.now)) }
    // A currency that has a number of minor digits has four at most.
    ensures minor { IfSome result (λ found. IfSome found.minor_digits (λ digits. digits ≤ 4)) }
{
    let number = three_digits(code)?;
    Some(Currency {
        letters: letters_of(number)?,
        minor_digits: minor_digits_of(number),
    })
}
