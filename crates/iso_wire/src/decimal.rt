//! Numbers in decimal.

ghost use Rattle.std.specs.Prelude.{◌≡◌, ◌+◌, ◌-◌, ◌/◌, ◌%◌, ◌^◌, ◌<◌, ◌≤◌, ◌⊎◌, ◌∷◌, true, IfSome, Some, None, if◌then◌else◌, length, take, drop};
ghost use Rattle.std.specs.List.{list_all};
ghost use Rattle.iso_parts.specs.Class.{is_digit};
ghost use Rattle.iso_wire.specs.Decimal.{decimal, are_digits, number, number_in};

/// How many decimal digits the number has: one for 0. Takes no memory.
pub fn digits_of(v: u64) -> u8
    // Each number has at least one digit, 0 too.
    ensures some { 1 ≤ result }
    // No number of 64 bits has more than 20 digits.
    ensures most { result ≤ 20 }
    // The number can be written in so many digits.
    ensures fits { v < 10 ^ result }
    // The number can't be written in one digit fewer, unless it has only one.
    ensures least { (result ≡ 1) ⊎ (10 ^ (result - 1) ≤ v) }
{
    match v.checked_ilog10() {
        Some(log) => log as u8 + 1,
        None => 1,
    }
}

/// The two digits of each number below 100, one number after the other.
static PAIRS: [u8; 200] =
    *b"00010203040506070809101112131415161718192021222324252627282930313233343536373839404142434445464748495051525354555657585960616263646566676869707172737475767778798081828384858687888990919293949596979899";

/// Writes the two digits of a number below 100 at a place.
#[inline]
fn write_pair(out: &mut [u8], at: usize, pair: u32)
    requires pair { pair < 100 }
    requires within { at + 2 ≤ length out.old }
    ensures before { take at out.new ≡ take at out.old }
    ensures written { drop at out.new
        ≡ (48 + pair / 10) ∷ (48 + pair % 10) ∷ drop (at + 2) out.old }
{
    let place = pair as usize * 2;
    out[at] = PAIRS[place];
    out[at + 1] = PAIRS[place + 1];
}

/// Writes the last digits where there are at most three places.
fn write_short(out: &mut [u8], v: u64)
    requires { length out.old ≤ 3 }
    ensures { out.new ≡ decimal (length out.old) v }
{
    let (last, before) = (v % 10, v / 10);
    match out.len() {
        0 => {}
        1 => out[0] = b'0' + last as u8,
        2 => write_pair(out, 0, (v % 100) as u32),
        _ => {
            out[2] = b'0' + last as u8;
            write_pair(out, 0, (before % 100) as u32);
        }
    }
}

/// Writes the number's last decimal digits as characters, as many as there are places. Takes no memory.
pub fn write_decimal(out: &mut [u8], v: u64)
    ensures { out.new ≡ decimal (length out.old) v }
{
    let mut rest = v;
    let mut at = out.len();
    while at >= 4 {
        at -= 4;
        let four = (rest % 10_000) as u32;
        rest /= 10_000;
        write_pair(out, at, four / 100);
        write_pair(out, at + 2, four % 100);
    }
    write_short(&mut out[..at], rest);
}

fn is_digit(byte: u8) -> bool
    ensures { result ≡ is_digit byte }
{
    matches!(byte, b'0'..=b'9')
}

fn all_digits(text: &[u8]) -> bool
    ensures { result ≡ list_all is_digit text.now }
{
    text.iter().all(|byte| is_digit(*byte))
}

/// Whether a text is of `least` to `most` decimal digits, and of nothing else. Takes no memory.
pub fn are_digits(text: &[u8], least: usize, most: usize) -> bool
    ensures { result ≡ are_digits least most text.now }
{
    least <= text.len() && text.len() <= most && all_digits(text)
}

/// The number that a text of at most 19 decimal digits writes, 0 where there is none; leading zeros don't count. Takes no
/// memory.
pub fn number(text: &[u8]) -> u64
    // The text has no other characters than decimal digits.
    requires digits { list_all is_digit text.now ≡ true }
    // The text has at most 19 characters.
    requires few { length text.now ≤ 19 }
    // The result is the number that the digits write; leading zeros don't count.
    ensures value { result ≡ number text.now }
    // The result is below ten to the power of the count of digits: below 1,000 for three digits.
    ensures below { result < 10 ^ length text.now }
{
    let mut so_far = 0;
    for byte in text {
        so_far = 10 * so_far + (*byte - b'0') as u64;
    }
    so_far
}

/// The number that a text of at most 19 characters writes, where each is a decimal digit: each is looked at once.
fn number_if_digits(text: &[u8]) -> Option<u64>
    requires { length text.now ≤ 19 }
    ensures value { result ≡ (if list_all is_digit text.now then Some (number text.now) else None) }
    ensures below { IfSome result (λ n. n < 10 ^ length text.now) }
{
    let mut so_far = 0;
    for byte in text {
        if !is_digit(*byte) {
            return None;
        }
        so_far = 10 * so_far + u64::from(*byte - b'0');
    }
    Some(so_far)
}

/// The number that a text of `least` to `most` decimal digits writes; leading zeros don't count. `None` for any other text.
/// Takes no memory.
pub fn number_in(text: &[u8], least: usize, most: usize) -> Option<u64>
    // At most 19 digits may be asked for.
    requires { most ≤ 19 }
    // It is the number that `least` to `most` digits write, and `None` exactly for other texts.
    ensures value { result ≡ number_in least most text.now }
    // A number that is given is below ten to the power of `most`.
    ensures below { IfSome result (λ n. n < 10 ^ most) }
    // A number that is given is below ten to the power of how many digits the text has.
    ensures within { IfSome result (λ n. n < 10 ^ length text.now) }
{
    if text.len() < least || most < text.len() {
        return None;
    }
    number_if_digits(text)
}
