//! One term of a polynomial, as it is read: its sign, and the digits of its size and of its degree.
ghost use Rattle.std.specs.Prelude.{◌≡◌, ◌+◌, ◌-◌, ◌<◌, ◌≤◌, ◌^◌, ◌↔◌, ◌∷◌, true, min, nat_lt, length, drop, IsTrue};
ghost use Rattle.std.specs.Prelude.{MatchOption, FitsSigned};
ghost use Rattle.std.specs.Int.{w64};
ghost use Rattle.std.specs.List.{position_or_len};
ghost use Rattle.std.specs.Char.{is_ascii_digit};
ghost use Rattle.cox_polyread.specs.ReadNumerals.{value_of, is_numeral, is_short_numeral};
ghost use Rattle.cox_polyread.specs.PolynomialReading.{is_sign, is_q, signed, IsSigned, IsNoSigned, IsPower, IsNoPower, IsSize, IsNoSize};
ghost use Rattle.cox_polyread.specs.PolynomialReading.{IsUnsigned, IsNoUnsigned, IsTerm, IsNoTerm};

// A term as it is written: whether a minus stands before it, the digits of its size, and those of its degree, none for 0.
#[derive(Clone, Copy)]
pub(crate) struct Term<'a> {
    pub(crate) negative: bool,
    pub(crate) size: &'a [u8],
    pub(crate) degree: &'a [u8],
}

// How many bytes stand before the first sign.
fn before_sign(bytes: &[u8]) -> usize
    ensures count { result ≡ position_or_len is_sign bytes.now }
    ensures within { result ≤ length bytes.now }
{
    bytes
        .iter()
        .take_while(|&&byte| byte != b'+' && byte != b'-')
        .count()
}

// How many bytes stand before the power.
fn before_power(bytes: &[u8]) -> usize
    ensures count { result ≡ position_or_len is_q bytes.now }
    ensures within { result ≤ length bytes.now }
{
    bytes.iter().take_while(|&&byte| byte != b'q').count()
}

// How long the first term is: it ends before the first sign behind its first byte.
pub(crate) fn term_len(rest: &[u8]) -> usize
    requires { 0 < length rest.now }
    ensures count { result ≡ 1 + position_or_len is_sign (drop 1 rest.now) }
    ensures within { result ≤ length rest.now }
{
    1 + before_sign(&rest[1..])
}

// Whether the digits are those of a number above 0, without leading zeros.
fn is_numeral(digits: &[u8]) -> bool
    ensures { result ≡ is_numeral digits.now }
{
    if digits.is_empty() || digits[0] == b'0' {
        return false;
    }
    for &digit in digits {
        if !digit.is_ascii_digit() {
            return false;
        }
    }
    true
}

// Whether the digits are those of 1.
fn is_one(digits: &[u8]) -> bool
    requires { is_numeral digits.now ≡ true }
    ensures { IsTrue result ↔ (value_of digits.now ≡ 1) }
{
    digits.len() == 1 && digits[0] == b'1'
}

// The digits of the degree of a power.
fn read_power(power: &[u8]) -> Option<&[u8]>
    ensures { MatchOption result (IsNoPower power.now) (λ degree. IsPower degree.now power.now) }
{
    if power.is_empty() {
        return Some(power);
    }
    if power.len() == 1 {
        return if power[0] == b'q' { Some(b"1") } else { None };
    }
    let digits = &power[2..];
    if power[0] != b'q' || power[1] != b'^' {
        return None;
    }
    if !is_numeral(digits) || is_one(digits) {
        return None;
    }
    Some(digits)
}

// The digits of the size of a coefficient, before a power or alone.
fn read_size(has_power: bool, text: &[u8]) -> Option<&[u8]>
    ensures { MatchOption result (IsNoSize has_power text.now) (λ size. IsSize has_power size.now text.now) }
{
    if text.is_empty() {
        return if has_power { Some(b"1") } else { None };
    }
    if !is_numeral(text) || (has_power && is_one(text)) {
        return None;
    }
    Some(text)
}

// A term without its sign.
fn read_unsigned(text: &[u8]) -> Option<(&[u8], &[u8])>
    ensures { MatchOption result (IsNoUnsigned text.now) (λ digits. IsUnsigned digits.0.now digits.1.now text.now) }
{
    let (size_text, power) = text.split_at(before_power(text));
    let degree = read_power(power)?;
    let size = read_size(!power.is_empty(), size_text)?;
    Some((size, degree))
}

// Whether the text begins with this byte.
fn begins_with(text: &[u8], byte: u8) -> bool
    ensures { IsTrue result ↔ (text.now ≡ byte ∷ drop 1 text.now) }
{
    !text.is_empty() && text[0] == byte
}

// Whether a term has a minus, and what stands behind its sign; a term after the first has one.
fn read_sign(first: bool, text: &[u8]) -> Option<(bool, &[u8])>
    ensures { MatchOption result (IsNoSigned first text.now) (λ parts. IsSigned first parts.0 parts.1.now text.now) }
{
    if begins_with(text, b'-') {
        return Some((true, &text[1..]));
    }
    if first {
        return Some((false, text));
    }
    if begins_with(text, b'+') {
        return Some((false, &text[1..]));
    }
    None
}

// A term, the first or one after it.
pub(crate) fn read_term(first: bool, text: &[u8]) -> Option<Term<'_>>
    ensures { MatchOption result (IsNoTerm first text.now) (λ t. IsTerm first t.negative t.size.now t.degree.now text.now) }
{
    let (negative, unsigned) = read_sign(first, text)?;
    let (size, degree) = read_unsigned(unsigned)?;
    Some(Term {
        negative,
        size,
        degree,
    })
}

// Whether the first number is below the second.
pub(crate) fn is_below(a: &[u8], b: &[u8]) -> bool
    requires a { is_short_numeral a.now ≡ true }
    requires b { is_short_numeral b.now ≡ true }
    ensures { result ≡ nat_lt (value_of a.now) (value_of b.now) }
{
    if a.len() != b.len() {
        return a.len() < b.len();
    }
    for (i, x) in a.iter().enumerate() {
        if *x != b[i] {
            return *x < b[i];
        }
    }
    false
}

// The number with these digits, or the greatest of 64 bits where it is above that.
fn capped(digits: &[u8]) -> u64
    ensures { result ≡ min (value_of digits.now) (2 ^ 64 - 1) }
{
    let mut value: u64 = 0;
    for digit in digits {
        let last = digit.saturating_sub(b'0');
        value = value.saturating_mul(10).saturating_add(u64::from(last));
    }
    value
}

// The degree with these digits, if it is at most this.
pub(crate) fn degree_within(digits: &[u8], most: u32) -> Option<u32>
    ensures { MatchOption result (most < value_of digits.now) (λ degree. (degree ≡ value_of digits.now) × (degree ≤ most)) }
{
    let degree = capped(digits);
    if degree <= u64::from(most) {
        Some(degree as u32)
    } else {
        None
    }
}

// The coefficient with this sign and a size of these digits, if it has 64 bits.
pub(crate) fn coefficient_of(negative: bool, digits: &[u8]) -> Option<i64>
    ensures { MatchOption result (¬ FitsSigned w64 (signed negative (value_of digits.now)))
        (λ c. c ≡ signed negative (value_of digits.now)) }
{
    let size = i128::from(capped(digits));
    i64::try_from(if negative { -size } else { size }).ok()
}
