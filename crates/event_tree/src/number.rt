// Decimal numbers in least form: a mantissa and a scale.
ghost use Rattle.std.specs.Prelude.{◌≡◌, ◌≢◌, ◌<◌, ◌≤◌, ◌%◌, ◌^◌, length, if◌then◌else◌};
ghost use Rattle.event_tree.specs.Number.{Num, IsLeast, least};
ghost use Rattle.event_tree.specs.NumberTexts.{AreDigits, NumberReads, ValueReads, Shifts, digit_count, numeral, signed, most};
ghost use Rattle.event_tree.specs.DecimalViews.{as_decimal};

use crate::decimal::{Digits, digits_of};
use crate::significand::{number_behind, number_of, raised, trimmed};
use std::marker::Model;

/// A decimal number in least form: `mantissa` divided by ten `scale` times.
///
/// The scale is at most 18, and the mantissa has no trailing zero unless the scale is 0. So equal
/// numbers have equal parts, and no floating point is used.
#[derive(Clone, Copy, Debug, PartialEq, Eq)]
pub struct Number {
    mantissa: i64,
    scale: u8,
}

impl Model for Number {
    ghost use Rattle.event_tree.specs.Number.{Num, num_code, IsLeast};

    ghost Value = { Num };

    ghost coded = { num_code };

    ghost view = { λ a. record { mantissa = a.mantissa; scale = a.scale } };

    ghost invariant = { λ a. IsLeast a.mantissa a.scale };

    ghost inverse = { λ d. record { mantissa = d.mantissa; scale = d.scale } };
}

impl Number {
    /// `mantissa` divided by ten `scale` times; none exactly where its least form has more than 18
    /// places.
    pub fn new(mantissa: i64, scale: u8) -> Option<Number>
        ensures { result ≡ least mantissa scale }
    {
        let mut digits = mantissa;
        let mut places = scale;
        while places > 0 && digits % 10 == 0 {
            digits /= 10;
            places -= 1;
        }
        if places <= 18 {
            Some(Number {
                mantissa: digits,
                scale: places,
            })
        } else {
            None
        }
    }

    /// The number that a text of JSON writes (RFC 8259, section 6). It is none exactly where the text
    /// is no such number, or where no least form of 64 bits with at most 18 places has its value. It
    /// takes no memory.
    pub fn read(text: &str) -> Option<Number>
        ensures { NumberReads result text.now }
    {
        match digits_of(text.as_bytes()) {
            Some(digits) => value_of(&digits),
            None => None,
        }
    }

    /// The number with these digits before the point and behind it, each from `0` to `9`. It is none
    /// exactly where more than 18 stand behind the point, or where all of them write a number beyond
    /// 64 bits. It takes no memory.
    pub fn from_digits(negative: bool, whole: &[u8], places: &[u8]) -> Option<Number>
        requires whole { AreDigits whole.now }
        requires places { AreDigits places.now }
        ensures { result ≡ numeral negative whole.now places.now }
    {
        if places.len() > 18 {
            return None;
        }
        match number_of(whole, places, most_digits(negative)) {
            Some(digits) => Number::new(mantissa_of(negative, digits), places.len() as u8),
            None => None,
        }
    }

    /// The digits, with the sign.
    pub fn mantissa(&self) -> i64
        ensures { result ≡ self.now.mantissa }
    {
        self.mantissa
    }

    /// How many of the digits stand behind the point: at most 18.
    pub fn scale(&self) -> u8
        ensures value { result ≡ self.now.scale }
        ensures least { IsLeast self.now.mantissa self.now.scale }
    {
        self.scale
    }
}

// How large an exponent may be that is not out of reach of any other digits of a text.
const MOST_EXPONENT: u128 = 1 << 100;

// How large the digits of a number may be.
fn most_digits(negative: bool) -> u128
    ensures { result ≡ most negative }
{
    if negative {
        9_223_372_036_854_775_808
    } else {
        9_223_372_036_854_775_807
    }
}

// The digits with a sign.
fn mantissa_of(negative: bool, digits: u128) -> i64
    requires { digits ≤ most negative }
    ensures { result ≡ signed negative digits }
{
    let value = digits as i128;
    let value = if negative { -value } else { value };
    value as i64
}

// The number with these digits and this sign, times ten to the power `up` and divided by ten to the
// power `down`.
fn shifted(negative: bool, digits: u128, up: u128, down: u128) -> Option<Number>
    requires fits { digits ≤ most negative }
    requires trimmed { digits % 10 ≢ 0 }
    ensures { Shifts result negative digits up down }
{
    if down <= up {
        match raised(digits, up - down, most_digits(negative)) {
            Some(digits) => Some(with_sign(negative, digits, 0)),
            None => None,
        }
    } else if down - up <= 18 {
        Some(with_sign(negative, digits, (down - up) as u8))
    } else {
        None
    }
}

// The value of a decimal.
fn value_of(digits: &Digits) -> Option<Number>
    requires whole { AreDigits digits.now.whole.now }
    requires fraction { AreDigits digits.now.fraction.now }
    ensures { ValueReads result (as_decimal digits.now) }
{
    let (whole, fraction) = trimmed(digits.whole, digits.fraction);
    let Some(value) = number_of(whole, fraction, most_digits(digits.negative)) else {
        return None;
    };
    if value == 0 {
        return Some(with_sign(digits.negative, 0, 0));
    }
    let Some(exponent) = number_behind(0, digits.exponent, MOST_EXPONENT) else {
        return None;
    };
    let (raise, lower) = exponents(digits.lower, exponent);
    let zeros = count_of(digits.whole, digits.fraction) - count_of(whole, fraction);
    let places = digits.fraction.len() as u128;
    shifted(digits.negative, value, zeros + raise, places + lower)
}

// How many digits stand before the point and behind it.
fn count_of(whole: &[u8], fraction: &[u8]) -> u128
    ensures same { result ≡ digit_count whole.now fraction.now }
    ensures small { result < 2 ^ 65 }
{
    whole.len() as u128 + fraction.len() as u128
}

// By how many powers of ten an exponent raises a number, and by how many it lowers it.
fn exponents(lower: bool, exponent: u128) -> (u128, u128)
    ensures raised { result.0 ≡ (if lower then 0 else exponent) }
    ensures lowered { result.1 ≡ (if lower then exponent else 0) }
{
    if lower { (0, exponent) } else { (exponent, 0) }
}

// The number with these digits, this sign and so many places.
fn with_sign(negative: bool, value: u128, places: u8) -> Number
    requires fits { value ≤ most negative }
    requires few { places ≤ 18 }
    requires trimmed { 0 < places → value % 10 ≢ 0 }
    ensures mantissa { result.mantissa ≡ signed negative value }
    ensures scale { result.scale ≡ places }
{
    Number {
        mantissa: mantissa_of(negative, value),
        scale: places,
    }
}
