//! What was read of a decimal, byte by byte.
ghost use Rattle.std.specs.Prelude.{◌≡◌, ◌+◌, ◌*◌, ◌^◌, ◌<◌, SomeIff};
ghost use Rattle.std.specs.Option.{ForSome};
ghost use Rattle.bz_num.specs.DecimalSteps.{capped, end_of, exponent_of, kind_of as kind_at, pushed, read_on, signed_as, start, value_of, with_part, with_power, with_power_sign, with_sign, with_state, with_whole};

use crate::decimal::{Dec, NumFault};

/// What a byte may be in a decimal.
#[derive(Clone, Copy)]
enum Kind {
    /// The value of a digit.
    Digit(u8),
    /// Whether the sign is a minus.
    PlusMinus(bool),
    Point,
    Mark,
}

fn kind_of(byte: u8) -> Option<Kind>
    ensures { result ≡ kind_at byte }
{
    match byte {
        b'0'..=b'9' => Some(Kind::Digit(byte - b'0')),
        b'+' => Some(Kind::PlusMinus(false)),
        b'-' => Some(Kind::PlusMinus(true)),
        b'.' => Some(Kind::Point),
        b'e' | b'E' | b'd' | b'D' => Some(Kind::Mark),
        _ => None,
    }
}

/// What stands last of what was read.
#[derive(Clone, Copy)]
enum State {
    Start,
    Signed,
    /// A digit before the point.
    Whole,
    /// A point with no digit before it.
    Pointed,
    /// A digit behind the point, or a point with a digit before it.
    Part,
    Marked,
    MarkSigned,
    /// A digit behind the mark.
    Powered,
}

/// The least mantissa that is too wide.
const WIDE: u128 = 1_000_000_000_000_000_000_000_000_000_000;

/// A power so large that no number of digits makes up for it.
const FAR: u128 = 100_000_000_000_000_000_000;

/// The number of some digits: `number` times 10^zeros, where `number` is none if it is too wide.
#[derive(Clone, Copy)]
struct Mantissa {
    number: Option<u128>,
    zeros: usize,
}

/// The number with so many zeros and the digit behind it, if it is not too wide.
fn shifted(number: u128, zeros: usize, digit: u8) -> Option<u128>
    ensures { SomeIff result (number * 10 ^ (zeros + 1) + digit < 10 ^ 30) (number * 10 ^ (zeros + 1) + digit) }
{
    if number == 0 {
        return Some(u128::from(digit));
    }
    if zeros >= 30 {
        return None;
    }
    let power = 10_u128.pow(zeros as u32 + 1);
    let more = number.checked_mul(power)?.checked_add(u128::from(digit))?;
    if more < WIDE { Some(more) } else { None }
}

impl Mantissa {
    /// The number with one more digit.
    fn push(self, digit: u8) -> Mantissa
        requires { self.zeros + 1 < 2 ^ 64 }
        ensures { result ≡ pushed self digit }
    {
        if digit == 0 {
            return Mantissa {
                number: self.number,
                zeros: self.zeros + 1,
            };
        }
        let number = match self.number {
            Some(number) => shifted(number, self.zeros, digit),
            None => None,
        };
        Mantissa { number, zeros: 0 }
    }
}

/// The power with one more digit, or `FAR` where it is larger.
fn push_power(power: u128, digit: u8) -> u128
    requires power { power < 2 ^ 100 }
    ensures { result ≡ capped (10 * power + digit) }
{
    let more = 10 * power + u128::from(digit);
    if more < FAR { more } else { FAR }
}

/// The number with its sign.
fn signed(minus: bool, number: u128) -> i128
    requires { number < 2 ^ 127 }
    ensures { result ≡ signed_as minus number }
{
    if minus {
        -(number as i128)
    } else {
        number as i128
    }
}

/// What was read of a decimal.
#[derive(Clone, Copy)]
pub(crate) struct Reading {
    state: State,
    minus: bool,
    mantissa: Mantissa,
    /// The number of digits behind the point.
    places: usize,
    power_minus: bool,
    power: u128,
}

impl Reading {
    /// Nothing was read.
    pub(crate) fn new() -> Reading
        ensures { result ≡ start }
    {
        Reading {
            state: State::Start,
            minus: false,
            mantissa: Mantissa {
                number: Some(0),
                zeros: 0,
            },
            places: 0,
            power_minus: false,
            power: 0,
        }
    }

    /// What was read, in another state.
    fn in_state(self, state: State) -> Reading
        ensures { result ≡ with_state state self }
    {
        Reading { state, ..self }
    }

    /// What was read with one more digit before the point.
    fn with_whole(self, digit: u8) -> Reading
        requires { self.mantissa.zeros + 1 < 2 ^ 64 }
        ensures { result ≡ with_whole digit self }
    {
        Reading {
            state: State::Whole,
            mantissa: self.mantissa.push(digit),
            ..self
        }
    }

    /// What was read with one more digit behind the point.
    fn with_part(self, digit: u8) -> Reading
        requires zeros { self.mantissa.zeros + 1 < 2 ^ 64 }
        requires places { self.places + 1 < 2 ^ 64 }
        ensures { result ≡ with_part digit self }
    {
        Reading {
            state: State::Part,
            mantissa: self.mantissa.push(digit),
            places: self.places + 1,
            ..self
        }
    }

    /// What was read with one more digit behind the mark.
    fn with_power(self, digit: u8) -> Reading
        requires { self.power < 2 ^ 100 }
        ensures { result ≡ with_power digit self }
    {
        Reading {
            state: State::Powered,
            power: push_power(self.power, digit),
            ..self
        }
    }

    /// What was read with a sign.
    fn with_sign(self, minus: bool) -> Reading
        ensures { result ≡ with_sign minus self }
    {
        Reading {
            state: State::Signed,
            minus,
            ..self
        }
    }

    /// What was read with a sign behind the mark.
    fn with_power_sign(self, minus: bool) -> Reading
        ensures { result ≡ with_power_sign minus self }
    {
        Reading {
            state: State::MarkSigned,
            power_minus: minus,
            ..self
        }
    }

    /// What was read with one more byte, where some decimal goes on so.
    pub(crate) fn push(self, byte: u8) -> Option<Reading>
        requires zeros { self.mantissa.zeros + 1 < 2 ^ 64 }
        requires places { self.places + 1 < 2 ^ 64 }
        requires power { self.power < 2 ^ 100 }
        ensures { result ≡ read_on self (kind_at byte) }
    {
        use State::{MarkSigned, Marked, Part, Pointed, Powered, Signed, Start, Whole};
        let more = match (kind_of(byte)?, self.state) {
            (Kind::Digit(digit), Start | Signed | Whole) => self.with_whole(digit),
            (Kind::Digit(digit), Pointed | Part) => self.with_part(digit),
            (Kind::Digit(digit), Marked | MarkSigned | Powered) => self.with_power(digit),
            (Kind::PlusMinus(minus), Start) => self.with_sign(minus),
            (Kind::PlusMinus(minus), Marked) => self.with_power_sign(minus),
            (Kind::Point, Start | Signed) => self.in_state(Pointed),
            (Kind::Point, Whole) => self.in_state(Part),
            (Kind::Mark, Whole | Part) => self.in_state(Marked),
            _ => return None,
        };
        Some(more)
    }

    /// The exponent of the mantissa without its zeros.
    fn exponent(self) -> i128
        requires { self.power < 2 ^ 100 }
        ensures { result ≡ exponent_of self }
    {
        signed(self.power_minus, self.power) - self.places as i128 + self.mantissa.zeros as i128
    }

    /// The decimal, if it is not too wide.
    fn value(self) -> Result<Dec, NumFault>
        requires number { ForSome self.mantissa.number (λ n. n < 10 ^ 30) }
        requires power { self.power < 2 ^ 100 }
        ensures { result ≡ value_of self }
    {
        let Some(number) = self.mantissa.number else {
            return Err(NumFault::TooWide);
        };
        if number == 0 {
            return Ok(Dec { mant: 0, exp: 0 });
        }
        let exp = self.exponent();
        if exp.unsigned_abs() > 30 {
            return Err(NumFault::TooWide);
        }
        Ok(Dec {
            mant: signed(self.minus, number),
            exp: exp as i32,
        })
    }

    /// The decimal of a text of that length, of which all was read.
    pub(crate) fn end(self, length: usize) -> Result<Dec, NumFault>
        requires number { ForSome self.mantissa.number (λ n. n < 10 ^ 30) }
        requires power { self.power < 2 ^ 100 }
        ensures { result ≡ end_of self length }
    {
        match self.state {
            State::Whole | State::Part | State::Powered => self.value(),
            _ => Err(NumFault::Form { at: length }),
        }
    }
}
