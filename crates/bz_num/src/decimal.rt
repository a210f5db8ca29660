//! Decimals of texts.
ghost use Rattle.std.specs.Prelude.{ℕ, List, ◌≡◌, Ok, Err, IfErr, IfOk};
ghost use Rattle.bz_num.specs.declared.decimal.Dec.{Dec};
ghost use Rattle.bz_num.specs.declared.decimal.NumFault.{NumFault};
ghost use Rattle.bz_num.specs.Decimals.{IsDecimal, IsDecimalText, IsNumFault, IsStop, IsWithinLimits};

use crate::digits::Reading;

/// The number mant * 10^exp.
#[derive(Clone, Copy, Debug, PartialEq, Eq)]
pub struct Dec {
    /// The mantissa, with no zero at its end unless it is 0.
    pub mant: i128,
    /// The exponent.
    pub exp: i32,
}

/// Why a text is not read as a decimal.
#[derive(Clone, Copy, Debug, PartialEq, Eq)]
pub enum NumFault {
    /// It is no decimal.
    Form {
        /// The first offset at which the text stops being the beginning of a decimal, or its
        /// length.
        at: usize,
    },
    /// It is a decimal whose mantissa is 10^30 or more in size, or whose exponent is not from -30
    /// to 30.
    TooWide,
}

/// The decimal that the text spells: an optional sign, digits with an optional point among them,
/// and an optional power of ten behind one of `e E d D`. Zeros at the end of the mantissa are moved
/// to the exponent, and zero has exponent 0.
pub fn read_decimal(text: &[u8]) -> Result<Dec, NumFault>
    ensures spelled { IfOk result (IsDecimal text.now) }
    ensures within { IfOk result IsWithinLimits }
    ensures fault { IfErr result (IsNumFault text.now) }
    ensures read { (d : Dec) → IsDecimal text.now d → IsWithinLimits d → result ≡ Ok d }
    ensures refused { (fault : NumFault) → IsNumFault text.now fault → result ≡ Err fault }
{
    let mut reading = Reading::new();
    for (at, byte) in text.iter().enumerate() {
        reading = match reading.push(*byte) {
            Some(more) => more,
            None => return Err(NumFault::Form { at }),
        };
    }
    reading.end(text.len())
}

/// A text that is a decimal has one value, and one that is none stops being the beginning of one
/// at one place. Nothing runs.
pub fn decimals_have_one_value()
    ensures some { (text : List ℕ) → IsDecimalText text → (d : Dec) × IsDecimal text d }
    ensures same { (text : List ℕ) (d e : Dec) → IsDecimal text d → IsDecimal text e → d ≡ e }
    ensures stop { (text : List ℕ) (i j : ℕ) → IsStop text i → IsStop text j → i ≡ j }
{}
