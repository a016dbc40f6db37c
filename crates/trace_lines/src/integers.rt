//! The integer that a number of JSON is.

ghost use Rattle.std.specs.Prelude.{◌≡◌, ◌<◌, ◌==◌, true, false, Some, IfSome, IsTrue, length, slice_index};
ghost use Rattle.std.specs.Prelude.{option_and_then};
ghost use Rattle.serde_json.specs.Find.{as_i64};
ghost use Rattle.serde_json.specs.Read.{number_of, number_from};

use fast_float::Numeral;

fn has_minus(bytes: &[u8]) -> bool
    ensures value { result ≡ (slice_index bytes.now 0 == 45) }
    ensures within { IsTrue result → 0 < length bytes.now }
{
    !bytes.is_empty() && bytes[0] == b'-'
}

// The integer of these digits, where they are an integer that fits.
fn not_negative(numeral: &Numeral<'_>) -> Option<i64>
    ensures { IfSome result (λ z. option_and_then as_i64 (number_from false numeral.now) ≡ Some z) }
{
    i64::try_from(numeral.to_u64()?).ok()
}

// The integer below zero of these digits, where they are an integer that fits.
fn negative(numeral: &Numeral<'_>) -> Option<i64>
    ensures { IfSome result (λ z. option_and_then as_i64 (number_from true numeral.now) ≡ Some z) }
{
    let integer = numeral.to_i64(true)?;
    if integer < 0 {
        return Some(integer);
    }
    None
}

/// The integer that the text of a number of JSON is, where it has no point and no exponent.
pub(crate) fn integer_of(text: &str) -> Option<i64>
    ensures { IfSome result (λ z. option_and_then as_i64 (number_of text.now) ≡ Some z) }
{
    let bytes = text.as_bytes();
    if has_minus(bytes) {
        negative(&Numeral::scan(&bytes[1..]))
    } else {
        not_negative(&Numeral::scan(bytes))
    }
}
