//! Division by a number that is known not to be 0.

ghost use Rattle.std.specs.Prelude.{◌<◌, unsigned_abs};

/// What a division divides by: an integer that is not 0.
#[derive(Clone, Copy, PartialEq, Eq)]
pub struct Divisor {
    number: i32,
    ghost not_zero: { 0 < unsigned_abs number },
}

impl Divisor {
    ghost use Rattle.std.specs.Prelude.{◌≡◌};
    ghost use Rattle.std.specs.Int.{int_wrap, w32};
    ghost use Rattle.sc_values.specs.Division.{divisor_of, quotient, remainder};

    /// The divisor that a number is. None: the number is 0.
    pub fn of(number: i32) -> Option<Divisor>
        ensures { result ≡ divisor_of number }
    {
        if number == 0 {
            None
        } else {
            Some(Divisor { number })
        }
    }

    /// The number.
    pub fn number(self) -> i32
        ensures { result ≡ self.number }
    {
        self.number
    }

    /// The quotient of a number by it, rounded towards 0. It wraps: -2147483648 by -1 is -2147483648.
    pub fn quotient_of(self, dividend: i32) -> i32
        ensures { result ≡ int_wrap w32 (quotient dividend self) }
    {
        dividend.wrapping_div(self.number)
    }

    /// What that quotient leaves of a number: 0, or of the number's sign.
    pub fn remainder_of(self, dividend: i32) -> i32
        ensures { result ≡ int_wrap w32 (remainder dividend self) }
    {
        dividend.wrapping_rem(self.number)
    }
}
