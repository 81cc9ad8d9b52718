//! The numbers of a derivation's text.

ghost use Rattle.std.specs.Prelude.{◌≡◌, ◌+◌, ◌*◌, ◌<◌, ◌≤◌, ◌&&◌, ◌||◌, ◌==◌, nat_le, not, Some, None, if◌then◌else◌};
ghost use Rattle.fy_read.specs.Steps.{least, greatest};

/// What a number counts.
#[derive(Clone, Copy, PartialEq, Eq, Debug)]
pub enum Counted {
    /// The derivations of a meet.
    Members,
    /// The alternatives of an abstraction before the one that is meant.
    Alternatives,
    /// The premises of a rule.
    Premises,
}

impl Counted {
    /// The least number.
    pub fn least(self) -> u32
        ensures { result ≡ least self }
    {
        match self {
            Counted::Members => 2,
            Counted::Alternatives | Counted::Premises => 0,
        }
    }

    /// The greatest number.
    pub fn greatest(self) -> u32
        ensures { result ≡ greatest self }
    {
        match self {
            Counted::Members | Counted::Premises => 65536,
            Counted::Alternatives => u32::MAX,
        }
    }

    /// Whether the number is within its bounds.
    pub fn takes(self, value: u32) -> bool
        ensures { result ≡ (nat_le (least self) value && nat_le value (greatest self)) }
    {
        self.least() <= value && value <= self.greatest()
    }

    /// The number that begins with the digit, where some number does.
    pub fn begun(self, digit: u8) -> Option<u32>
        ensures { result ≡ (if (digit == 0) && not (least self == 0) then None else Some digit) }
    {
        if digit == 0 && self.least() != 0 {
            return None;
        }
        Some(digit as u32)
    }

    /// The number with one more digit, where it is no greater than the greatest. No digit follows a leading zero.
    pub fn with_digit(self, value: u32, digit: u8) -> Option<u32>
        requires { digit < 10 }
        ensures { result ≡ (if (value == 0) || not (nat_le (10 * value + digit) (greatest self)) then None else Some (10 * value + digit)) }
    {
        let digit = digit as u32;
        if value == 0 || value > (self.greatest() - digit) / 10 {
            return None;
        }
        Some(10 * value + digit)
    }
}
