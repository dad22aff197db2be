//! The status of a call.

ghost use Rattle.std.specs.Prelude.{◌≡◌, ◌≤◌};

use std::marker::Model;

/// How a call ended: a number from 0 to 8.
#[derive(Clone, Copy, Debug, PartialEq, Eq)]
pub struct Status {
    code: u8,
}

impl Model for Status {
    ghost use Rattle.std.specs.Prelude.{ℕ, ◌≤◌};

    ghost Value = { ℕ };

    ghost view = { λ s. s.code };

    ghost invariant = { λ s. s.code ≤ 8 };

    ghost inverse = { λ n. record { code = n } };
}

impl Status {
    /// The status of this number.
    pub fn new(code: u8) -> Status
        requires { code ≤ 8 }
        ensures { result ≡ code }
    {
        Status { code }
    }

    /// The number of the status.
    pub fn code(&self) -> u8
        ensures value { result ≡ self.now }
        ensures range { result ≤ 8 }
    {
        self.code
    }
}
