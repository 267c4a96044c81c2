use std::marker::Model;

/// The identifier of a card authorisation: 15 ASCII digits.
#[derive(Clone, Copy, Debug, PartialEq, Eq)]
pub struct AuthId {
    digits: [u8; 15],
}

impl Model for AuthId {
    ghost use Rattle.std.specs.Prelude.{ℕ, List};
    ghost use Rattle.shop_model.specs.rows.AuthIds.{IsAuthId};

    ghost Value = { List ℕ };

    ghost view = { λ i. i.digits };

    ghost inverse = { λ digits. record { digits = digits } };

    ghost invariant = { λ i. IsAuthId i.digits };
}

impl AuthId {
    ghost use Rattle.std.specs.Prelude.{◌≡◌, ◌<◌, ◌^◌};
    ghost use Rattle.shop_text.specs.Escape.{escape};
    ghost use Rattle.shop_model.specs.rows.AuthIds as spec;

    /// The digits of a number, with leading zeros.
    pub fn of(number: u64) -> AuthId
        requires { number < 10 ^ 15 }
        ensures { result ≡ spec.digits 15 number }
    {
        let mut digits = [b'0'; 15];
        let mut rest = number;
        let mut place = 15;
        while place > 0 {
            place -= 1;
            digits[place] = b'0' + (rest % 10) as u8;
            rest /= 10;
        }
        AuthId { digits }
    }

    /// The ASCII codes of the digits.
    pub fn bytes(&self) -> &[u8]
        ensures value { result.now ≡ self.now }
        ensures form { spec.IsAuthId self.now }
        ensures plain { escape result.now ≡ result.now }
    {
        &self.digits
    }
}
