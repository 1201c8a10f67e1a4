ghost use Rattle.std.specs.Prelude.{◌<◌};
ghost use Rattle.naive_mode.specs.Forms.{IsFormOf};

/// A function of two bits `x` and `y` by at most one product.
#[derive(Clone, Copy, Debug, PartialEq, Eq)]
pub enum TwoForm {
    /// `((x ^ alpha) & (y ^ beta)) ^ gamma`
    Product {
        alpha: bool,
        beta: bool,
        gamma: bool,
    },
    /// `(x & alpha) ^ (y & beta) ^ gamma`
    Affine {
        alpha: bool,
        beta: bool,
        gamma: bool,
    },
}

/// The form of a function of two bits, where bit `2x + y` of the code is its value.
pub fn two_form(code: u8) -> TwoForm
    requires { code < 16 }
    ensures { IsFormOf code result }
{
    macro_rules! product {
        ($alpha:literal, $beta:literal, $gamma:literal) => {
            TwoForm::Product {
                alpha: $alpha,
                beta: $beta,
                gamma: $gamma,
            }
        };
    }
    macro_rules! affine {
        ($alpha:literal, $beta:literal, $gamma:literal) => {
            TwoForm::Affine {
                alpha: $alpha,
                beta: $beta,
                gamma: $gamma,
            }
        };
    }
    match code {
        0 => affine!(false, false, false),
        1 => product!(true, true, false),
        2 => product!(true, false, false),
        3 => affine!(true, false, true),
        4 => product!(false, true, false),
        5 => affine!(false, true, true),
        6 => affine!(true, true, false),
        7 => product!(false, false, true),
        8 => product!(false, false, false),
        9 => affine!(true, true, true),
        10 => affine!(false, true, false),
        11 => product!(false, true, true),
        12 => affine!(true, false, false),
        13 => product!(true, false, true),
        14 => product!(true, true, true),
        15 => affine!(false, false, true),
        _ => unreachable!(),
    }
}
