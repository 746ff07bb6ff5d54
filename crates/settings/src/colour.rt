// A colour: lift, gamma and gain, each a signed count of 65,536ths.
ghost use Rattle.std.specs.Prelude.{◌^◌, ◌<◌};
ghost use Rattle.std.specs.Int.Signed.{mag};

use std::fmt;

#[derive(Clone, Copy, PartialEq, Eq, Debug)]
pub struct Colour {
    pub lift: i32,
    pub gamma: i32,
    pub gain: i32,
    // each number is from -2^31 to 2^31 - 1: `mag` of n is n, and of -n it is n - 1
    ghost lift_fits: { mag lift < 2 ^ 31 },
    ghost gamma_fits: { mag gamma < 2 ^ 31 },
    ghost gain_fits: { mag gain < 2 ^ 31 },
}

/// The three numbers in decimal digits.
impl fmt::Display for Colour {
    ghost use Rattle.std.specs.Prelude.{Some};
    ghost use Rattle.settings.specs.Words.{colour_words};

    ghost output = { λ c. Some (colour_words c) };

    fn fmt<W: fmt::Write>(&self, f: &mut fmt::Formatter<W>) -> fmt::Result {
        write!(f, "{} {} {}", self.lift, self.gamma, self.gain)
    }
}
