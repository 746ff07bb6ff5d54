// Two suites offer a message each, and one of the messages is agreed: which one that is on either line, and what the line
// leaves of the bytes that it was handed, known from the contracts of the calls alone.
ghost use Rattle.std.specs.Prelude.{◌≡◌, ◌∷◌, drop, Ok};
ghost use Rattle.lines.specs.Places.{rest};

use lines::first_come::FirstCome;
use lines::line::Line;
use lines::turn::Turn;
use refusals::Refusal;

/// Suite 3 offers `3a` and then suite 1 `1a`, on a first-come line of two places over two bytes more: `3a` is agreed.
#[tactic(auto, using(crate::proofs::TwoOffers::first_goes, crate::proofs::TwoOffers::second_goes, crate::proofs::TwoOffers::settle_goes))]
pub fn first_come_serves(bytes: &mut [u8; 2338], buffer: &mut [u8; 4]) -> Result<usize, Refusal>
    ensures answer { result ≡ Ok 1 }
    ensures buffer { buffer.new ≡ 0x3a ∷ drop 1 buffer.old }
    ensures beyond { rest bytes.new ≡ rest bytes.old }
{
    let mut line = FirstCome::new(bytes);
    line.offer(3, &[0x3a])?;
    line.offer(1, &[0x1a])?;
    line.settle()?;
    line.fetch(1, buffer)
}

/// The same on a turn line: `1a` is agreed, as suite 1 has the turn.
#[tactic(auto, using(crate::proofs::TwoOffers::first_goes, crate::proofs::TwoOffers::second_goes, crate::proofs::TwoOffers::settle_goes))]
pub fn turn_serves(bytes: &mut [u8; 2338], buffer: &mut [u8; 4]) -> Result<usize, Refusal>
    ensures answer { result ≡ Ok 1 }
    ensures buffer { buffer.new ≡ 0x1a ∷ drop 1 buffer.old }
    ensures beyond { rest bytes.new ≡ rest bytes.old }
{
    let mut line = Turn::new(bytes);
    line.offer(3, &[0x3a])?;
    line.offer(1, &[0x1a])?;
    line.settle()?;
    line.fetch(1, buffer)
}
