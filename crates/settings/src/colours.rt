// Colours as a kind of setting: three numbers of four bytes each.
ghost use Rattle.settings.specs.Colours.{colours};
ghost use Rattle.settings.specs.ColourLaws.{reads, only_forms};
ghost use Rattle.std.proofs.Common.{rules};

use crate::colour::Colour;
use crate::kind::{Setting, WrongWidth};
use number_bytes::u32_at;

impl Setting for Colour {
    const WIDTH: usize = 12;

    ghost WIDTH = { 12 };

    ghost kind = { colours };

    ghost width_is_wide = { Prim.search rules };

    ghost some_width = { Prim.search rules };

    ghost within_limit = { Prim.search rules };

    ghost form_is_wide = { Prim.search rules };

    ghost form_is_bytes = { Prim.search rules };

    ghost form_reads = { reads };

    ghost only_forms_read = { only_forms };

    fn starting() -> Colour {
        Colour {
            lift: 0,
            gamma: 0,
            gain: 0,
        }
    }

    fn write(&self, region: &mut [u8]) -> Result<(), WrongWidth> {
        let form: &mut [u8; Colour::WIDTH] = region.as_mut_array().ok_or(WrongWidth)?;
        form[0..4].copy_from_slice(&self.lift.to_be_bytes());
        form[4..8].copy_from_slice(&self.gamma.to_be_bytes());
        form[8..12].copy_from_slice(&self.gain.to_be_bytes());
        Ok(())
    }

    fn read(bytes: &[u8]) -> Option<Colour> {
        let form: &[u8; Colour::WIDTH] = bytes.as_array()?;
        let lift = u32_at(form, 0)?.cast_signed();
        let gamma = u32_at(form, 4)?.cast_signed();
        let gain = u32_at(form, 8)?.cast_signed();
        Some(Colour { lift, gamma, gain })
    }
}
