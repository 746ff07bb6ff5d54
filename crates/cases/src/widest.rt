// The widest kinds there can be, made for tests: a setting of 32 bytes with one value, and a summary of 512 bytes that tells
// only whether anything was read.
ghost use Rattle.std.specs.Prelude.{◌≡◌};
ghost use Rattle.limits.specs.Limits.{widest_setting, widest_summary};
ghost use Rattle.cases.specs.Widest.{all_zero, blanks, touched};
ghost use Rattle.cases.specs.Zeros.{only_blank, bytes_touched};
ghost use Rattle.std.proofs.Common.{rules};

use limits::{READS, SETTING_WIDTH, SUMMARY_WIDTH};
use refusals::Refusal;
use settings::kind::{Setting, WrongWidth};
use summaries::kind::Summary;

/// A setting with one value.
#[derive(Clone, Copy, PartialEq, Eq, Debug)]
pub struct Blank;

/// A summary that tells only whether anything was read.
pub struct Touched;

fn are_zero(bytes: &[u8]) -> bool
    ensures { result ≡ all_zero bytes.now }
{
    bytes.iter().all(|b| *b == 0)
}

impl Setting for Blank {
    const WIDTH: usize = SETTING_WIDTH;

    ghost WIDTH = { widest_setting };

    ghost kind = { blanks };

    ghost width_is_wide = { Prim.search rules };

    ghost some_width = { Prim.search rules };

    ghost within_limit = { Prim.search rules };

    ghost form_is_wide = { Prim.search rules };

    ghost form_is_bytes = { Prim.search rules };

    ghost form_reads = { Prim.search rules };

    ghost only_forms_read = { λ bs s h. only_blank bs s };

    fn starting() -> Blank {
        Blank
    }

    fn write(&self, region: &mut [u8]) -> Result<(), WrongWidth> {
        let form: &mut [u8; SETTING_WIDTH] = region.as_mut_array().ok_or(WrongWidth)?;
        form.fill(0);
        Ok(())
    }

    fn read(bytes: &[u8]) -> Option<Blank> {
        let form: &[u8; SETTING_WIDTH] = bytes.as_array()?;
        are_zero(form).then_some(Blank)
    }
}

impl Summary for Touched {
    const WIDTH: usize = SUMMARY_WIDTH;

    ghost WIDTH = { widest_summary };

    ghost kind = { touched };

    ghost width_is_wide = { Prim.search rules };

    ghost some_width = { Prim.search rules };

    ghost within_limit = { Prim.search rules };

    ghost packed_is_wide = { Prim.search rules };

    ghost packed_is_bytes = { λ ns few. bytes_touched ns };

    ghost listed_are_named = { Prim.search rules };

    ghost none_from_none = { Prim.search rules };

    fn pack(nodes: &[u64], region: &mut [u8]) -> Result<(), Refusal> {
        if nodes.len() > READS {
            return Err(Refusal::SummarySize);
        }
        let bytes: &mut [u8; SUMMARY_WIDTH] = region.as_mut_array().ok_or(Refusal::SummarySize)?;
        bytes.fill(0);
        bytes[0] = u8::from(!nodes.is_empty());
        Ok(())
    }

    fn query(region: &[u8], _node: u64) -> Result<bool, Refusal> {
        let bytes: &[u8; SUMMARY_WIDTH] = region.as_array().ok_or(Refusal::SummarySize)?;
        Ok(bytes[0] == 1)
    }
}
