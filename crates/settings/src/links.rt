// Links as a kind of setting: a byte that says whether there is a node, and eight bytes of its number.
ghost use Rattle.settings.specs.Links.{links};
ghost use Rattle.settings.specs.LinkLaws.{reads, only_forms};
ghost use Rattle.std.proofs.Common.{rules};

use crate::kind::{Setting, WrongWidth};
use crate::link::{Link, NodeNumber};
use number_bytes::u64_at;

impl Setting for Link {
    const WIDTH: usize = 9;

    ghost WIDTH = { 9 };

    ghost kind = { links };

    ghost width_is_wide = { Prim.search rules };

    ghost some_width = { Prim.search rules };

    ghost within_limit = { Prim.search rules };

    ghost form_is_wide = { Prim.search rules };

    ghost form_is_bytes = { Prim.search rules };

    ghost form_reads = { reads };

    ghost only_forms_read = { only_forms };

    fn starting() -> Link {
        Link(None)
    }

    fn write(&self, region: &mut [u8]) -> Result<(), WrongWidth> {
        let form: &mut [u8; Link::WIDTH] = region.as_mut_array().ok_or(WrongWidth)?;
        let (tag, number) = match self.0 {
            None => (0, 0),
            Some(node) => (1, node.number),
        };
        form[0] = tag;
        form[1..].copy_from_slice(&number.to_be_bytes());
        Ok(())
    }

    fn read(bytes: &[u8]) -> Option<Link> {
        let form: &[u8; Link::WIDTH] = bytes.as_array()?;
        let number = u64_at(form, 1)?;
        match form[0] {
            0 if number == 0 => Some(Link(None)),
            1 => Some(Link(Some(NodeNumber { number }))),
            _ => None,
        }
    }
}
