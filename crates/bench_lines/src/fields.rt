// What the next fields of a line write.
ghost use Rattle.std.specs.Prelude.{◌≡◌, drop, OnSome};
ghost use Rattle.bench_lines.specs.Commands.{first_colour, first_number, first_signed, first_slot};
ghost use Rattle.texts.specs.Texts.{left};

use session::suite_slot::SuiteSlot;
use settings::colour::Colour;
use texts::{Fields, number, signed};

/// The slot that the next two fields name.
pub(crate) fn next_slot(fields: &mut Fields) -> Option<SuiteSlot>
    ensures answer { result ≡ first_slot (left fields.old) }
    ensures rest { OnSome result (left fields.new ≡ drop 2 (left fields.old)) }
{
    let Some(suite) = next_number(fields) else {
        return None;
    };
    let Some(slot) = next_number(fields) else {
        return None;
    };
    Some(SuiteSlot {
        suite: suite as usize,
        slot: slot as usize,
    })
}

/// The colour that the next three fields write.
pub(crate) fn next_colour(fields: &mut Fields) -> Option<Colour>
    ensures answer { result ≡ first_colour (left fields.old) }
    ensures rest { OnSome result (left fields.new ≡ drop 3 (left fields.old)) }
{
    let Some(lift) = next_signed(fields) else {
        return None;
    };
    let Some(gamma) = next_signed(fields) else {
        return None;
    };
    let Some(gain) = next_signed(fields) else {
        return None;
    };
    Some(Colour { lift, gamma, gain })
}

/// The number that the next field writes.
pub(crate) fn next_number(fields: &mut Fields) -> Option<u64>
    ensures answer { result ≡ first_number (left fields.old) }
    ensures rest { OnSome result (left fields.new ≡ drop 1 (left fields.old)) }
{
    let Some(field) = fields.next() else {
        return None;
    };
    number(field)
}

/// The signed number that the next field writes.
fn next_signed(fields: &mut Fields) -> Option<i32>
    ensures answer { result ≡ first_signed (left fields.old) }
    ensures rest { OnSome result (left fields.new ≡ drop 1 (left fields.old)) }
{
    let Some(field) = fields.next() else {
        return None;
    };
    signed(field)
}
