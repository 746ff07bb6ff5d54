// The calls that lines ask for, by their letters and the fields behind them.
ghost use Rattle.std.specs.Prelude.{◌≡◌};
ghost use Rattle.bench_lines.specs.Commands.{call_of, read_in, slot_in, take_in, write_in};
ghost use Rattle.texts.specs.Texts.{left};

use crate::fields::{next_colour, next_number, next_slot};
use history::call::Call;
use session::suite_slot::SuiteSlot;
use settings::colour::Colour;
use texts::Fields;

/// The call that a letter and the fields behind it ask for.
pub(crate) fn read_call(letter: u8, fields: &mut Fields) -> Option<Call<Colour>>
    ensures { result ≡ call_of letter (left fields.old) }
{
    match letter {
        b'B' => whole_slot(fields).map(Call::Begin),
        b'C' => whole_slot(fields).map(Call::Commit),
        b'A' => whole_slot(fields).map(Call::Abandon),
        b'K' => whole_slot(fields).map(Call::Collect),
        b'R' => whole_read(fields),
        b'W' => whole_write(fields),
        b'S' => fields.end().then_some(Call::Settle),
        b'T' => whole_take(fields),
        _ => None,
    }
}

/// The slot that all fields name.
fn whole_slot(fields: &mut Fields) -> Option<SuiteSlot>
    ensures { result ≡ slot_in (left fields.old) }
{
    let Some(at) = next_slot(fields) else {
        return None;
    };
    fields.end().then_some(at)
}

/// The read that all fields ask for.
fn whole_read(fields: &mut Fields) -> Option<Call<Colour>>
    ensures { result ≡ read_in (left fields.old) }
{
    let Some(at) = next_slot(fields) else {
        return None;
    };
    let Some(node) = next_number(fields) else {
        return None;
    };
    fields.end().then_some(Call::Read(at, node))
}

/// The write that all fields ask for.
fn whole_write(fields: &mut Fields) -> Option<Call<Colour>>
    ensures { result ≡ write_in (left fields.old) }
{
    let Some(at) = next_slot(fields) else {
        return None;
    };
    let Some(node) = next_number(fields) else {
        return None;
    };
    let Some(colour) = next_colour(fields) else {
        return None;
    };
    fields.end().then_some(Call::Write(at, node, colour))
}

/// The take that all fields ask for.
fn whole_take(fields: &mut Fields) -> Option<Call<Colour>>
    ensures { result ≡ take_in (left fields.old) }
{
    let Some(suite) = next_number(fields) else {
        return None;
    };
    fields.end().then_some(Call::Take(suite as usize))
}
