// The fields of a line, one after another.
ghost use Rattle.std.specs.Prelude.{◌≡◌, ◌∷◌};
ghost use Rattle.std.specs.Iterator.{item_count};
ghost use Rattle.texts.specs.Commands.{first_word};
ghost use Rattle.texts.specs.Texts.{Gives, fields_left, fields_of, is_empty, left};

/// The fields of a line that are still to be read. Fields are what stands between single
/// spaces, so two spaces in a row have an empty field between them.
#[derive(Drop)]
pub struct Fields<'a> {
    // The line from the next field on, or `None` once the last field was given.
    rest: Option<&'a [u8]>,
}

impl<'a> Fields<'a> {
    /// The fields of `line`.
    pub fn new(line: &'a [u8]) -> Fields<'a>
        ensures { left result ≡ fields_of line.now }
    {
        Fields { rest: Some(line) }
    }

    /// Whether every field was given.
    pub fn end(&self) -> bool
        ensures { result ≡ is_empty (left self.now) }
    {
        self.rest.is_none()
    }
}

impl<'a> Iterator for Fields<'a> {
    type Item = &'a [u8];

    ghost next_gives = { λ fields field rest. Gives (left fields) field (left rest) };

    ghost remaining = { item_count left };

    /// The next field, or `None` where the last was given.
    fn next(&mut self) -> Option<&'a [u8]> {
        let (field, rest) = cut(self.rest?);
        self.rest = rest;
        Some(field)
    }
}

/// The first field of `line`, and what follows the space behind it, if there is one.
fn cut(line: &[u8]) -> (&[u8], Option<&[u8]>)
    ensures { fields_of line.now ≡ result.0.now ∷ fields_left result.1 }
{
    let mut rest = line.iter();
    match rest.position(|byte| *byte == b' ') {
        // the space was the last byte that `rest` gave
        Some(i) => (&line[..i], Some(rest.as_slice())),
        None => (line, None),
    }
}

/// What stands before the first space of `line`.
pub(crate) fn first_word(line: &[u8]) -> &[u8]
    ensures { result.now ≡ first_word line.now }
{
    cut(line).0
}
