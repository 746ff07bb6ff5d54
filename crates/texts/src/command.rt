// Lines that ask for something: a line's words are its fields, and the first of them names the command.
ghost use Rattle.std.specs.Prelude.{◌≡◌, ℕ, List, Some, Result, map, vec_items, IfOk, OnErr, ⊤, nat_eq};
ghost use Rattle.std.specs.Iterator.{at_most};
ghost use Rattle.texts.specs.Buffers.{gathered};
ghost use Rattle.texts.specs.Texts.{fields_of, number_of};
ghost use Rattle.std.specs.Cmp.Lexicographic.{pointwise};
ghost use Rattle.texts.specs.Commands.{first_word, no_command_words, form_of, reader, reader_at, Asks, HasForm, IsReadIn, Told, Fits};
ghost use Rattle.texts.specs.declared.command.Misread.{Misread};
ghost use Rattle.texts.specs.declared.command.Misread.TheVariants.{Memory};

use crate::line::first_word;
use crate::{Fields, LONGEST_LINE, LineBuffer, number};
use arrayvec::ArrayVec;
use std::alloc::{AllocError, Global};
use std::error::Error;
use std::io::BufRead;
use std::marker::PhantomData;
use std::{fmt, io};

/// Why a line asks for nothing.
#[derive(Clone, Copy, PartialEq, Eq, Debug)]
pub enum NoCommand {
    /// It is empty, or a comment: it begins with `#`.
    Blank,
    /// It has more bytes than a line may have; this says how many it may have.
    LongLine(usize),
    /// Its first word names no command.
    Unknown,
    /// The command has another form, which is this.
    Expected(&'static str),
}

impl fmt::Display for NoCommand {
    ghost output = { λ reason. Some (no_command_words reason) };

    fn fmt<W: fmt::Write>(&self, f: &mut fmt::Formatter<W>) -> fmt::Result {
        match self {
            NoCommand::Blank => f.write_str("no command"),
            NoCommand::LongLine(most) => write!(f, "a line has at most {most} bytes"),
            NoCommand::Unknown => f.write_str("unknown command"),
            NoCommand::Expected(form) => write!(f, "expected {form}"),
        }
    }
}

impl Error for NoCommand {}

/// Why words were not read.
#[derive(Debug, Drop)]
pub enum Misread {
    /// They are of another form than they should have.
    Form,
    /// There is no memory for what they say.
    Memory(AllocError),
}

impl From<AllocError> for Misread {
    ghost from_gives = { λ e misread. misread ≡ Memory e };

    fn from(e: AllocError) -> Misread {
        Misread::Memory(e)
    }
}

/// What the words of a line can ask for.
pub trait FromWords: Sized {
    /// What may be read in these words.
    ghost from_words_gives: { List (List ℕ) → Result Self Misread → Type 0 } = { λ _ _. ⊤ };

    /// What `words` ask for, of which the first names a command.
    fn from_words(heap: Global, words: &[&[u8]]) -> Result<Self, Misread>
        ensures { from_words_gives (map (λ word. word.now) words.now) result };
}

/// What the lines of an input ask for, one after the other, each with at most `LONGEST_LINE` bytes.
#[derive(Drop)]
pub struct Commands<'a, R, C> {
    heap: Global,
    input: R,
    line: LineBuffer,
    forms: &'a [&'static str],
    // how many times it may still be asked: the count by which a loop over it is seen to end
    turns: u64,
    asked: PhantomData<C>,
}

impl<'a, R: BufRead, C> Commands<'a, R, C> {
    /// The commands of `input`. Each has its form in `forms`, which begins with its name.
    pub fn new(heap: Global, input: R, forms: &'a [&'static str]) -> Commands<'a, R, C>
        ensures { reader R.remaining result ≡ reader_at (R.remaining input) forms.now }
    {
        Commands {
            heap,
            input,
            line: LineBuffer::new(heap, LONGEST_LINE),
            forms,
            turns: u64::MAX,
            asked: PhantomData,
        }
    }
}

impl<R: BufRead + Drop, C: FromWords> Iterator for Commands<'_, R, C> {
    type Item = io::Result<Result<C, NoCommand>>;

    ghost next_gives = { λ commands answer rest.
        Asks C.from_words_gives (reader R.remaining commands) answer (reader R.remaining rest) };

    ghost remaining = { λ commands. at_most commands.turns };

    /// What the next line asks for, or why it asks for nothing; none at the end of the input. An error is the input's, or
    /// there was no memory; what is left of the line is read as a line then.
    fn next(&mut self) -> Option<io::Result<Result<C, NoCommand>>> {
        self.turns = self.turns.checked_sub(1)?;
        match self.line.read(&mut self.input) {
            Ok(true) => match command_of(self.heap, &self.line, self.forms) {
                Ok(asked) => Some(Ok(asked)),
                Err(e) => Some(Err(e.into())),
            },
            Ok(false) => None,
            Err(e) => Some(Err(e)),
        }
    }
}

/// What a line asks for. It fails only where there is no memory for its words or for what they say.
fn command_of<C: FromWords>(
    heap: Global,
    line: &LineBuffer,
    forms: &[&'static str],
) -> Result<Result<C, NoCommand>, AllocError>
    ensures told { IfOk result (Told C.from_words_gives forms.now (gathered line.now)) }
    ensures fails { OnErr result (HasForm forms.now (gathered line.now)) }
{
    let Some(bytes) = line.whole() else {
        return Ok(Err(NoCommand::LongLine(line.most)));
    };
    if let [] | [b'#', ..] = bytes {
        return Ok(Err(NoCommand::Blank));
    }
    let Some(form) = form_for(forms, bytes) else {
        return Ok(Err(NoCommand::Unknown));
    };
    match read_words(heap, bytes) {
        Ok(command) => Ok(Ok(command)),
        Err(Misread::Form) => Ok(Err(NoCommand::Expected(form))),
        Err(Misread::Memory(e)) => Err(e),
    }
}

// Words that are kept without memory being asked for: more than a command has that takes no list.
const FEW: usize = 8;

/// What the fields of `line` ask for.
fn read_words<C: FromWords>(heap: Global, line: &[u8]) -> Result<C, Misread>
    ensures { IsReadIn C.from_words_gives (fields_of line.now) result }
{
    match ArrayVec::<&[u8], FEW>::from_iter(heap, Fields::new(line)) {
        Ok(words) => C::from_words(heap, words.as_slice()),
        Err(_) => C::from_words(heap, words_of(heap, line)?.as_slice()),
    }
}

/// The fields of `line`, or that there is no memory for them.
fn words_of(heap: Global, line: &[u8]) -> Result<Vec<&[u8]>, AllocError>
    ensures { IfOk result (λ words. map (λ word. word.now) (vec_items words) ≡ fields_of line.now) }
{
    Fields::new(line).collect(heap)
}

/// The form that begins with the first word of `line`.
fn form_for(forms: &[&'static str], line: &[u8]) -> Option<&'static str>
    ensures { result ≡ form_of forms.now line.now }
{
    let name = first_word(line);
    forms
        .iter()
        .find(|form| is_named(form.as_bytes(), name))
        .copied()
}

/// Whether a form begins with this name of a command.
fn is_named(form: &[u8], name: &[u8]) -> bool
    ensures { result ≡ pointwise nat_eq (first_word form.now) name.now }
{
    // most forms are told apart by their first byte
    form.starts_with(name) && first_word(form) == name
}

/// The integer that `word` writes in decimal digits, if it is below 2^64 and the type has it.
pub fn integer<N: TryFrom<u64>>(word: &[u8]) -> Result<N, Misread>
where
    N::Error: Drop,
    ensures { Fits N.try_from_gives (number_of word.now) result }
{
    let n = number(word).ok_or(Misread::Form)?;
    N::try_from(n).map_err(|_| Misread::Form)
}
