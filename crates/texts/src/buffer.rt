// A line of text that is gathered byte by byte, of which no more than a fixed number of bytes are kept.
ghost use Rattle.std.specs.Prelude.{◌≡◌, ◌≤◌, true, false, not, ◌&&◌, length, is_ok, IfOk, OnOk, IfSome};
ghost use Rattle.std.specs.List.{position};
ghost use Rattle.std.specs.Option.{option_map};
ghost use Rattle.std.specs.Io.BufRead.{first_piece, DropsThrough};
ghost use Rattle.texts.specs.Buffers.{gathered, nothing_gathered, gathered_of, is_newline, Gathers, after_push, after_extend, whole_line};
ghost use Rattle.texts.specs.Texts.{is_empty};

use std::alloc::{AllocError, Global};
use std::io;
use std::io::BufRead;

/// The bytes of a line so far: at most as many as it may have, and whether there were more.
#[derive(Drop)]
pub struct LineBuffer {
    bytes: Vec<u8>,
    pub(crate) most: usize,
    // beside the bytes, and not in their place: those that were kept are promised where there were more, too
    over: bool,
}

impl LineBuffer {
    /// An empty line that may have up to `most` bytes.
    pub fn new(heap: Global, most: usize) -> LineBuffer
        ensures { gathered result ≡ nothing_gathered most }
    {
        LineBuffer {
            bytes: Vec::new(heap),
            most,
            over: false,
        }
    }

    /// One byte more. A byte past the most that the line may have is not kept, and makes the line too long. Where there is
    /// no memory for the byte, the line is as it was.
    pub fn push(&mut self, byte: u8) -> Result<(), AllocError>
        ensures after { gathered self.new ≡ after_push result (gathered self.old) byte }
        ensures succeeds { (gathered self.old).most ≤ length (gathered self.old).bytes → is_ok result ≡ true }
    {
        if self.bytes.len() < self.most {
            self.bytes.push(byte)?;
        } else {
            self.over = true;
        }
        Ok(())
    }

    // More bytes, all at once: what each would leave if it was pushed. Where there is no memory for them, the line is as it was.
    fn extend(&mut self, bytes: &[u8]) -> Result<(), AllocError>
        ensures { gathered self.new ≡ after_extend result (gathered self.old) bytes.now }
    {
        let room = self.most.saturating_sub(self.bytes.len());
        if bytes.len() > room {
            self.bytes.extend_from_slice(&bytes[..room])?;
            self.over = true;
        } else {
            self.bytes.extend_from_slice(bytes)?;
        }
        Ok(())
    }

    /// Begins a new line.
    pub fn clear(&mut self)
        ensures { gathered self.new ≡ nothing_gathered (gathered self.old).most }
    {
        self.bytes.clear();
        self.over = false;
    }

    /// Reads the next line of `input` in place of what was gathered, and says whether there was one: `false` only at the
    /// end of the input. The newline is taken from the input and not kept; the last line may have none. On an error,
    /// what the input has lost is what was gathered.
    pub fn read<R: BufRead>(&mut self, input: &mut R) -> io::Result<bool>
        ensures gathers { Gathers result (R.remaining input.old) (R.remaining input.new)
            (gathered self.old).most (gathered self.new) }
        ensures line { OnOk result (IfSome (R.remaining input.old)
            (λ xs. gathered self.new ≡ gathered_of (gathered self.old).most (first_piece 10 xs))) }
        ensures rest { OnOk result (DropsThrough (R.remaining input.old) (R.remaining input.new) 10) }
        ensures some { IfOk result (λ some. IfSome (R.remaining input.old) (λ xs. some ≡ not (is_empty xs))) }
        ensures none { IfOk result (λ some. some ≡ false → gathered self.new ≡ nothing_gathered (gathered self.old).most) }
    {
        self.clear();
        // the input ends it
        for _ in 0..u64::MAX {
            let shown = input.fill_buf()?;
            if shown.is_empty() {
                return Ok(!self.is_empty());
            }
            match newline_in(shown) {
                Some(end) => {
                    self.extend(&shown[..end])?;
                    input.consume(end + 1);
                    return Ok(true);
                }
                None => {
                    let count = shown.len();
                    self.extend(shown)?;
                    input.consume(count);
                }
            }
        }
        Err(io::Error::from(io::ErrorKind::FileTooLarge))
    }

    /// Whether the line has no bytes.
    pub fn is_empty(&self) -> bool
        ensures { result ≡ is_empty (gathered self.now).bytes && not (gathered self.now).over }
    {
        self.bytes.is_empty() && !self.over
    }

    /// The line, unless it has more bytes than it may have.
    pub fn whole(&self) -> Option<&[u8]>
        ensures { option_map (λ x. x.now) result ≡ whole_line (gathered self.now) }
    {
        if self.over {
            return None;
        }
        Some(self.bytes.as_slice())
    }
}

// Where the first newline stands, if there is one.
fn newline_in(bytes: &[u8]) -> Option<usize>
    ensures { result ≡ position is_newline bytes.now }
{
    bytes.iter().position(|byte| *byte == b'\n')
}
