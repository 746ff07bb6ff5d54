// What is wrong with a message: the layer, the cause and the byte.
ghost use Rattle.std.specs.Prelude.{◌≡◌, Some};
ghost use Rattle.messages.specs.Causes.{layer_of, cause_number, fault, layer_words, fault_words, fault_text};

use std::error::Error;
use std::fmt;

/// The layers of a message, from the outside in.
#[derive(Clone, Copy, PartialEq, Eq, Debug)]
pub enum Layer {
    Frame,
    Writes,
    Kind,
}

impl fmt::Display for Layer {
    ghost output = { λ layer. Some (layer_words layer) };

    fn fmt<W: fmt::Write>(&self, f: &mut fmt::Formatter<W>) -> fmt::Result {
        f.write_str(match self {
            Layer::Frame => "frame",
            Layer::Writes => "writes",
            Layer::Kind => "kind",
        })
    }
}

/// The causes, in the order in which a reader checks them, each with its number.
#[derive(Clone, Copy, PartialEq, Eq, Debug)]
pub enum Cause {
    /// Fewer than ten bytes, or a false length field.
    Length = 1,
    /// Another version.
    Version = 2,
    /// A suite that is not in the session, or a slot that is not there.
    Sender = 3,
    /// A write count out of range or not fitting the length.
    WriteCount = 4,
    /// A snapshot above the reader's stamp.
    Snapshot = 5,
    /// A node that is not in the session or was given before.
    Node = 6,
    /// Bytes that are no setting's form.
    Setting = 7,
}

impl Cause {
    /// The layer that the cause belongs to.
    pub fn layer(self) -> Layer
        ensures { result ≡ layer_of self }
    {
        match self {
            Cause::Length | Cause::Version | Cause::Sender | Cause::WriteCount | Cause::Snapshot =>
                Layer::Frame,
            Cause::Node => Layer::Writes,
            Cause::Setting => Layer::Kind,
        }
    }

    /// The number by which documents and programs name the cause.
    pub fn number(self) -> u8
        ensures { result ≡ cause_number self }
    {
        self as u8
    }

    /// The fault with this cause, at a byte.
    pub(crate) fn at(self, byte: usize) -> Fault
        ensures { result ≡ fault self byte }
    {
        Fault {
            layer: self.layer(),
            cause: self,
            byte,
        }
    }
}

/// A message's fault.
#[derive(Clone, Copy, PartialEq, Eq, Debug)]
pub struct Fault {
    pub layer: Layer,
    pub cause: Cause,
    pub byte: usize,
}

impl Fault {
    // What is wrong, in words.
    fn words(&self) -> &'static str
        ensures { result.now ≡ fault_words self.now.cause self.now.byte }
    {
        match self.cause {
            Cause::Length => "too short, or a wrong length field",
            Cause::Version => "another version",
            Cause::Sender if self.byte == 3 => "no such suite",
            Cause::Sender => "no such slot",
            Cause::WriteCount => "a write count that is not 1 to 16 or does not match the length",
            Cause::Snapshot => "a snapshot above the stamp",
            Cause::Node => "an unknown or repeated node",
            Cause::Setting => "no setting of this kind",
        }
    }
}

/// Prints as `frame 2 at byte 2: another version`: the layer, the number of the cause, the byte, and what is wrong.
impl fmt::Display for Fault {
    ghost output = { λ fault. Some (fault_text fault) };

    fn fmt<W: fmt::Write>(&self, f: &mut fmt::Formatter<W>) -> fmt::Result {
        let layer = self.layer;
        let number = self.cause.number();
        let byte = self.byte;
        let words = self.words();
        write!(f, "{layer} {number} at byte {byte}: {words}")
    }
}

impl Error for Fault {}
