// The move that is being described.
use crate::stop::Stop;
use limits::{READS, WRITES};
use messages::parts::{Origin, Write};
use settings::kind::Setting;
use std::alloc::Global;

/// A move, as far as it is described.
#[derive(Drop)]
pub(crate) struct Draft<T> {
    pub origin: Origin,
    pub reads: Vec<u64>,
    pub writes: Vec<Write<T>>,
}

impl<T: Setting> Draft<T> {
    pub(crate) fn new(heap: Global, origin: Origin) -> Draft<T> {
        Draft {
            origin,
            reads: Vec::new(heap),
            writes: Vec::new(heap),
        }
    }

    /// Enters a node among the reads, unless it is there.
    pub(crate) fn read(&mut self, node: u64) -> Result<(), Stop> {
        if self.reads.contains(&node) {
            return Ok(());
        }
        if self.reads.len() >= READS {
            return Err(Stop::TooManyReads);
        }
        self.reads.push(node)?;
        Ok(())
    }

    /// Keeps a setting for a node, in the place of an earlier one.
    pub(crate) fn write(&mut self, write: Write<T>) -> Result<(), Stop> {
        if let Some(earlier) = self.writes.iter_mut().find(|w| w.node == write.node) {
            *earlier = write;
            return Ok(());
        }
        if self.writes.len() >= WRITES {
            return Err(Stop::TooManyWrites);
        }
        self.writes.push(write)?;
        Ok(())
    }
}
