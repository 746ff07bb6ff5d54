// Why a command is not answered as it asks.
use messages::compose::Misfit;
use std::alloc::AllocError;
use std::io;
use thiserror::Error;

#[derive(Debug, Drop, Error)]
pub(crate) enum Stop {
    #[error("no session yet")]
    NoSession,
    #[error("no move yet")]
    NoMove,
    #[error("a session has 1 to 8 suites")]
    SuiteCount,
    #[error("a session has 1 to 64 nodes")]
    NodeCount,
    #[error("a node number stands twice")]
    RepeatedNode,
    #[error("a move reads at most 32 nodes")]
    TooManyReads,
    #[error("a move writes at most 16 nodes")]
    TooManyWrites,
    #[error("a summary is packed from at most 32 numbers")]
    TooManyNumbers,
    #[error("this summary has another width")]
    SummaryWidth,
    #[error(transparent)]
    Misfit(#[from] Misfit),
    /// There is no memory: the program ends.
    #[error(transparent)]
    Memory(#[from(alloc)] AllocError),
    /// Output failed: the program ends.
    #[error(transparent)]
    Output(#[from] io::Error),
}

impl Stop {
    /// Prints why, unless memory or output failed.
    pub(crate) fn show(self, rt: &HostRuntime) -> anyhow::Result<()> {
        match self {
            Stop::Memory(e) => Err(e.into()),
            Stop::Output(e) => Err(e.into()),
            stop => Ok(println!(rt; "error: {stop}")?),
        }
    }
}
