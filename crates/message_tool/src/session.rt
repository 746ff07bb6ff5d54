// What a reader of messages knows.
use crate::stop::Stop;
use limits::{NODES, SUITES, outside};

#[derive(Drop)]
pub(crate) struct Session {
    pub suites: usize,
    pub stamp: u32,
    pub nodes: Vec<u64>,
}

impl Session {
    /// The session, where its suites and nodes are within the limits and each node stands once.
    pub(crate) fn new(suites: usize, stamp: u32, nodes: Vec<u64>) -> Result<Session, Stop> {
        if outside(suites, SUITES) {
            return Err(Stop::SuiteCount);
        }
        if outside(nodes.len(), NODES) {
            return Err(Stop::NodeCount);
        }
        if nodes
            .iter()
            .enumerate()
            .any(|(i, node)| nodes[..i].contains(node))
        {
            return Err(Stop::RepeatedNode);
        }
        Ok(Session {
            suites,
            stamp,
            nodes,
        })
    }
}
