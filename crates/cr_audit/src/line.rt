//! Lines of a log.

use crate::verdict::Verdict;
use std::marker::Model;

/// A line of a log: a node, as its step numbers, and the verdict on it.
#[derive(Drop)]
pub struct LogLine {
    pub node: Vec<u8>,
    pub verdict: Verdict,
}

impl Model for LogLine {
    ghost use Rattle.cr_audit.specs.Logs.{LineParts};

    ghost Value = { LineParts };

    ghost view = { λ line. record { node = line.node.items; verdict = line.verdict } };
}
