//! Jobs with their numbers, and tickets.

use cr_node::Node;
use std::marker::Model;

/// A job with its number, in a lane or held by a worker.
#[derive(Drop)]
pub struct LaneJob {
    pub number: u64,
    pub nodes: Vec<Node>,
}

impl Model for LaneJob {
    ghost use Rattle.cr_board.specs.Jobs.{JobParts};

    ghost Value = { JobParts };

    ghost view = { λ job. record { number = job.number; nodes = job.nodes.items } };
}

/// What a worker gets when it takes a job: the job's number, how many turns it may use at most, and the nodes.
#[derive(Drop)]
pub struct Ticket {
    pub number: u64,
    pub grant: u64,
    pub nodes: Vec<Node>,
}

impl Model for Ticket {
    ghost use Rattle.cr_board.specs.Jobs.{TicketParts};

    ghost Value = { TicketParts };

    ghost view = { λ ticket. record { number = ticket.number; grant = ticket.grant; nodes = ticket.nodes.items } };
}
