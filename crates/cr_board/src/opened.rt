//! The jobs that the rest of a job is opened as.

ghost use Rattle.std.specs.Prelude.{◌≡◌, IfOk, IfErr};
ghost use Rattle.cr_board.specs.Moves.{halves, opened_jobs};

use cr_model::Calling;
use cr_node::Node;

/// Nothing, all of the rest, or its two halves.
#[derive(Drop)]
pub enum Opened {
    Nothing,
    Whole(Vec<Node>),
    Halves(Vec<Node>, Vec<Node>),
}

/// What of finished work is handed in.
#[derive(Drop)]
pub struct Handing {
    pub used: u64,
    pub found: Vec<Calling>,
    pub opened: Opened,
}

/// Opens a rest: nothing of no node, one job of one node, and else two halves, of which the second has the odd node.
/// The rest comes back where no memory is left.
pub fn halve(rest: Vec<Node>) -> Result<Opened, Vec<Node>>
    ensures opened { IfOk result (λ opened. opened_jobs opened ≡ halves rest.items) }
    ensures back { IfErr result (λ back. back.items ≡ rest.items) }
{
    let mut first = rest;
    let number = first.len();
    if number == 0 {
        return Ok(Opened::Nothing);
    }
    if number == 1 {
        return Ok(Opened::Whole(first));
    }
    match first.split_off(number / 2) {
        Ok(second) => Ok(Opened::Halves(first, second)),
        Err(_) => Err(first),
    }
}
