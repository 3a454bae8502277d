//! The explorer of the plain hunt, turn by turn.

ghost use Rattle.std.specs.Prelude.{◌≡◌, ◌<◌, [], ◌∷◌, ⊤, IfOk, OnOk};
ghost use Rattle.cr_board.specs.Examples.{hunts};
ghost use Rattle.cr_hunter.specs.Hunts.{IsTurn};

use crate::hunts::plain_hunts;
use crate::nodes::{both_nodes, copy_nodes, lone_node, step_calling, step_node};
use cr_model::laws::{a_split_among_others, one_turn_splits_a_node, sizes_are_sums};
use cr_model::{Calling, Problem};
use cr_node::laws::work_goes_on;
use cr_node::{Done, Explorer, Node};
use cr_row::NoMemory;
use std::alloc::Global;
use std::marker::Model;
use std::test::Fail;

/// Explores the plain hunt: below the root stand the nodes of the steps 0 and 1, and each of the two is a touch.
#[derive(Drop)]
pub struct Hunter {
    problem: Problem,
}

impl Model for Hunter {
    ghost use Rattle.std.specs.Prelude.{◌≡◌};
    ghost use Rattle.cr_model.specs.Problems.{ProblemParts};
    ghost use Rattle.cr_board.specs.Examples.{hunts};

    ghost Value = { ProblemParts };

    ghost view = { λ h. h.problem };

    ghost invariant = { λ h. h.problem ≡ hunts };
}

impl Explorer for Hunter {
    ghost explores = { λ h. h };

    ghost gives = { λ h job turns done. ⊤ };

    fn problem(&self) -> &Problem {
        &self.problem
    }

    fn explore(&self, alloc: Global, job: &[Node], turns: u64) -> Result<Done, NoMemory> {
        a_split_among_others();
        one_turn_splits_a_node();
        sizes_are_sums();
        work_goes_on();
        let _ = self.problem.stage();
        let mut found = Vec::new(alloc);
        let mut rest = copy_nodes(alloc, job)?;
        let mut used = 0;
        while used < turns && !rest.is_empty() {
            take_turn(alloc, &mut found, &mut rest)?;
            used += 1;
        }
        let problem = self.problem.copy(alloc)?;
        let job = copy_nodes(alloc, job)?;
        Ok(Done::new(problem, job, found, rest, used))
    }
}

/// The explorer of the plain hunt. Err where no memory is left.
pub fn make_hunter(alloc: Global) -> Result<Hunter, Fail>
    ensures { IfOk result (λ h. h ≡ hunts) }
{
    let problem = plain_hunts(alloc)?;
    Ok(Hunter { problem })
}

impl Hunter {
    /// The finished work of one turn on the job of one step. Err where no memory is left.
    pub fn one_turn(&self, alloc: Global, step: u8) -> Result<Done, NoMemory>
        requires { step < 2 }
    {
        let _ = &self.problem;
        let job = lone_node(alloc, step)?;
        self.explore(alloc, &job, 1)
    }

    /// The finished work of two turns on the job of both steps, step 1 first. Err where no memory is left.
    pub fn both_turns(&self, alloc: Global) -> Result<Done, NoMemory> {
        let _ = &self.problem;
        let job = both_nodes(alloc)?;
        self.explore(alloc, &job, 2)
    }
}

// Takes the last node that is left.
fn take_turn(alloc: Global, found: &mut Vec<Calling>, rest: &mut Vec<Node>) -> Result<(), NoMemory>
    ensures { OnOk result (IsTurn found.old.items rest.old.items found.new.items rest.new.items) }
{
    let Some(node) = rest.pop() else {
        return Err(NoMemory);
    };
    match node.steps() {
        [] => {
            rest.push(step_node(alloc, 1)?)?;
            rest.push(step_node(alloc, 0)?)?;
        }
        [step] if *step < 2 => found.push(step_calling(alloc, *step)?)?,
        _ => return Err(NoMemory),
    }
    Ok(())
}
