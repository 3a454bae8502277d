//! A search that looks ahead, as what takes turns on jobs.

use crate::finder::{Finder, Findings};
use cr_explore::NarrowSearch;
use cr_model::laws::sizes_are_sums;
use cr_node::Node;
use cr_row::NoMemory;
use std::alloc::Global;

impl<'a> Finder for NarrowSearch<'a> {
    ghost finds = { λ search. search };

    fn find(&self, alloc: Global, job: &[Node], turns: u64) -> Result<Findings, NoMemory> {
        sizes_are_sums();
        let _ = self.problem().stage();
        let explored = self.find_all(alloc, job, turns)?;
        Ok(Findings {
            found: explored.found,
            rest: explored.rest,
        })
    }
}
