//! A number of each front of a node.

ghost use Rattle.std.specs.Prelude.{◌≡◌, ◌<◌, ◌≤◌, get_or, replicate, IfOk};
ghost use Rattle.cr_query.specs.Fronts.{counted_on};

use cr_row::NoMemory;
use std::alloc::Global;
use std::marker::Model;

// The most fronts of a node: one for each number of steps, from none to the most.
const ROOM: usize = 1025;

/// A number of each front of a node, by how many steps the front has: what is counted of them. So what is counted of a
/// node is at its number of steps, and to take a step back nothing is written.
#[derive(Drop)]
pub struct Fronts {
    numbers: Vec<u32>,
}

impl Model for Fronts {
    ghost use Rattle.std.specs.Prelude.{◌≡◌, ℕ, List, length};

    ghost Value = { List ℕ };

    ghost view = { λ f. f.numbers.items };

    ghost invariant = { λ f. length f.numbers.items ≡ 1025 };
}

impl Fronts {
    /// None of each front. Err where no memory is left.
    pub fn new(alloc: Global) -> Result<Fronts, NoMemory>
        ensures { IfOk result (λ fronts. fronts ≡ replicate 1025 0) }
    {
        let numbers = Vec::from_elem(alloc, 0, ROOM)?;
        Ok(Fronts { numbers })
    }

    /// The number of a front, as it is kept.
    #[inline(always)]
    pub fn number(&self, front: usize) -> u32
        requires { front ≤ 1024 }
        ensures { result ≡ get_or self.now front 0 }
    {
        self.numbers[front]
    }

    /// The number of a front.
    #[inline(always)]
    pub fn at(&self, front: usize) -> u64
        requires { front ≤ 1024 }
        ensures { result ≡ get_or self.now front 0 }
    {
        u64::from(self.numbers[front])
    }

    /// Writes the number of the front with a step more, which has so many more.
    #[inline(always)]
    pub fn count(&mut self, front: usize, more: u64)
        requires room { front < 1024 }
        requires few { get_or self.old front 0 ≤ 1048576 }
        requires more { more ≤ 1024 }
        ensures { self.new ≡ counted_on front more self.old }
    {
        let number = self.numbers[front] + more as u32;
        self.numbers[front + 1] = number;
    }
}
