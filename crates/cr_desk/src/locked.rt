//! What a desk keeps under its lock: the board, and the book of the ledger.

ghost use Rattle.std.specs.Prelude.{◌≡◌, ◌+◌, ◌<◌, ◌≤◌, ◌↔◌, cond, nat_lt, length, IfOk, IfSome, IsTrue, OnOk, OnErr};
ghost use Rattle.cr_node.specs.Work.{IsJob};
ghost use Rattle.cr_board.specs.Choices.{next_answer, claim_answer, IfJob, IfClaimed, UnlessTaken, UnlessClaimed};
ghost use Rattle.cr_board.specs.Moves.{HandsIn, after_next, after_claim, after_resigning};
ghost use Rattle.cr_board.specs.declared.taken.Taken.TheVariants.{Stranger};
ghost use Rattle.cr_desk.specs.Asks.{Asks, Claims, EndsWork, IfNoWork, IfNoClaim, IfEnded, HasNoWork};

use cr_board::laws::{a_ticket_has_a_job, journals_grow_by_their_entries};
use cr_board::{Board, Claimed, Handed, Taken};
use cr_model::Problem;
use cr_node::Done;
use cr_row::NoMemory;
use std::alloc::Global;
use std::sync::ledger::{Book, Ledger, Share};

/// A board, and the book of a ledger that counts the entries of its journal. Beside it stands a share without parts.
#[derive(Drop)]
pub struct Locked<L: Ledger> {
    pub board: Board,
    pub book: Book<L>,
    pub nothing: Share<L>,
    pub ghost counted: { length board.journal ≡ book.total },
    pub ghost none: { nothing.parts ≡ 0 },
    pub ghost empty: { nothing.amount ≡ 0 },
}

impl<L: Ledger> Locked<L> {
    /// Asks for a worker's next job, where the board is of this problem. None where it is of another.
    pub fn ask(
        &mut self,
        alloc: Global,
        problem: &Problem,
        worker: u32,
        mine: &mut Share<L>,
    ) -> Result<Option<Taken>, NoMemory>
        requires { 0 < mine.old.parts }
        ensures asks { Asks self.old.board problem.now worker result self.new.board }
        ensures none { IfNoWork result (HasNoWork self.new.board problem.now worker) }
        ensures job { IfOk result (λ answer. IfSome answer (λ taken. IfJob taken (λ ticket. IsJob problem.now ticket.nodes))) }
        ensures parts { mine.new.parts ≡ mine.old.parts }
        ensures amount { mine.old.amount ≤ mine.new.amount }
        ensures counted { mine.new.amount + length self.old.board.journal ≡ mine.old.amount + length self.new.board.journal }
    {
        if !self.is_of(problem) {
            return Ok(None);
        }
        Ok(Some(self.next_job(alloc, worker, mine)?))
    }

    /// Asks for the job of a number, where the board is of this problem. None where it is of another.
    pub fn claim(
        &mut self,
        alloc: Global,
        problem: &Problem,
        worker: u32,
        number: u64,
        mine: &mut Share<L>,
    ) -> Result<Option<Claimed>, NoMemory>
        requires { 0 < mine.old.parts }
        ensures claims { Claims self.old.board problem.now worker number result self.new.board }
        ensures none { IfNoClaim result (HasNoWork self.new.board problem.now worker) }
        ensures job { IfOk result (λ answer. IfSome answer (λ claimed. IfClaimed claimed (λ ticket. IsJob problem.now ticket.nodes))) }
        ensures parts { mine.new.parts ≡ mine.old.parts }
        ensures amount { mine.old.amount ≤ mine.new.amount }
        ensures counted { mine.new.amount + length self.old.board.journal ≡ mine.old.amount + length self.new.board.journal }
    {
        if !self.is_of(problem) {
            return Ok(None);
        }
        Ok(Some(self.claim_job(alloc, worker, number, mine)?))
    }

    // Whether the board is of this problem.
    fn is_of(&self, problem: &Problem) -> bool
        ensures { IsTrue result ↔ (self.now.board.opening.problem ≡ problem.now) }
    {
        self.board.opening().problem().same(problem)
    }

    // A worker's next job, whatever the board's problem.
    fn next_job(
        &mut self,
        alloc: Global,
        worker: u32,
        mine: &mut Share<L>,
    ) -> Result<Taken, NoMemory>
        requires { 0 < mine.old.parts }
        ensures answer { IfOk result (λ taken. taken ≡ next_answer self.old.board worker) }
        ensures board { OnOk result (self.new.board ≡ after_next self.old.board worker) }
        ensures unchanged { IfOk result (λ taken. UnlessTaken taken (self.new.board ≡ self.old.board)) }
        ensures err { OnErr result (self.new.board ≡ self.old.board) }
        ensures job { IfOk result (λ taken. IfJob taken (λ ticket. IsJob self.old.board.opening.problem ticket.nodes)) }
        ensures parts { mine.new.parts ≡ mine.old.parts }
        ensures amount { mine.old.amount ≤ mine.new.amount }
        ensures counted { mine.new.amount + length self.old.board.journal ≡ mine.old.amount + length self.new.board.journal }
    {
        a_ticket_has_a_job();
        journals_grow_by_their_entries();
        let _ = self.board.journal();
        let taken = self.board.next_job(alloc, worker)?;
        if let Taken::Job(_) = &taken {
            self.book.add(mine, 1);
        }
        Ok(taken)
    }

    // The job of a number, whatever the board's problem.
    fn claim_job(
        &mut self,
        alloc: Global,
        worker: u32,
        number: u64,
        mine: &mut Share<L>,
    ) -> Result<Claimed, NoMemory>
        requires { 0 < mine.old.parts }
        ensures answer { IfOk result (λ claimed. claimed ≡ claim_answer self.old.board worker number) }
        ensures board { OnOk result (self.new.board ≡ after_claim self.old.board worker number) }
        ensures unchanged { IfOk result (λ claimed. UnlessClaimed claimed (self.new.board ≡ self.old.board)) }
        ensures err { OnErr result (self.new.board ≡ self.old.board) }
        ensures ended { IfOk result (λ claimed. IfEnded claimed (EndsWork (next_answer self.old.board worker))) }
        ensures job { IfOk result (λ claimed. IfClaimed claimed (λ ticket. IsJob self.old.board.opening.problem ticket.nodes)) }
        ensures parts { mine.new.parts ≡ mine.old.parts }
        ensures amount { mine.old.amount ≤ mine.new.amount }
        ensures counted { mine.new.amount + length self.old.board.journal ≡ mine.old.amount + length self.new.board.journal }
    {
        a_ticket_has_a_job();
        journals_grow_by_their_entries();
        let _ = self.board.journal();
        let claimed = self.board.claim(alloc, worker, number)?;
        if let Claimed::Job(_) = &claimed {
            self.book.add(mine, 1);
        }
        Ok(claimed)
    }

    /// Hands in finished work on the job of a number that a worker holds.
    pub fn hand_in(&mut self, worker: u32, number: u64, done: Done, mine: &mut Share<L>) -> Handed
        requires { 0 < mine.old.parts }
        ensures handed { HandsIn self.old.board worker number done result self.new.board }
        ensures parts { mine.new.parts ≡ mine.old.parts }
        ensures amount { mine.old.amount ≤ mine.new.amount }
        ensures counted { mine.new.amount + length self.old.board.journal ≡ mine.old.amount + length self.new.board.journal }
    {
        journals_grow_by_their_entries();
        let handed = self.board.hand_in(worker, number, done);
        if let Handed::In = &handed {
            self.book.add(mine, 1);
        }
        handed
    }

    /// A worker resigns, if there is one of this number. It is a stranger to the board then.
    #[tactic(auto, using(crate::proofs::Strangers::stranger_after))]
    pub fn resign(&mut self, worker: u32, mine: &mut Share<L>)
        requires { 0 < mine.old.parts }
        ensures board { self.new.board ≡ cond (nat_lt worker self.old.board.opening.workers) (after_resigning self.old.board worker) self.old.board }
        ensures stranger { next_answer self.new.board worker ≡ Stranger }
        ensures parts { mine.new.parts ≡ mine.old.parts }
        ensures amount { mine.old.amount ≤ mine.new.amount }
        ensures counted { mine.new.amount + length self.old.board.journal ≡ mine.old.amount + length self.new.board.journal }
    {
        journals_grow_by_their_entries();
        let _ = self.board.journal();
        if worker >= self.board.opening().workers() {
            return;
        }
        let holds = self.board.held(worker).is_some();
        self.board.resign(worker);
        if holds {
            self.book.add(mine, 1);
        }
    }
}
