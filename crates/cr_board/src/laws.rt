//! Laws of boards. Each is the contract of a function that does nothing.

ghost use Rattle.std.specs.Prelude.{◌≡◌, ℕ, ◌+◌, ◌<◌, ◌≤◌, ◌++◌, ◌↔◌, List, [], ◌∷◌, Some, None, length, map, flat_map, sum_by, All, Contains};
ghost use Rattle.std.specs.List.Sorted.{IsStrictlySortedBy};
ghost use Rattle.cr_model.specs.Problems.{ProblemParts};
ghost use Rattle.cr_model.specs.Touches.{Kept};
ghost use Rattle.cr_model.specs.Nodes.{IsValid, Independent, Covers, nodes_above, times_found};
ghost use Rattle.cr_model.specs.Sizes.{most_rows, size_of_all};
ghost use Rattle.cr_model.specs.Books.{book_order};
ghost use Rattle.cr_model.specs.Checkpoints.{CanGoOn, nodes_of_jobs};
ghost use Rattle.cr_node.specs.Work.{Work, IsJob};
ghost use Rattle.cr_board.specs.Jobs.{OpeningParts, IsOpening, opening_nodes};
ghost use Rattle.cr_board.specs.Boards.{BoardParts, opened, lane_at, held_at, held_jobs, jobs_of, nodes_of};
ghost use Rattle.cr_board.specs.ReplayStates.{IsReplayed, IsAllowed, AreAllowed, start, replay, times_in, grant_of, granted, numbers_of, replay_state_of, backs};
ghost use Rattle.cr_board.specs.Partitions.{HasShape, IsPartition, EachOnce, Partition, IsKept};
ghost use Rattle.cr_board.specs.Chains.{FollowOn, found_by, spent_by, left_by};
ghost use Rattle.cr_board.specs.Choices.{round, next_answer, claim_place, claim_answer, entries_taken, entries_claimed, IfJob, IfClaimed};
ghost use Rattle.cr_board.specs.Moves.{halves, after_next, after_claim, handed_in, after_resigning, after_recall};
ghost use Rattle.cr_board.specs.Steps.{EventStep, Ran};
ghost use Rattle.cr_board.specs.Examples.{two_jobs, script};
ghost use Rattle.cr_board.specs.declared.event.Event.{Event};
ghost use Rattle.cr_board.specs.declared.entry.Entry.{Entry};
ghost use Rattle.cr_board.specs.declared.entry.Entry.TheVariants.{Take, Hand, Back};
ghost use Rattle.cr_board.specs.declared.taken.Taken.TheVariants as taken;
ghost use Rattle.cr_board.specs.declared.taken.Claimed.TheVariants as claimed;

use crate::board::Board;
use cr_model::laws::{a_split_among_others, covers_are_counted};

/// The board that an opening gives has the partition, each event keeps it, and so does each list of events.
pub fn events_keep_the_partition()
    ensures opened { (o : OpeningParts) → IsOpening o → Partition (opened o) }
    ensures event { (b after : BoardParts) (event : Event) → Partition b → EventStep b event after → Partition after }
    ensures events { (b after : BoardParts) (events : List Event) → Partition b → Ran b events after → Partition after }
{
    a_split_among_others();
}

/// Events played one list after another are the events of both lists.
pub fn events_chain()
    ensures { (b middle after : BoardParts) (events more : List Event) → Ran b events middle → Ran middle more after
        → Ran b (events ++ more) after }
{}

/// Found touches and open nodes cover together exactly what the opening covered; where no job is left, the found
/// touches do, and the turns spent are the size of the opening's nodes.
pub fn a_board_covers_its_opening()
    ensures covers { (b : BoardParts) (calling : List ℕ) → Partition b
        → Covers b.opening.problem b.found (nodes_of b) calling
        ↔ Covers b.opening.problem b.opening.found (opening_nodes b.opening) calling }
    ensures finished { (b : BoardParts) (calling : List ℕ) → Partition b → jobs_of b ≡ []
        → Covers b.opening.problem b.found [] calling
        ↔ Covers b.opening.problem b.opening.found (opening_nodes b.opening) calling }
    ensures size { (b : BoardParts) → Partition b → jobs_of b ≡ []
        → b.spent ≡ size_of_all b.opening.problem most_rows (opening_nodes b.opening) }
    ensures left { (b : BoardParts) (budget : ℕ) → Partition b → b.spent ≡ budget
        → size_of_all b.opening.problem most_rows (nodes_of b) + budget ≡ size_of_all b.opening.problem most_rows (opening_nodes b.opening) }
{
    covers_are_counted();
}

/// The board that an opening gives is told by its empty journal. What a journal replays to has no job number twice, and
/// no more turns spent and granted than the budget.
pub fn journals_tell_boards()
    ensures opened { (o : OpeningParts) → IsReplayed (opened o) }
    ensures numbers { (o : OpeningParts) (journal : List Entry) → 1 ≤ o.workers → AreAllowed o (start o) journal
        → (number : ℕ) → times_in (replay o journal) number ≤ 1 }
    ensures budget { (o : OpeningParts) (journal : List Entry) (budget : ℕ) → 1 ≤ o.workers → AreAllowed o (start o) journal
        → o.budget ≡ Some budget → (replay o journal).spent + sum_by grant_of (replay o journal).held ≤ budget }
{}

/// Each event leaves the journal as it was, or appends to it. What is found is never taken away, and the opening stays.
pub fn events_only_append()
    ensures journal { (b after : BoardParts) (event : Event) → EventStep b event after
        → (more : List Entry) × (after.journal ≡ b.journal ++ more) }
    ensures found { (b after : BoardParts) (event : Event) → EventStep b event after
        → (more : List (List ℕ)) × (after.found ≡ b.found ++ more) }
    ensures opening { (b after : BoardParts) (event : Event) → EventStep b event after → after.opening ≡ b.opening }
{}

/// An answer that is a job, and a hand-in that is taken, have one entry each in the journal; other answers have none. A
/// resignation has one for a held job, and a recall one for each.
pub fn journals_grow_by_their_entries()
    ensures next { (b : BoardParts) (worker : ℕ)
        → length (after_next b worker).journal ≡ length b.journal + entries_taken (next_answer b worker) }
    ensures claimed { (b : BoardParts) (worker number : ℕ)
        → length (after_claim b worker number).journal ≡ length b.journal + entries_claimed (claim_answer b worker number) }
    ensures hand { (b : BoardParts) (worker number : ℕ) (work : Work)
        → length (handed_in b worker number work).journal ≡ length b.journal + 1 }
    ensures resigned { (b : BoardParts) (worker : ℕ)
        → length (after_resigning b worker).journal ≡ length b.journal + length (held_jobs (held_at b.held worker)) }
    ensures recalled { (b : BoardParts) → HasShape b
        → length (after_recall b).journal ≡ length b.journal + length (flat_map held_jobs b.held) }
{}

/// The nodes of a ticket are a job, whether the worker was given it or claimed it.
pub fn a_ticket_has_a_job()
    ensures next { (b : BoardParts) (worker : ℕ) → Partition b
        → IfJob (next_answer b worker) (λ ticket. IsJob b.opening.problem ticket.nodes) }
    ensures claimed { (b : BoardParts) (worker number : ℕ) → Partition b
        → IfClaimed (claim_answer b worker number) (λ ticket. IsJob b.opening.problem ticket.nodes) }
{}

/// Found touches and nodes are a partition of themselves. Where a search of the nodes that were left begins with no found
/// touch, what it finds goes behind what was found before, and that is a partition of what the first began with. Both
/// cover the same.
pub fn partitions_follow_one_another()
    ensures begun { (p : ProblemParts) (found nodes : List (List ℕ)) → All (Kept p) found → All (IsValid p) nodes
        → Independent p found nodes → IsPartition p found nodes found nodes 0 }
    ensures onward { (p : ProblemParts) (found nodes now left more rest : List (List ℕ)) (spent used : ℕ)
        → IsPartition p found nodes now left spent → IsPartition p [] left more rest used
        → IsPartition p found nodes (now ++ more) rest (spent + used) }
    ensures covers { (p : ProblemParts) (found nodes now left : List (List ℕ)) (spent : ℕ) (calling : List ℕ)
        → IsPartition p found nodes now left spent → Covers p now left calling ↔ Covers p found nodes calling }
{
    covers_are_counted();
}

/// Each kept touch that was covered at first was found once or has one node above it, and never both: where a partition
/// follows sorted touches that are apart from the nodes, on every board, after any events from an opening, and over any
/// number of boards that go on one after another from what an input has found and left.
pub fn each_touch_stands_once()
    ensures at_first { (p : ProblemParts) (found nodes : List (List ℕ)) (calling : List ℕ) → IsStrictlySortedBy (book_order p) found
        → Independent p found nodes → times_found found calling + nodes_above p nodes calling ≤ 1 }
    ensures parts { (p : ProblemParts) (found nodes now left : List (List ℕ)) (spent : ℕ) → IsStrictlySortedBy (book_order p) found
        → Independent p found nodes → IsPartition p found nodes now left spent → EachOnce p found nodes now left }
    ensures board { (b : BoardParts) → IsKept b
        → EachOnce b.opening.problem b.opening.found (opening_nodes b.opening) b.found (nodes_of b) }
    ensures events { (o : OpeningParts) (after : BoardParts) (events : List Event) → IsOpening o → Ran (opened o) events after
        → EachOnce o.problem o.found (opening_nodes o) after.found (nodes_of after) }
    ensures boards { (p : ProblemParts) (found : List (List ℕ)) (jobs : List (List (List ℕ))) (boards : List BoardParts)
        → CanGoOn p found jobs → FollowOn p jobs boards
        → EachOnce p found (nodes_of_jobs jobs) (found ++ found_by boards) (nodes_of_jobs (left_by jobs boards)) }
{
    a_split_among_others();
    covers_are_counted();
}

/// No job number is drawn twice. Each number that stands is below the next one from then on; what begins to stand is
/// above every number that stood before; what stands no more never stands again, and so does not what was handed in.
/// Events on a board bring back none of the numbers that it had drawn.
pub fn no_number_is_drawn_twice()
    ensures below { (o : OpeningParts) (before more : List Entry) (number : ℕ) → 1 ≤ o.workers
        → AreAllowed o (start o) (before ++ more) → 1 ≤ times_in (replay o before) number
        → number < (replay o (before ++ more)).next }
    ensures drawn { (o : OpeningParts) (before more : List Entry) (entry : Entry) (old number : ℕ) → 1 ≤ o.workers
        → AreAllowed o (start o) ((before ++ more) ++ entry ∷ []) → 1 ≤ times_in (replay o before) old
        → times_in (replay o (before ++ more)) number ≡ 0 → 1 ≤ times_in (replay o ((before ++ more) ++ entry ∷ [])) number
        → old < number }
    ensures gone { (o : OpeningParts) (before more later : List Entry) (number : ℕ) → 1 ≤ o.workers
        → AreAllowed o (start o) ((before ++ more) ++ later) → 1 ≤ times_in (replay o before) number
        → times_in (replay o (before ++ more)) number ≡ 0 → times_in (replay o ((before ++ more) ++ later)) number ≡ 0 }
    ensures handed { (o : OpeningParts) (before later : List Entry) (worker job used touches opened : ℕ) → 1 ≤ o.workers
        → AreAllowed o (start o) (before ++ Hand worker job used touches opened ∷ later)
        → times_in (replay o (before ++ Hand worker job used touches opened ∷ later)) job ≡ 0 }
    ensures events { (b after : BoardParts) (events : List Event) (number : ℕ) → IsKept b → Ran b events after
        → number < b.next → times_in (replay_state_of after) number ≤ times_in (replay_state_of b) number }
    ensures next { (b after : BoardParts) (events : List Event) → IsKept b → Ran b events after → b.next ≤ after.next }
{
    a_split_among_others();
}

/// Each event keeps all that a board keeps, and so does each list of events.
pub fn events_keep_what_a_board_keeps()
    ensures opened { (o : OpeningParts) → IsOpening o → IsKept (opened o) }
    ensures event { (b after : BoardParts) (event : Event) → IsKept b → EventStep b event after → IsKept after }
    ensures events { (b after : BoardParts) (events : List Event) → IsKept b → Ran b events after → IsKept after }
{
    a_split_among_others();
}

/// Every board has each kept touch that its opening covers once, in what was found or below one node that is open or
/// held. Each of its job numbers is below the next one, and none was handed in.
pub fn every_board_has_each_once(board: &Board)
    ensures touches { EachOnce board.now.opening.problem board.now.opening.found (opening_nodes board.now.opening) board.now.found (nodes_of board.now) }
    ensures numbers { (number : ℕ) → times_in (replay_state_of board.now) number ≤ 1 }
    ensures below { (number : ℕ) → 1 ≤ times_in (replay_state_of board.now) number → number < board.now.next }
    ensures handed { (before later : List Entry) (worker job used touches opened : ℕ)
        → board.now.journal ≡ before ++ Hand worker job used touches opened ∷ later → times_in (replay_state_of board.now) job ≡ 0 }
{
    let _ = board.journal();
    each_touch_stands_once();
    no_number_is_drawn_twice();
}

/// Boards that go on one after another from what an input has found and left keep a partition of that, in which all
/// their turns are spent, and leave no job empty.
pub fn boards_follow_one_another()
    ensures partition { (p : ProblemParts) (found : List (List ℕ)) (jobs : List (List (List ℕ))) (boards : List BoardParts)
        → CanGoOn p found jobs → FollowOn p jobs boards
        → IsPartition p found (nodes_of_jobs jobs) (found ++ found_by boards) (nodes_of_jobs (left_by jobs boards)) (spent_by boards) }
    ensures filled { (p : ProblemParts) (jobs : List (List (List ℕ))) (boards : List BoardParts)
        → All (λ job. 0 < length job) jobs → FollowOn p jobs boards → All (λ job. 0 < length job) (left_by jobs boards) }
{}

/// Where a worker is answered that all is empty, no job is left.
pub fn an_empty_board_is_done()
    ensures { (b : BoardParts) (worker : ℕ) → HasShape b → next_answer b worker ≡ taken.Empty → jobs_of b ≡ [] }
{}

/// After a recall nobody holds a job, each lane has at its end what its worker held, and the journal has a Back for each
/// held job, in the order of the workers.
pub fn a_recall_gives_all_back()
    ensures held { (b : BoardParts) → HasShape b → (worker : ℕ) → held_at (after_recall b).held worker ≡ None }
    ensures lanes { (b : BoardParts) → HasShape b → (worker : ℕ)
        → lane_at (after_recall b).lanes worker ≡ lane_at b.lanes worker ++ held_jobs (held_at b.held worker) }
    ensures journal { (b : BoardParts) → HasShape b → (after_recall b).journal ≡ b.journal ++ backs 0 b.held }
{}

/// To resign again changes nothing.
pub fn a_second_resignation_changes_nothing()
    ensures { (b : BoardParts) (worker : ℕ) → after_resigning (after_resigning b worker) worker ≡ after_resigning b worker }
{}

/// A number that is claimed has no place exactly where it stands in no lane.
pub fn stale_numbers_stand_nowhere()
    ensures { (b : BoardParts) (number : ℕ) → length b.lanes ≡ b.opening.workers
        → (claim_place b number ≡ None) ↔ ((lane : ℕ) → Contains (numbers_of (lane_at b.lanes lane)) number → ⊥) }
{}

/// A worker looks at its own lane and then upwards and round; a rest is halved with the odd node behind; a grant is no
/// more than 4,096 and what the budget leaves; of two workers that hold the last jobs another waits for the one of the
/// lesser number; and a journal of six entries replays to two new jobs.
pub fn boards_by_example()
    ensures ways { map (λ worker. round worker 3) (0 ∷ 1 ∷ 2 ∷ [])
        ≡ (0 ∷ 1 ∷ 2 ∷ []) ∷ (1 ∷ 2 ∷ 0 ∷ []) ∷ (2 ∷ 0 ∷ 1 ∷ []) ∷ [] }
    ensures rests { map (λ rest. map length (halves rest)) ([] ∷ ([] ∷ []) ∷ ([] ∷ [] ∷ []) ∷ ([] ∷ [] ∷ [] ∷ []) ∷ ([] ∷ [] ∷ [] ∷ [] ∷ [] ∷ []) ∷ [])
        ≡ [] ∷ (1 ∷ []) ∷ (1 ∷ 1 ∷ []) ∷ (1 ∷ 2 ∷ []) ∷ (2 ∷ 3 ∷ []) ∷ [] }
    ensures grants { map (granted (Some 5000)) (0 ∷ 904 ∷ 905 ∷ 4999 ∷ 5000 ∷ []) ≡ 4096 ∷ 4096 ∷ 4095 ∷ 1 ∷ 0 ∷ [] }
    ensures without_budget { granted None 5000 ≡ 4096 }
    ensures own { next_answer (opened (two_jobs None)) 0 ≡ taken.Job (record { number = 1; grant = 4096; nodes = (0 ∷ []) ∷ [] }) }
    ensures stolen { next_answer (opened (two_jobs (Some 7))) 1 ≡ taken.Job (record { number = 0; grant = 7; nodes = (1 ∷ []) ∷ [] }) }
    ensures refused { map (λ budget. next_answer (opened (two_jobs budget)) 3) (None ∷ Some 0 ∷ []) ≡ taken.Stranger ∷ taken.Stranger ∷ [] }
    ensures spent { next_answer (opened (two_jobs (Some 0))) 0 ≡ taken.Spent }
    ensures claims { claim_answer (opened (two_jobs None)) 2 0 ≡ claimed.Job (record { number = 0; grant = 4096; nodes = (1 ∷ []) ∷ [] }) }
    ensures stale { claim_answer (opened (two_jobs None)) 2 2 ≡ claimed.Stale }
    ensures holding { next_answer (after_next (opened (two_jobs None)) 0) 0 ≡ taken.Holding 1 }
    ensures wait { next_answer (after_next (after_next (opened (two_jobs None)) 2) 1) 0 ≡ taken.Wait 1 }
    ensures wait_for_the_first { next_answer (after_next (after_next (opened (two_jobs None)) 2) 0) 1 ≡ taken.Wait 0 }
    ensures replayed { replay (two_jobs None) script
        ≡ record { lanes = [] ∷ [] ∷ (2 ∷ 3 ∷ []) ∷ []; held = None ∷ None ∷ None ∷ []; next = 4; spent = 17 } }
{}

/// At first worker 0 may take a job from lane 0, with its grant. None may be taken with another grant, from another
/// lane, or by a worker that there is not; and what nobody holds may not be handed in or go back. Who holds a job may
/// take no other, and nobody may take the one that it holds. It may be handed in after all turns of its grant, opened as
/// two, and it may go back; it may not be handed in after a turn more or opened as three, and it is no other worker's,
/// and no other job. Nothing may be taken where the budget leaves no turn, and what others hold is taken off it.
pub fn entries_are_allowed_where_they_stand()
    ensures taken { IsAllowed (two_jobs None) (start (two_jobs None)) (Take 0 0 1 4096) }
    ensures grant { IsAllowed (two_jobs None) (start (two_jobs None)) (Take 0 0 1 4095) → ⊥ }
    ensures lane { IsAllowed (two_jobs None) (start (two_jobs None)) (Take 0 1 1 4096) → ⊥ }
    ensures worker { IsAllowed (two_jobs None) (start (two_jobs None)) (Take 3 0 1 4096) → ⊥ }
    ensures hand { IsAllowed (two_jobs None) (start (two_jobs None)) (Hand 0 1 0 0 0) → ⊥ }
    ensures back { IsAllowed (two_jobs None) (start (two_jobs None)) (Back 0 1) → ⊥ }
    ensures holding { IsAllowed (two_jobs None) (replay (two_jobs None) (Take 0 0 1 4096 ∷ [])) (Take 0 0 0 4096) → ⊥ }
    ensures held { IsAllowed (two_jobs None) (replay (two_jobs None) (Take 0 0 1 4096 ∷ [])) (Take 1 0 1 4096) → ⊥ }
    ensures next { IsAllowed (two_jobs None) (replay (two_jobs None) (Take 0 0 1 4096 ∷ [])) (Take 1 0 0 4096) }
    ensures used_up { IsAllowed (two_jobs None) (replay (two_jobs None) (Take 0 0 1 4096 ∷ [])) (Hand 0 1 4096 0 2) }
    ensures too_many_turns { IsAllowed (two_jobs None) (replay (two_jobs None) (Take 0 0 1 4096 ∷ [])) (Hand 0 1 4097 0 2) → ⊥ }
    ensures three_opened { IsAllowed (two_jobs None) (replay (two_jobs None) (Take 0 0 1 4096 ∷ [])) (Hand 0 1 4096 0 3) → ⊥ }
    ensures given_back { IsAllowed (two_jobs None) (replay (two_jobs None) (Take 0 0 1 4096 ∷ [])) (Back 0 1) }
    ensures other_worker { IsAllowed (two_jobs None) (replay (two_jobs None) (Take 0 0 1 4096 ∷ [])) (Hand 1 1 1 0 0) → ⊥ }
    ensures other_job { IsAllowed (two_jobs None) (replay (two_jobs None) (Take 0 0 1 4096 ∷ [])) (Back 0 0) → ⊥ }
    ensures no_turn { IsAllowed (two_jobs (Some 0)) (start (two_jobs (Some 0))) (Take 0 0 1 0) → ⊥ }
    ensures last_turn { IsAllowed (two_jobs (Some 4097)) (replay (two_jobs (Some 4097)) (Take 0 0 1 4096 ∷ [])) (Take 1 0 0 1) }
    ensures a_turn_of_another { IsAllowed (two_jobs (Some 4097)) (replay (two_jobs (Some 4097)) (Take 0 0 1 4096 ∷ [])) (Take 1 0 0 2) → ⊥ }
{}
