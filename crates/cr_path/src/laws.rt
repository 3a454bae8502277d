//! Worked examples: literals at the edges of the definitions. Each function does nothing: its contract is the law.

ghost use Rattle.std.specs.Prelude.{◌≡◌, true, false, [], ◌∷◌, map};
ghost use Rattle.cr_row.specs.Rows.{rounds};
ghost use Rattle.cr_model.specs.Examples.{minimus, faulty, asks};
ghost use Rattle.cr_path.specs.Numbers.{lead_from, brings_round, dies_after, IsTold, IsNumbered, AreNextHeads};
ghost use Rattle.cr_path.specs.Examples.{minimus_numbers, minimus_asked, called, called_numbers};

use cr_model::laws::{levels_list_rows, no_fewer_leads_lead_to_rounds, the_depth_is_greatest};

/// The heads, the representative rows and the records of Plain Bob Minimus, each limit with the way to rounds.
pub fn plain_bob_minimus_has_its_numbers()
    ensures { IsNumbered minimus minimus_numbers }
{
    levels_list_rows();
    no_fewer_leads_lead_to_rounds();
    the_depth_is_greatest();
}

/// Of two leads that have all rows but the last in common the first row tells so, and the last row of one does not. Where
/// one of them has rounds and the other has not, the numbers of the other do not tell of it.
pub fn a_row_in_common_is_told()
    ensures first { IsTold called (called_numbers 0) (1 ∷ []) (lead_from called (rounds 4) 1) }
    ensures last { IsTold called (called_numbers 1) (1 ∷ []) (lead_from called (rounds 4) 1) → ⊥ }
    ensures round { IsTold called (called_numbers 0) (0 ∷ []) (lead_from called (rounds 4) 1) → ⊥ }
{}

/// In two parts of Plain Bob Minimus, of at most 12 changes each, a lead may follow four changes and not five. Rounds
/// as its last row is too early where there are several parts, and rounds as its last row but one always is. After no
/// change a lead with a row twice is dead too.
pub fn leads_die_at_the_edges()
    ensures long { map (dies_after (minimus_asked (asks 1 24 2)) (1 ∷ 3 ∷ 4 ∷ 2 ∷ []) 0) (4 ∷ 5 ∷ []) ≡ false ∷ true ∷ [] }
    ensures round_last { map (λ parts. brings_round (minimus_asked (asks 1 24 parts)) (lead_from minimus (1 ∷ 4 ∷ 2 ∷ 3 ∷ []) 0)) (1 ∷ 2 ∷ [])
        ≡ false ∷ true ∷ [] }
    ensures round_before { brings_round (faulty (asks 1 24 1)) (lead_from (faulty (asks 1 24 1)) (rounds 4) 1) ≡ true }
    ensures away { brings_round (faulty (asks 1 24 1)) (lead_from (faulty (asks 1 24 1)) (1 ∷ 3 ∷ 4 ∷ 2 ∷ []) 1) ≡ false }
    ensures twice { dies_after (faulty (asks 1 24 1)) (1 ∷ 3 ∷ 4 ∷ 2 ∷ []) 2 0 ≡ true }
{
    levels_list_rows();
    no_fewer_leads_lead_to_rounds();
    the_depth_is_greatest();
}

/// A plain lead of Plain Bob Minimus leads from each of the three heads to the next, and from the last one home; with two of
/// them exchanged it does not. Where there is a call that comes round at once, and another plain lead, those of one head stand
/// together, and not those of one step.
pub fn heads_lead_to_heads()
    ensures plain { AreNextHeads minimus minimus_numbers.heads (1 ∷ 2 ∷ 0 ∷ []) }
    ensures exchanged { AreNextHeads minimus minimus_numbers.heads (2 ∷ 1 ∷ 0 ∷ []) → ⊥ }
    ensures by_head { AreNextHeads called minimus_numbers.heads (1 ∷ 0 ∷ 1 ∷ 2 ∷ 1 ∷ 2 ∷ 0 ∷ 2 ∷ 0 ∷ []) }
    ensures by_step { AreNextHeads called minimus_numbers.heads (1 ∷ 2 ∷ 0 ∷ 0 ∷ 1 ∷ 2 ∷ 1 ∷ 2 ∷ 0 ∷ []) → ⊥ }
{}
