//! Laws of blocks. Each is the contract of a function that does nothing.

ghost use Rattle.std.specs.Prelude.{◌≡◌, ◌⊎◌, ◌<◌, ◌≤◌, ◌++◌, ℕ, List, [], ◌∷◌, length, take, All, codes};
ghost use Rattle.cr_store.specs.Blocks.{block, blocks, IsBody, IsNext, IsTorn, IsCutAt};
ghost use Rattle.cr_store.specs.declared.blocks.Next.{Next};

/// At each place of each text stands one thing: a block, the front of one, the end, or a first byte that cannot be.
pub fn each_place_has_one_answer()
    ensures { (bytes : List ℕ) (at : ℕ) (one other : Next) → IsNext bytes at one → IsNext bytes at other → one ≡ other }
{}

/// Different lists of bodies are different texts of blocks.
pub fn blocks_differ_where_bodies_do()
    ensures { (one other : List (List ℕ)) → All IsBody one → All IsBody other → blocks one ≡ blocks other → one ≡ other }
{}

/// A text of blocks that is cut anywhere is whole blocks of the first bodies, and then it is over or has the front of the
/// next block.
pub fn blocks_that_are_cut_begin_whole()
    ensures { (bodies : List (List ℕ)) (place : ℕ) → All IsBody bodies → IsCutAt bodies (take place (blocks bodies)) }
{}

/// Two bodies as blocks, byte by byte.
pub fn blocks_by_example()
    ensures { blocks (codes "ab" ∷ codes "0123456789" ∷ []) ≡ codes "block 2\nabblock 10\n0123456789" }
{}
