//! Worked examples: verdicts on both sides of each edge, lines, and a whole log.

ghost use Rattle.std.specs.Prelude.{◌≡◌, ℕ, true, false, List, [], ◌∷◌, map, codes, Some};
ghost use Rattle.cr_model.specs.Problems.{ProblemParts};
ghost use Rattle.cr_model.specs.Examples.{minimus, plain_course, pair, faulty, asks, marked, lettered, fours, com_from};
ghost use Rattle.cr_audit.specs.declared.verdict.Verdict.{Verdict};
ghost use Rattle.cr_audit.specs.declared.verdict.Verdict.TheVariants as verdict;
ghost use Rattle.cr_audit.specs.declared.verdict.Item.TheVariants as item;
ghost use Rattle.cr_audit.specs.Verdicts.{holds_verdict};
ghost use Rattle.cr_audit.specs.Logs.{line_text, Proves};
ghost use Rattle.cr_audit.specs.Examples.{minimus_lines, minimus_log};

use cr_model::laws::{
    a_test_decides_what_is_wanted, fresh_problem_covers_its_kept, plain_bob_minimus_has_its_touch,
};

/// A node as long as a part may be is open, and one that is longer, or that has a step that is none, is not. `long` holds of
/// the longer one alone. The leads have eight changes; a third of 24 is eight, and a third of 23 is seven.
pub fn open_and_long_meet_at_the_cap()
    ensures valid { map (λ high. holds_verdict (pair (asks 1 high 3)) (0 ∷ []) verdict.Open) (24 ∷ 23 ∷ []) ≡ true ∷ false ∷ [] }
    ensures long { map (λ high. holds_verdict (pair (asks 1 high 3)) (0 ∷ []) verdict.Long) (24 ∷ 23 ∷ []) ≡ false ∷ true ∷ [] }
    ensures root { map (holds_verdict (pair (asks 1 24 3)) []) (verdict.Open ∷ verdict.Long ∷ []) ≡ true ∷ false ∷ [] }
    ensures steps { map (λ node. holds_verdict (pair (asks 1 24 1)) node verdict.Open) ((2 ∷ 1 ∷ []) ∷ (2 ∷ 3 ∷ []) ∷ []) ≡ true ∷ false ∷ [] }
{}

/// Of two leads that come round at once, each row of the first comes again eight rows later, and none comes sooner. The
/// first of two rows comes first, and both are rows of the node.
pub fn rows_that_come_again()
    ensures two_leads { map (holds_verdict (pair (asks 1 24 1)) (1 ∷ 1 ∷ []))
        (verdict.Again 0 8 ∷ verdict.Again 7 15 ∷ verdict.Again 0 7 ∷ verdict.Again 8 0 ∷ verdict.Again 3 3 ∷ verdict.Again 8 16 ∷ verdict.Again 16 17 ∷ [])
        ≡ true ∷ true ∷ false ∷ false ∷ false ∷ false ∷ false ∷ [] }
    ensures plain { holds_verdict (pair (asks 1 24 1)) (0 ∷ 0 ∷ []) (verdict.Again 0 8) ≡ false }
    ensures root { holds_verdict (pair (asks 1 24 1)) [] (verdict.Again 0 1) ≡ false }
{}

/// Rounds as the last row is rounds where there are several parts, and not in one; as an earlier row it is in both. A row
/// that is not rounds is not rounds, and neither is what is no row.
pub fn rows_that_come_round()
    ensures one_part { map (holds_verdict (pair (asks 1 24 1)) (1 ∷ [])) (verdict.Home 7 ∷ verdict.Home 6 ∷ verdict.Home 8 ∷ []) ≡ false ∷ false ∷ false ∷ [] }
    ensures two_parts { map (holds_verdict (pair (asks 1 24 2)) (1 ∷ [])) (verdict.Home 7 ∷ verdict.Home 6 ∷ verdict.Home 8 ∷ []) ≡ true ∷ false ∷ false ∷ [] }
    ensures two_leads { map (holds_verdict (pair (asks 1 24 1)) (1 ∷ 1 ∷ [])) (verdict.Home 7 ∷ verdict.Home 15 ∷ []) ≡ true ∷ false ∷ [] }
    ensures within_a_lead { map (holds_verdict (faulty (asks 1 24 1)) (1 ∷ [])) (verdict.Home 1 ∷ verdict.Home 2 ∷ []) ≡ true ∷ false ∷ [] }
    ensures root { map (λ parts. holds_verdict (pair (asks 1 24 parts)) [] (verdict.Home 0)) (1 ∷ 2 ∷ []) ≡ false ∷ false ∷ [] }
{}

/// Nodes that have as much as an item allows, and one more; and an item that is none.
pub fn items_that_have_too_many()
    ensures marks { map (λ most. holds_verdict (pair (record (asks 1 24 1) { counts = marked 98 0 9 ∷ marked 112 0 most ∷ [] })) (0 ∷ 2 ∷ []) (verdict.Many (item.Count 1))) (1 ∷ 2 ∷ [])
        ≡ true ∷ false ∷ [] }
    ensures marks_in_parts { map (λ most. holds_verdict (pair (record (asks 1 24 2) { counts = marked 112 0 most ∷ [] })) (0 ∷ []) (verdict.Many (item.Count 0))) (1 ∷ 2 ∷ [])
        ≡ true ∷ false ∷ [] }
    ensures methods { map (λ most. holds_verdict (pair (record (asks 1 24 1) { method_counts = lettered 65 0 most ∷ [] })) (0 ∷ 0 ∷ []) (verdict.Many (item.Leads 0))) (1 ∷ 2 ∷ [])
        ≡ true ∷ false ∷ [] }
    ensures rows { map (λ most. holds_verdict (pair (record (asks 1 24 1) { patterns = fours 0 most ∷ [] })) (0 ∷ 0 ∷ []) (verdict.Many (item.Rows 0))) (3 ∷ 4 ∷ [])
        ≡ true ∷ false ∷ [] }
    ensures changes_of_method { map (λ most. holds_verdict (pair (record (asks 1 24 1) { «com» = Some (com_from 0 most) })) (0 ∷ 2 ∷ []) (verdict.Many item.Com)) (0 ∷ 1 ∷ [])
        ≡ true ∷ false ∷ [] }
    ensures long { holds_verdict (pair (record (asks 1 8 1) { counts = marked 112 0 1 ∷ [] })) (0 ∷ 2 ∷ []) (verdict.Many (item.Count 0)) ≡ false }
    ensures none { map (holds_verdict (pair (record (asks 1 24 1) { counts = marked 112 0 0 ∷ []; method_counts = lettered 65 0 0 ∷ []; patterns = fours 0 0 ∷ [] })) (0 ∷ 2 ∷ []))
        (verdict.Many (item.Count 0) ∷ verdict.Many (item.Leads 0) ∷ verdict.Many (item.Rows 0) ∷ verdict.Many (item.Count 1) ∷ verdict.Many (item.Leads 1) ∷ verdict.Many (item.Rows 1) ∷ verdict.Many item.Com ∷ [])
        ≡ true ∷ true ∷ true ∷ false ∷ false ∷ false ∷ false ∷ [] }
{}

/// Nodes that can still come to what an item asks for, and ones that fall one short: leads that are left are rounded down,
/// and each join of parts may be a change of method. And an item that is none.
pub fn items_that_have_too_few()
    ensures marks { map (λ least. holds_verdict (pair (record (asks 1 24 1) { counts = marked 112 0 9 ∷ marked 98 least 9 ∷ [] })) (0 ∷ []) (verdict.Few (item.Count 1))) (3 ∷ 2 ∷ [])
        ≡ true ∷ false ∷ [] }
    ensures leads_left_rounded_down { map (λ least. holds_verdict (faulty (record (asks 1 24 1) { counts = marked 115 least 9 ∷ [] })) (0 ∷ []) (verdict.Few (item.Count 0))) (6 ∷ 5 ∷ [])
        ≡ true ∷ false ∷ [] }
    ensures methods { map (λ least. holds_verdict (pair (record (asks 1 24 1) { method_counts = lettered 67 least 9 ∷ [] })) (0 ∷ []) (verdict.Few (item.Leads 0))) (3 ∷ 2 ∷ [])
        ≡ true ∷ false ∷ [] }
    ensures rows { map (λ least. holds_verdict (pair (record (asks 1 24 1) { patterns = fours least 24 ∷ [] })) (0 ∷ []) (verdict.Few (item.Rows 0))) (19 ∷ 18 ∷ [])
        ≡ true ∷ false ∷ [] }
    ensures changes_of_method { map (λ least. holds_verdict (pair (record (asks 1 24 1) { «com» = Some (com_from least 9) })) (0 ∷ []) (verdict.Few item.Com)) (3 ∷ 2 ∷ [])
        ≡ true ∷ false ∷ [] }
    ensures joins_of_parts { map (λ least. holds_verdict (pair (record (asks 1 24 2) { «com» = Some (com_from least 9) })) (0 ∷ []) (verdict.Few item.Com)) (2 ∷ 1 ∷ [])
        ≡ true ∷ false ∷ [] }
    ensures root { map (λ least. holds_verdict (pair (record (asks 1 24 1) { counts = marked 98 least 9 ∷ [] })) [] (verdict.Few (item.Count 0))) (4 ∷ 3 ∷ [])
        ≡ true ∷ false ∷ [] }
    ensures long { holds_verdict (pair (record (asks 1 8 1) { counts = marked 98 5 9 ∷ [] })) (0 ∷ 0 ∷ []) (verdict.Few (item.Count 0)) ≡ false }
    ensures none { map (holds_verdict (pair (record (asks 1 24 1) { counts = marked 98 9 9 ∷ []; method_counts = lettered 67 9 9 ∷ []; patterns = fours 24 24 ∷ [] })) (0 ∷ []))
        (verdict.Few (item.Count 0) ∷ verdict.Few (item.Leads 0) ∷ verdict.Few (item.Rows 0) ∷ verdict.Few (item.Count 1) ∷ verdict.Few (item.Leads 1) ∷ verdict.Few (item.Rows 1) ∷ verdict.Few item.Com ∷ [])
        ≡ true ∷ true ∷ true ∷ false ∷ false ∷ false ∷ false ∷ [] }
{}

/// The end of a node that is less than its beginning, one that is equal and one that is greater; an end that is the whole
/// node, or nothing; and the same under a pattern and under a limit on changes of method.
pub fn steps_that_turn_back()
    ensures less { map (holds_verdict (pair (asks 1 24 1)) (2 ∷ 0 ∷ 2 ∷ [])) (verdict.Back 0 ∷ verdict.Back 1 ∷ verdict.Back 2 ∷ verdict.Back 3 ∷ []) ≡ false ∷ true ∷ false ∷ false ∷ [] }
    ensures greater { holds_verdict (pair (asks 1 24 1)) (0 ∷ 2 ∷ []) (verdict.Back 1) ≡ false }
    ensures with_a_pattern { holds_verdict (pair (record (asks 1 24 1) { patterns = fours 0 24 ∷ [] })) (2 ∷ 0 ∷ []) (verdict.Back 1) ≡ false }
    ensures with_a_limit { holds_verdict (pair (record (asks 1 24 1) { «com» = Some (com_from 0 9) })) (2 ∷ 0 ∷ []) (verdict.Back 1) ≡ false }
    ensures root { map (holds_verdict (pair (asks 1 24 1)) []) (verdict.Back 0 ∷ verdict.Back 1 ∷ []) ≡ false ∷ false ∷ [] }
{}

/// Lines as they are written: of the root, of one method and of two.
pub fn lines_by_example()
    ensures one { map (λ (why : Verdict). line_text minimus (record { node = 0 ∷ 0 ∷ []; verdict = why })) (verdict.Open ∷ verdict.Long ∷ verdict.Again 0 10 ∷ verdict.Home 7 ∷ verdict.Back 1 ∷ [])
        ≡ codes "pp open\n" ∷ codes "pp long\n" ∷ codes "pp again 0 10\n" ∷ codes "pp home 7\n" ∷ codes "pp back 1\n" ∷ [] }
    ensures two { map (λ (why : Verdict). line_text (pair (asks 1 24 1)) (record { node = 0 ∷ 1 ∷ 2 ∷ []; verdict = why }))
        (verdict.Many (item.Count 0) ∷ verdict.Many (item.Leads 1) ∷ verdict.Few (item.Rows 2) ∷ verdict.Few item.Com ∷ [])
        ≡ codes "ApAbCp many count 0\n" ∷ codes "ApAbCp many leads 1\n" ∷ codes "ApAbCp few rows 2\n" ∷ codes "ApAbCp few com\n" ∷ [] }
    ensures root { line_text minimus (record { node = []; verdict = verdict.Open }) ≡ codes "- open\n" }
{}

/// The log of Plain Bob Minimus, up to 24 changes, proves its plain course alone.
pub fn a_log_of_plain_bob_minimus()
    ensures text { minimus_log ≡ codes "- open\np open\npp open\nppp open\npppp long\n" }
    ensures proved { Proves minimus minimus_log (plain_course ∷ []) }
{
    a_test_decides_what_is_wanted();
    fresh_problem_covers_its_kept();
    plain_bob_minimus_has_its_touch();
}
