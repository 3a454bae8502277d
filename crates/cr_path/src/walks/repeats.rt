//! Whether further parts of a touch bring a row of its node again, by numbers.

ghost use Rattle.std.specs.Prelude.{◌≡◌, ◌+◌, ◌*◌, ◌<◌, ◌≤◌, not, List, ℕ, length, IfSome};
ghost use Rattle.std.specs.List.{list_any};
ghost use Rattle.cr_model.specs.Callings.{changes_of_all, rows_from, HasSteps};
ghost use Rattle.cr_model.specs.Dead.{parts_of};
ghost use Rattle.cr_model.specs.Levels.{is_listed};
ghost use Rattle.cr_model.specs.Queries.{repeated};
ghost use Rattle.cr_path.specs.Marks.{TellOf};
ghost use Rattle.cr_path.specs.Numbers.{IsNumbered};
ghost use Rattle.cr_path.specs.Parts.{IsHead, HasHead, Passes};

use crate::numbers::table::NumberTable;
use crate::walks::marks::some_marked;
use cr_model::Problem;

/// How many parts after the first tell whether a touch that comes round has a row twice: if a row of the node comes
/// again later, one comes again as many parts before the end.
pub fn parts_to_try(problem: &Problem) -> usize
    ensures within { result < parts_of problem.now }
    ensures enough { parts_of problem.now ≤ 2 * result + 1 }
{
    problem.query().parts.unsigned_abs() as usize / 2
}

/// Whether so many parts, from the head whose records start here, bring no row that is marked. It stops at the first
/// lead that does.
pub fn bring_new_rows<const WIDTH: usize>(
    problem: &Problem,
    numbers: &NumberTable,
    marks: &[bool],
    node: &[u8],
    base: u32,
    parts: usize,
) -> bool
    requires numbered { IsNumbered problem.now numbers.now }
    requires width { numbers.now.width ≡ WIDTH }
    requires steps { HasSteps problem.now node.now }
    requires counted { length marks.now ≡ numbers.now.rows }
    requires head { HasHead problem.now numbers.now base }
    ensures { (from : List ℕ) (rows : List (List ℕ)) → IsHead problem.now numbers.now from base → TellOf problem.now numbers.now rows marks.now
        → result ≡ not (list_any (is_listed rows) (rows_from from (changes_of_all problem.now (repeated parts node.now)))) }
{
    let mut base = base;
    for _part in 0..parts {
        match pass_part::<WIDTH>(problem, numbers, marks, node, base) {
            Some(last) => base = last,
            None => return false,
        }
    }
    true
}

// Where the records of the head after one more part start, which is rung from a head. None where a row of it is marked.
fn pass_part<const WIDTH: usize>(
    problem: &Problem,
    numbers: &NumberTable,
    marks: &[bool],
    node: &[u8],
    from: u32,
) -> Option<u32>
    requires numbered { IsNumbered problem.now numbers.now }
    requires width { numbers.now.width ≡ WIDTH }
    requires steps { HasSteps problem.now node.now }
    requires counted { length marks.now ≡ numbers.now.rows }
    requires from { HasHead problem.now numbers.now from }
    ensures head { IfSome result (λ base. HasHead problem.now numbers.now base) }
    ensures passes { (row : List ℕ) (rows : List (List ℕ)) → IsHead problem.now numbers.now row from → TellOf problem.now numbers.now rows marks.now
        → Passes problem.now numbers.now rows row (changes_of_all problem.now node.now) result }
{
    let mut base = from;
    for step in node {
        let place = numbers.place(base, *step);
        if some_marked(marks, numbers.numbers_at::<WIDTH>(place)) {
            return None;
        }
        base = numbers.lead_at(place).next;
    }
    Some(base)
}
