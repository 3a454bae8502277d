//! Parts of problems.

ghost use Rattle.std.specs.Prelude.{◌≡◌};
ghost use Rattle.cr_model.specs.Problems.{ProblemParts};
ghost use Rattle.cr_model.specs.Sound.{IsSound};
ghost use Rattle.cr_model.specs.Faults.{IsPartFault};
ghost use Rattle.cr_model.specs.declared.fault.PartFault.{PartFault};

/// Parts that pass all checks have no fault, and other parts have at most one.
pub fn parts_have_one_answer()
    ensures sound { (p : ProblemParts) (fault : PartFault) → IsSound p → IsPartFault p fault → ⊥ }
    ensures single { (p : ProblemParts) (fault other : PartFault) → IsPartFault p fault → IsPartFault p other → fault ≡ other }
{}
