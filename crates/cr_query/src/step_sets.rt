//! Sets of steps, a bit for each.

ghost use Rattle.std.specs.Prelude.{◌≡◌, ◌≢◌, ◌<◌, ◌≤◌, ◌||◌, ℕ, true, false, cond, IfNone, IfSome};
ghost use Rattle.cr_query.specs.Sets.{has_step, put, IsLeast};

/// The set without steps.
#[inline(always)]
pub fn no_steps() -> u32
    ensures { (step : ℕ) → has_step result step ≡ false }
{
    0
}

/// The set with a step more, if it is to be in it.
#[inline(always)]
pub fn with_step(set: u32, step: u8, is_in: bool) -> u32
    requires { step < 32 }
    ensures put { result ≡ put set step is_in }
    ensures is { has_step set step ≡ false → has_step result step ≡ is_in }
    ensures others { (other : ℕ) → other ≢ step → has_step result other ≡ has_step set other }
{
    set | (u32::from(is_in) << step)
}

/// The set without a step.
#[inline(always)]
pub fn without_step(set: u32, step: u8) -> u32
    requires { step < 32 }
    ensures is { has_step result step ≡ false }
    ensures others { (other : ℕ) → other < 32 → other ≢ step → has_step result other ≡ has_step set other }
{
    set & !(1 << step)
}

/// The set without the steps below one.
#[inline(always)]
pub fn without_below(set: u32, first: u8) -> u32
    requires { first ≤ 31 }
    ensures below { (step : ℕ) → step < first → has_step result step ≡ false }
    ensures others { (step : ℕ) → first ≤ step → has_step result step ≡ has_step set step }
{
    (set >> first) << first
}

/// The least step of a set, or None where it has none.
#[inline(always)]
pub fn least(set: u32) -> Option<u8>
    ensures none { IfNone result ((step : ℕ) → has_step set step ≡ false) }
    ensures some { IfSome result (IsLeast set) }
{
    if set == 0 {
        return None;
    }
    Some(set.trailing_zeros() as u8)
}

/// Whether a set has a step.
#[inline(always)]
pub fn has_step(set: u32, step: u8) -> bool
    ensures { step < 32 → result ≡ has_step set step }
{
    (set >> (step & 31)) & 1 == 1
}

/// Those steps of a set that are below a number.
#[inline(always)]
pub fn first_steps(set: u32, number: u8) -> u32
    requires { number < 32 }
    ensures each { (step : ℕ) → step < number → has_step result step ≡ has_step set step }
    ensures others { (step : ℕ) → number ≤ step → has_step result step ≡ false }
{
    set & ((1 << number) - 1)
}

/// The steps of both sets.
pub fn joined(set: u32, other: u32) -> u32
    ensures { (step : ℕ) → has_step result step ≡ (has_step set step || has_step other step) }
{
    set | other
}

/// The steps that a set has, if they are asked for, and those that it has not, if they are.
pub fn steps_where(set: u32, inside: bool, outside: bool) -> u32
    ensures { (step : ℕ) → step < 32 → has_step result step ≡ cond (has_step set step) inside outside }
{
    joined(if_asked(set, inside), if_asked(others(set), outside))
}

// The set, if it is asked for, and else the empty one.
fn if_asked(set: u32, asked: bool) -> u32
    ensures { result ≡ cond asked set 0 }
{
    if asked { set } else { 0 }
}

// The steps that a set has not.
fn others(set: u32) -> u32
    ensures { (step : ℕ) → step < 32 → has_step result step ≡ cond (has_step set step) false true }
{
    set ^ u32::MAX
}
