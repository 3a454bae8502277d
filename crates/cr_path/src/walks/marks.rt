//! Marks of representative rows.

ghost use Rattle.std.specs.Prelude.{◌≡◌, ◌+◌, ◌-◌, ◌<◌, ◌≤◌, nat_eq, true, false, length, get_or, replicate, All, IfOk};
ghost use Rattle.cr_path.specs.Marks.{some_marked, AreSet};
ghost use Rattle.cr_model.specs.Limits.{most_leads};

use cr_row::NoMemory;
use std::alloc::Global;
use std::marker::Model;

/// Of each representative row whether it is marked, and of how many leads the representative rows are not.
///
/// It is seen as the list of marks and that number.
#[derive(Drop)]
pub struct Marks {
    marks: Vec<bool>,
    // The last ones of a node, from the first on that brings a row again: in a search nearly always none, so that this
    // number stays as it is from turn to turn.
    unmarked: usize,
}

impl Model for Marks {
    ghost use Rattle.cr_path.specs.Marks.{MarksParts};

    ghost Value = { MarksParts };

    ghost view = { λ m. record { marks = m.marks.items; unmarked = m.unmarked } };
}

impl Marks {
    /// No mark on so many rows. All memory is taken here.
    pub fn new(alloc: Global, rows: usize) -> Result<Marks, NoMemory>
        ensures { IfOk result (λ marks. marks ≡ record { marks = replicate rows false; unmarked = 0 }) }
    {
        let marks = Vec::from_elem(alloc, false, rows)?;
        Ok(Marks { marks, unmarked: 0 })
    }

    /// Whether the representative rows of all leads are marked.
    #[inline(always)]
    pub fn are_all(&self) -> bool
        ensures { result ≡ nat_eq self.now.unmarked 0 }
    {
        self.unmarked == 0
    }

    /// The marks.
    #[inline(always)]
    pub fn marks(&self) -> &[bool]
        ensures { result.now ≡ self.now.marks }
    {
        &self.marks
    }

    /// Whether the first row is marked.
    #[inline(always)]
    pub fn has_first(&self) -> bool
        requires { 0 < length self.now.marks }
        ensures { result ≡ get_or self.now.marks 0 false }
    {
        self.marks[0]
    }

    /// Whether one of a lead's numbers is marked.
    #[inline(always)]
    pub fn has_some(&self, numbers: &[u32]) -> bool
        requires { All (λ number. number < length self.now.marks) numbers.now }
        ensures { result ≡ some_marked self.now.marks numbers.now }
    {
        some_marked(&self.marks, numbers)
    }

    /// Marks the representative rows of one lead more, if its rows are new.
    #[inline(always)]
    pub fn add(&mut self, numbers: &[u32], is_new: bool)
        requires within { All (λ number. number < length self.old.marks) numbers.now }
        requires few { self.old.unmarked ≤ most_leads }
        ensures long { length self.new.marks ≡ length self.old.marks }
        ensures added { is_new ≡ true → AreSet true numbers.now self.old.marks self.new.marks × (self.new.unmarked ≡ self.old.unmarked) }
        ensures same { is_new ≡ false → self.new ≡ record { marks = self.old.marks; unmarked = self.old.unmarked + 1 } }
    {
        if is_new {
            set_all(&mut self.marks, numbers, true);
        } else {
            self.unmarked += 1;
        }
    }

    /// Takes the marks of the last lead away, if those of all leads are marked.
    #[inline(always)]
    pub fn take_back(&mut self, numbers: &[u32])
        requires { All (λ number. number < length self.old.marks) numbers.now }
        ensures long { length self.new.marks ≡ length self.old.marks }
        ensures taken { self.old.unmarked ≡ 0 → AreSet false numbers.now self.old.marks self.new.marks × (self.new.unmarked ≡ 0) }
        ensures same { 0 < self.old.unmarked → self.new ≡ record { marks = self.old.marks; unmarked = self.old.unmarked - 1 } }
    {
        if self.unmarked == 0 {
            set_all(&mut self.marks, numbers, false);
        } else {
            self.unmarked -= 1;
        }
    }
}

/// Whether one of the numbers is marked. All of them are looked at, which takes less time than to leave early.
#[inline(always)]
pub fn some_marked(marks: &[bool], numbers: &[u32]) -> bool
    requires { All (λ number. number < length marks.now) numbers.now }
    ensures { result ≡ some_marked marks.now numbers.now }
{
    let mut marked = false;
    for number in numbers {
        marked |= marks[*number as usize];
    }
    marked
}

// Sets the marks of a lead's numbers.
#[inline(always)]
fn set_all(marks: &mut [bool], numbers: &[u32], mark: bool)
    requires { All (λ number. number < length marks.old) numbers.now }
    ensures { AreSet mark numbers.now marks.old marks.new }
{
    for number in numbers {
        marks[*number as usize] = mark;
    }
}
