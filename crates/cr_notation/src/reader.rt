//! Reading byte by byte.

ghost use Rattle.std.specs.Prelude.{◌≡◌, ◌≢◌, ◌⊎◌, ◌≤◌, ◌++◌, List, [], length, get_or};
ghost use Rattle.std.specs.Prelude.{IfOk, OnOk, IfErr, MatchResult};
ghost use Rattle.cr_row.specs.Rows.{Places};
ghost use Rattle.cr_model.specs.declared.notation.NotationFault.{NotationFault};
ghost use Rattle.cr_model.specs.Notation.{Spells, is_blank, is_cross, IsNamed, group, change_of};
ghost use Rattle.cr_model.specs.Notation.{first_implied, last_implied, last_named};
ghost use Rattle.cr_model.specs.NotationFaults.{FirstFault};
ghost use Rattle.cr_notation.specs.declared.reader.Last.TheVariants as last;
ghost use Rattle.cr_notation.specs.Reading.{fresh, first_named, more_named, place_step, cross_on, cross_step};
ghost use Rattle.cr_notation.specs.Reading.{dot_step, comma_step, whole, end_step, byte_step, limited, read_all, kept};
ghost use Rattle.cr_notation.specs.Refining.{state_of, IsAdded, IsShut, IsReady, Steps, Gives};

use crate::kept::Kept;
use crate::laws::{
    a_text_has_one_first_fault, a_text_spells_one_list, no_text_is_taken_and_refused,
};
use cr_model::NotationFault;
use cr_model::limits::MOST_LEAD_CHANGES;
use cr_row::{Change, Stage, bell_of};
use std::alloc::{AllocError, Global};

/// What stands just before, in the block.
#[derive(Clone, Copy)]
enum Last {
    /// Nothing: the block starts here.
    Nothing,
    /// A dot, at this place.
    Dot(u64),
    Cross,
    /// A place of a group that is still open.
    Group,
}

// What was read so far, for a stage.
#[derive(Drop)]
struct Reader {
    stage: Stage,
    // The change without places, where the stage has it.
    cross: Option<Change>,
    comma_seen: bool,
    // The changes of a block that a comma ended, to the last one and back.
    done: Kept,
    // Those of the block since, without the open group's.
    block: Kept,
    // The places named in the open group.
    named: Vec<u8>,
    last: Last,
}

impl Reader {
    fn new(alloc: Global, stage: Stage) -> Reader
        ensures nothing { state_of result ≡ fresh }
        ensures ready { IsReady stage result }
    {
        Reader {
            stage,
            cross: cross_on(stage),
            comma_seen: false,
            done: Kept::new(alloc),
            block: Kept::new(alloc),
            named: Vec::new(alloc),
            last: Last::Nothing,
        }
    }

    // Reads one byte, at its place.
    #[tactic(auto, unfolding(crate::specs::Reading::byte_step, crate::specs::Reading::step))]
    fn take(&mut self, at: u64, byte: u8) -> Result<(), NotationFault>
        requires { IsReady self.old.stage self.old }
        ensures steps { Steps result (byte_step self.old.stage (state_of self.old) at byte) (state_of self.new) }
        ensures ready { OnOk result (IsReady self.old.stage self.new) }
    {
        if is_blank(byte) {
            Ok(())
        } else if is_cross(byte) {
            self.take_cross(at)
        } else if byte == b'.' {
            self.take_dot(at)
        } else if byte == b',' {
            self.take_comma(at)
        } else {
            match bell_of(byte) {
                Some(place) => self.take_place(at, place),
                None => Err(NotationFault::Symbol(at)),
            }
        }
    }

    #[tactic(auto, unfolding(crate::specs::Reading::cross_step), using(crate::proofs::Taken::cross_taken, crate::proofs::Taken::no_cross))]
    fn take_cross(&mut self, at: u64) -> Result<(), NotationFault>
        requires { IsReady self.old.stage self.old }
        ensures steps { Steps result (cross_step self.old.stage (state_of self.old) at) (state_of self.new) }
        ensures ready { OnOk result (IsReady self.old.stage self.new) }
    {
        let Some(cross) = self.cross else {
            return Err(NotationFault::CrossOnOdd(at));
        };
        self.close()?;
        self.block.add(cross)?;
        self.last = Last::Cross;
        Ok(())
    }

    #[tactic(auto, unfolding(crate::specs::Reading::place_step))]
    fn take_place(&mut self, at: u64, place: u8) -> Result<(), NotationFault>
        requires ready { IsReady self.old.stage self.old }
        requires from { 1 ≤ place }
        ensures steps { Steps result (place_step self.old.stage (state_of self.old) at place) (state_of self.new) }
        ensures ready { OnOk result (IsReady self.old.stage self.new) }
    {
        if place > self.stage.number() {
            return Err(NotationFault::Above(at));
        }
        match self.last {
            Last::Group => self.name_next(at, place),
            Last::Nothing | Last::Dot(_) | Last::Cross => {
                self.name_first(place)?;
                Ok(())
            }
        }
    }

    // The first place of a group.
    fn name_first(&mut self, place: u8) -> Result<(), AllocError>
        requires ready { IsReady self.old.stage self.old }
        requires from { 1 ≤ place }
        requires low { place ≤ self.old.stage }
        ensures named { OnOk result (state_of self.new ≡ first_named (state_of self.old) place) }
        ensures ready { OnOk result (IsReady self.old.stage self.new) }
    {
        self.named.clear();
        self.named.push(place)?;
        self.last = Last::Group;
        Ok(())
    }

    // One more place of the open group.
    #[tactic(auto, using(crate::proofs::Named::some_named, crate::proofs::Named::named_more, crate::proofs::Named::next_from, crate::proofs::Named::first_kept))]
    fn name_next(&mut self, at: u64, place: u8) -> Result<(), NotationFault>
        requires ready { IsReady self.old.stage self.old }
        requires open { self.old.last ≡ last.Group }
        requires low { place ≤ self.old.stage }
        ensures steps { Steps result (more_named (state_of self.old) at place) (state_of self.new) }
        ensures ready { OnOk result (IsReady self.old.stage self.new) }
    {
        let before = last_of(&self.named);
        if place <= before {
            return Err(NotationFault::Order(at));
        }
        if (place - before - 1) % 2 == 1 {
            return Err(NotationFault::Gap(at));
        }
        self.named.push(place)?;
        Ok(())
    }

    #[tactic(auto, unfolding(crate::specs::Reading::dot_step))]
    fn take_dot(&mut self, at: u64) -> Result<(), NotationFault>
        requires { IsReady self.old.stage self.old }
        ensures steps { Steps result (dot_step self.old.stage (state_of self.old) at) (state_of self.new) }
        ensures ready { OnOk result (IsReady self.old.stage self.new) }
    {
        if matches!(self.last, Last::Nothing | Last::Dot(_)) {
            return Err(NotationFault::Dot(at));
        }
        self.close()?;
        self.last = Last::Dot(at);
        Ok(())
    }

    #[tactic(auto, unfolding(crate::specs::Reading::comma_step))]
    fn take_comma(&mut self, at: u64) -> Result<(), NotationFault>
        requires { IsReady self.old.stage self.old }
        ensures steps { Steps result (comma_step self.old.stage (state_of self.old) at) (state_of self.new) }
        ensures ready { OnOk result (IsReady self.old.stage self.new) }
    {
        if let Last::Dot(dot) = self.last {
            return Err(NotationFault::Dot(dot));
        }
        if self.comma_seen {
            return Err(NotationFault::SecondComma(at));
        }
        if let Last::Nothing = self.last {
            return Err(NotationFault::EmptyBlock(at));
        }
        self.close()?;
        self.done.add_mirrored(self.block.changes())?;
        self.block.clear();
        self.comma_seen = true;
        self.last = Last::Nothing;
        Ok(())
    }

    // Ends the open group, if there is one, and adds its change to the block.
    #[tactic(auto, unfolding(crate::specs::Reading::closed))]
    fn close(&mut self) -> Result<(), AllocError>
        requires { IsReady self.old.stage self.old }
        ensures closed { OnOk result (IsShut self.old.stage (state_of self.old) (state_of self.new)) }
        ensures stays { OnOk result ((self.new.stage ≡ self.old.stage) × (self.new.cross ≡ self.old.cross)) }
    {
        match self.last {
            Last::Group => self.add_group(),
            Last::Nothing | Last::Dot(_) | Last::Cross => {
                self.named.clear();
                Ok(())
            }
        }
    }

    // Adds the change of the open group to the block.
    fn add_group(&mut self) -> Result<(), AllocError>
        requires rules { IsNamed self.old.stage self.old.named.items }
        requires from { 1 ≤ get_or self.old.named.items 0 0 }
        ensures { OnOk result (IsAdded (change_of self.old.stage (group self.old.named.items)) self.old self.new) }
    {
        let change = group_change(self.stage, &mut self.named)?;
        self.block.add(change)?;
        self.named.clear();
        Ok(())
    }

    // The changes of the whole, as far as they are kept.
    #[tactic(auto, unfolding(crate::specs::Reading::closed), using(crate::proofs::Keeping::both_mirrored))]
    fn into_whole(mut self) -> Result<Vec<Change>, AllocError>
        requires { IsReady self.stage self }
        ensures { IfOk result (λ changes. changes.items ≡ kept (whole self.stage (state_of self))) }
    {
        self.close()?;
        if self.comma_seen {
            self.done.add_mirrored(self.block.changes())?;
            Ok(self.done.into_changes())
        } else {
            Ok(self.block.into_changes())
        }
    }

    // The changes of a text that ends at this place, if they are not too many.
    #[tactic(auto, unfolding(crate::specs::Reading::end_step), using(crate::proofs::Keeping::few_limited, crate::proofs::Keeping::many_limited))]
    fn finish(self, at: u64) -> Result<Vec<Change>, NotationFault>
        requires { IsReady self.stage self }
        ensures { Gives (λ v. v.items) result (limited at (end_step self.stage (state_of self) at)) }
    {
        match self.last {
            Last::Dot(dot) => return Err(NotationFault::Dot(dot)),
            Last::Nothing => return Err(NotationFault::EmptyBlock(at)),
            Last::Cross | Last::Group => {}
        }
        let changes = self.into_whole()?;
        if changes.len() > MOST_LEAD_CHANGES {
            return Err(NotationFault::Long(at));
        }
        Ok(changes)
    }
}

// A space or a tab.
fn is_blank(byte: u8) -> bool
    ensures { result ≡ is_blank byte }
{
    byte == b' ' || byte == b'\t'
}

fn is_cross(byte: u8) -> bool
    ensures { result ≡ is_cross byte }
{
    byte == b'x' || byte == b'X' || byte == b'-'
}

// The change without places, where the stage has it.
#[tactic(auto, using(crate::proofs::Chains::cross_is_change))]
fn cross_on(stage: Stage) -> Option<Change>
    ensures { result ≡ cross_on stage }
{
    if stage.number() % 2 == 1 {
        return None;
    }
    match Change::from_places(stage, &[]) {
        Ok(cross) => Some(cross),
        Err(_) => unreachable!(),
    }
}

// The change of a group: the named places, and the first and the last where they are implied. It uses the list up.
#[tactic(auto, using(crate::proofs::Named::some_named, crate::proofs::Named::last_low, crate::proofs::Named::first_same, crate::proofs::Chains::group_is_change))]
fn group_change(stage: Stage, named: &mut Vec<u8>) -> Result<Change, AllocError>
    requires rules { IsNamed stage named.old.items }
    requires from { 1 ≤ get_or named.old.items 0 0 }
    ensures { IfOk result (λ change. change ≡ change_of stage (group named.old.items)) }
{
    add_last(stage, named)?;
    add_first(named)?;
    match Change::from_places(stage, named) {
        Ok(change) => Ok(change),
        Err(_) => unreachable!(),
    }
}

// Place 1, where an odd number of places stands before the first one.
fn add_first(named: &mut Vec<u8>) -> Result<(), AllocError>
    requires some { 1 ≤ length named.old.items }
    requires from { 1 ≤ get_or named.old.items 0 0 }
    ensures { OnOk result (named.new.items ≡ first_implied named.old.items ++ named.old.items) }
{
    let first = named[0];
    if (first - 1) % 2 == 1 {
        named.insert(0, 1)?;
    }
    Ok(())
}

// The last of the named places.
#[tactic(auto, using(crate::proofs::Named::last_at))]
fn last_of(named: &[u8]) -> u8
    requires { 1 ≤ length named.now }
    ensures { result ≡ last_named named.now }
{
    named[named.len() - 1]
}

// The last place, where an odd number of places stands after the last one.
fn add_last(stage: Stage, named: &mut Vec<u8>) -> Result<(), AllocError>
    requires some { 1 ≤ length named.old.items }
    requires low { last_named named.old.items ≤ stage }
    ensures { OnOk result (named.new.items ≡ named.old.items ++ last_implied stage named.old.items) }
{
    if (stage.number() - last_of(named)) % 2 == 1 {
        named.push(stage.number())?;
    }
    Ok(())
}

// What the bytes are read as.
fn read_bytes(alloc: Global, stage: Stage, bytes: &[u8]) -> Result<Vec<Change>, NotationFault>
    ensures { Gives (λ v. v.items) result (read_all stage bytes.now) }
{
    let mut reader = Reader::new(alloc, stage);
    for (at, byte) in bytes.iter().enumerate() {
        reader.take(at as u64, *byte)?;
    }
    reader.finish(bytes.len() as u64)
}

/// The changes that a text of place notation spells on a stage, 1 to 128 of them, in the order in which
/// they are rung.
///
/// Any other text is refused with its first fault from the left, and the place of the byte at which it
/// comes, counted from 0. `NoMemory` comes where no memory is left, and says nothing about the text.
pub fn read_notation(alloc: Global, stage: Stage, text: &str) -> Result<Vec<Change>, NotationFault>
    ensures spelled { IfOk result (λ changes. Spells stage text.now changes.items) }
    ensures refused { IfErr result (λ fault. fault ≢ NotationFault.NoMemory → FirstFault stage text.now fault) }
    ensures accepts { (changes : List Places) → Spells stage text.now changes →
        MatchResult result (λ read. read.items ≡ changes) (λ fault. fault ≡ NotationFault.NoMemory) }
    ensures refuses { (why : NotationFault) → FirstFault stage text.now why →
        MatchResult result (λ _. ⊥) (λ fault. (fault ≡ why) ⊎ (fault ≡ NotationFault.NoMemory)) }
{
    a_text_spells_one_list();
    a_text_has_one_first_fault();
    no_text_is_taken_and_refused();
    read_bytes(alloc, stage, text.as_bytes())
}
