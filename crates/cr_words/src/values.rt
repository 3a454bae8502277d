//! The values that the words assign to the options.

ghost use Rattle.std.specs.Prelude.{◌≡◌, MatchResult, map, option_map};
ghost use Rattle.std.specs.List.{list_any};
ghost use Rattle.cr_words.specs.Commands.{values_of};
ghost use Rattle.cr_words.specs.Values.{IsWishOf, faults_of, workers_of, turns_of, number_for, every_of, into_of};
ghost use Rattle.cr_words.specs.Values.{task_of, named, is_beyond, exceeds, has_both, is_mixed};
ghost use Rattle.cr_words.specs.Tables.{choice_of, task_in};
ghost use Rattle.cr_words.specs.Readings.{IsFirst};

use crate::numbers::{number_between, small_between};
use crate::table::{CHOICES, Choice, TASKS, Task, is_among};
use crate::{Wish, WordsFault};
use clap::ArgMatches;
use clap::parser::ValueSource;

/// What the words assign to each option, by its name.
#[derive(Drop)]
pub struct Values<'m, 'a> {
    matches: &'m ArgMatches<'a>,
}

// What `--do` names, if it is one of these.
fn task_named(tasks: &'static [Task], word: &str) -> Option<&'static Task>
    ensures { option_map (λ task. task_in task.now) result ≡ named (map task_in tasks.now) word.now }
{
    for task in tasks {
        if word == task.name {
            return Some(task);
        }
    }
    None
}

impl<'m, 'a> Values<'m, 'a> {
    /// The values of these matches.
    pub fn of(matches: &'m ArgMatches<'a>) -> Values<'m, 'a>
        ensures { values_of result.matches.now ≡ values_of matches.now }
    {
        Values { matches }
    }

    // The value of an option, its default where it was not given.
    fn value(&self, name: &str) -> Option<&'a str>
        ensures { option_map (λ s. s.now) result ≡ (values_of self.now.matches.now).value name.now }
    {
        self.matches.get_str(name)
    }

    // Whether the words give an option. By clap's definition an entry without a source counts as given.
    fn is_given(&self, name: &str) -> bool
        ensures { result ≡ (values_of self.now.matches.now).is_given name.now }
    {
        match self.matches.value_source(name) {
            Some(ValueSource::CommandLine) => true,
            Some(ValueSource::DefaultValue) => false,
            None => self.matches.contains_id(name),
        }
    }

    // The number of workers.
    fn workers(&self) -> Option<u32>
        ensures { result ≡ workers_of (values_of self.now.matches.now) }
    {
        small_between(self.value("workers")?, 1, 64)
    }

    // The number of turns, if one was given.
    fn turns(&self) -> Option<Option<u64>>
        ensures { result ≡ turns_of (values_of self.now.matches.now) }
    {
        match self.value("turns") {
            Some(text) => Some(Some(number_between(text, 0, 9_223_372_036_854_775_807)?)),
            None => Some(None),
        }
    }

    // The number of a made problem.
    fn number(&self) -> Option<u32>
        ensures { result ≡ number_for (values_of self.now.matches.now) }
    {
        small_between(self.value("number")?, 0, u32::MAX)
    }

    // After how many turns each checkpoint comes, if that was given.
    fn every(&self) -> Option<Option<u64>>
        ensures { result ≡ every_of (values_of self.now.matches.now) }
    {
        match self.value("every") {
            Some(text) => Some(Some(number_between(text, 1, 9_223_372_036_854_775_807)?)),
            None => Some(None),
        }
    }

    // The number of checkpoints that an input is cut into.
    fn into_many(&self) -> Option<u32>
        ensures { result ≡ into_of (values_of self.now.matches.now) }
    {
        small_between(self.value("into")?, 1, 1024)
    }

    // What is to be done.
    fn task(&self) -> Option<&'static Task>
        ensures { option_map (λ task. task_in task.now) result ≡ task_of (values_of self.now.matches.now) }
    {
        task_named(TASKS, self.value("do")?)
    }

    // Whether this option is given, and the task has no use for it.
    fn is_beyond(&self, task: &Task, choice: &Choice) -> bool
        ensures { result ≡ is_beyond (values_of self.now.matches.now) (task_in task.now) (choice_of choice.now) }
    {
        self.is_given(choice.name) && !is_among(task.uses, choice.name)
    }

    // Whether one of these options is given that the task has no use for.
    fn is_any_beyond(&self, task: &Task, choices: &[Choice]) -> bool
        ensures { result ≡ list_any (is_beyond (values_of self.now.matches.now) (task_in task.now)) (map choice_of choices.now) }
    {
        for choice in choices {
            if self.is_beyond(task, choice) {
                return true;
            }
        }
        false
    }

    // Whether an option is given that the task has no use for.
    fn exceeds(&self, task: &Task) -> bool
        ensures { result ≡ exceeds (values_of self.now.matches.now) (task_in task.now) }
    {
        self.is_any_beyond(task, CHOICES)
    }

    // Whether both options are given that say when a search writes a checkpoint.
    fn has_both(&self) -> bool
        ensures { result ≡ has_both (values_of self.now.matches.now) }
    {
        self.is_given("turns") && self.is_given("every")
    }

    // Whether options are given that do not go together.
    fn is_mixed(&self, task: &Task) -> bool
        ensures { result ≡ is_mixed (values_of self.now.matches.now) (task_in task.now) }
    {
        self.exceeds(task) || self.has_both()
    }

    /// The wish that these values are, and else the first that is wrong with them.
    pub fn wish(&self) -> Result<Wish, WordsFault>
        ensures { MatchResult result (IsWishOf (values_of self.now.matches.now))
            (IsFirst (faults_of (values_of self.now.matches.now))) }
    {
        let Some(workers) = self.workers() else {
            return Err(WordsFault::Workers);
        };
        let Some(turns) = self.turns() else {
            return Err(WordsFault::Turns);
        };
        let Some(number) = self.number() else {
            return Err(WordsFault::Number);
        };
        let Some(task) = self.task() else {
            return Err(WordsFault::Mode);
        };
        let Some(every) = self.every() else {
            return Err(WordsFault::Every);
        };
        let Some(into) = self.into_many() else {
            return Err(WordsFault::Into);
        };
        if self.is_mixed(task) {
            return Err(WordsFault::Mixed);
        }
        Ok(Wish {
            workers,
            turns,
            mode: task.kind.mode(number, every, into),
        })
    }
}
