use super::*;
use cr_model::Calling;
use std::alloc::Global;
use std::test::*;

// A word of plain leads (0) and bobs (1), whether it turns back, and whether it is the least of its rotations.
const WORDS: &[(&str, &[u8], bool, bool)] = &[
    ("none", &[], false, true),
    ("p", &[0], false, true),
    ("b", &[1], false, true),
    ("bp", &[1, 0], true, false),
    ("pb", &[0, 1], false, true),
    ("ppb", &[0, 0, 1], false, true),
    ("pbp", &[0, 1, 0], false, false),
    ("pbpp", &[0, 1, 0, 0], true, false),
    ("pbpb", &[0, 1, 0, 1], false, true),
    ("pbpbb", &[0, 1, 0, 1, 1], false, true),
    ("pbpbbpb", &[0, 1, 0, 1, 1, 0, 1], false, false),
    ("pbbpbp", &[0, 1, 1, 0, 1, 0], true, false),
    ("bbb", &[1, 1, 1], false, true),
];

#[test]
fn words_that_turn_back(rt: HostRuntime) {
    for &(name, word, turns, _) in WORDS {
        assert_eq!(rt; turns_back(word), turns, "{name}");
    }
}

// The word is pushed step by step, and its last steps are popped and pushed again.
fn grown(alloc: Global, word: &[u8], again: usize) -> Result<Period, Fail> {
    let mut period = Period::new(alloc)?;
    push_all(&mut period, word);
    for _ in 0..again {
        if !period.steps().is_empty() {
            period.pop();
        }
    }
    push_all(&mut period, &word[word.len().saturating_sub(again)..]);
    Ok(period)
}

fn push_all(period: &mut Period, word: &[u8]) {
    for step in word {
        if period.steps().len() < 1024 {
            period.push(*step);
        }
    }
}

#[test]
fn a_period_grows_and_shrinks(rt: HostRuntime) -> Result<(), Fail> {
    for &(name, word, turns, least) in WORDS {
        let period = grown(rt.alloc(), word, 2)?;
        assert_eq!(rt; period.turns_back(), turns, "{name}");
        assert_eq!(rt; period.is_least(), least, "{name}");
        assert_eq!(rt; period.steps(), word, "{name}");
    }
    Ok(())
}

#[test]
fn a_period_with_a_step_more(rt: HostRuntime) -> Result<(), Fail> {
    for &(name, word, turns, _) in WORDS {
        if let Some((last, front)) = word.split_last() {
            let period = grown(rt.alloc(), front, 0)?;
            assert_eq!(rt; period.turns_back_with(*last), turns, "{name}");
        }
    }
    Ok(())
}

#[test]
fn a_period_has_room_for_1024_steps(rt: HostRuntime) -> Result<(), Fail> {
    let period = grown(rt.alloc(), &[0; 1024], 1024)?;
    assert!(rt; period.is_least());
    Ok(())
}

// A calling, by how many leads it is turned, and the rotation.
const TURNED: &[(&[u8], u64, &[u8])] = &[
    (&[1, 0, 1, 0, 1, 0], 1, &[0, 1, 0, 1, 0, 1]),
    (&[0, 1, 0, 1, 0, 1], 1, &[1, 0, 1, 0, 1, 0]),
    (&[0, 1, 2], 0, &[0, 1, 2]),
    (&[0, 1, 2], 2, &[2, 0, 1]),
    (&[0, 1, 2], 3, &[0, 1, 2]),
];

fn calling(alloc: Global, steps: &[u8]) -> Result<Calling, Fail> {
    match Calling::new(steps.to_vec(alloc)?) {
        Ok(calling) => Ok(calling),
        Err(_) => Err(Fail::from("the calling is short")),
    }
}

#[test]
fn rotations(rt: HostRuntime) -> Result<(), Fail> {
    for &(steps, by, wanted) in TURNED {
        let before = calling(rt.alloc(), steps)?;
        let rotation = rotated(rt.alloc(), &before, by)?;
        assert_eq!(rt; rotation.steps(), wanted, "by {by}");
    }
    Ok(())
}

fn rotated(alloc: Global, before: &Calling, by: u64) -> Result<Calling, Fail> {
    if by > before.steps().len() as u64 {
        return Err(Fail::from("a calling is turned by no more than its leads"));
    }
    match turned(alloc, before, by) {
        Ok(rotation) => Ok(rotation),
        Err(_) => Err(Fail::from("there is memory")),
    }
}
