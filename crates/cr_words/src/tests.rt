//! Lines of words and what reading them answers.

use super::*;
use std::alloc::Global;
use std::test::Fail;

// The words of a line, with one space between two.
fn words_of(alloc: Global, line: &str) -> Result<Vec<String>, Fail> {
    let mut words = Vec::new(alloc);
    for word in line.split(' ') {
        words.push(String::from_str(alloc, word)?)?;
    }
    Ok(words)
}

// A line and its wish.
#[derive(Clone, Copy)]
struct Taken(&'static str, u32, Option<u64>, Mode);

const TAKEN: &[Taken] = &[
    Taken("--turns=5", 1, Some(5), Mode::Search),
    Taken("--turns 5", 1, Some(5), Mode::Search),
    Taken("--turns 007", 1, Some(7), Mode::Search),
    Taken("--turns 0", 1, Some(0), Mode::Search),
    Taken(
        "--turns 9223372036854775807",
        1,
        Some(9_223_372_036_854_775_807),
        Mode::Search,
    ),
    Taken("--workers 1", 1, None, Mode::Search),
    Taken("--workers 64", 64, None, Mode::Search),
    Taken("--workers 00064", 64, None, Mode::Search),
    Taken("--workers 4 --turns 100000", 4, Some(100_000), Mode::Search),
    Taken("--do=search", 1, None, Mode::Search),
    Taken("--do make", 1, None, Mode::Make(0)),
    Taken("--do make --number 7", 1, None, Mode::Make(7)),
    Taken(
        "--number=4294967295 --do=make --workers=2",
        2,
        None,
        Mode::Make(4_294_967_295),
    ),
    Taken("--", 1, None, Mode::Search),
    Taken("--every 1", 1, None, Mode::Trail(1)),
    Taken("--every=007 --workers 2", 2, None, Mode::Trail(7)),
    Taken(
        "--do search --every 9223372036854775807",
        1,
        None,
        Mode::Trail(9_223_372_036_854_775_807),
    ),
    Taken("--do last", 1, None, Mode::Last),
    Taken("--do cut", 1, None, Mode::Cut(1)),
    Taken("--do cut --into 1", 1, None, Mode::Cut(1)),
    Taken("--into=0002 --do=cut", 1, None, Mode::Cut(2)),
    Taken("--do cut --into 1024", 1, None, Mode::Cut(1024)),
    Taken("--do join", 1, None, Mode::Join),
    Taken("--do log", 1, None, Mode::Log),
    Taken("--do=audit", 1, None, Mode::Audit),
];

// A line and its fault.
#[derive(Clone, Copy)]
struct Refused(&'static str, WordsFault);

const REFUSED: &[Refused] = &[
    Refused("--workers 0", WordsFault::Workers),
    Refused("--workers 65", WordsFault::Workers),
    Refused("--do find", WordsFault::Mode),
    Refused("--do make --turns 5", WordsFault::Mixed),
    Refused("--number 1", WordsFault::Mixed),
    Refused("--bells", WordsFault::Line),
    Refused("--workers", WordsFault::Line),
    Refused("--turns 1 --turns 2", WordsFault::Line),
    Refused("--do make --do make", WordsFault::Line),
    Refused("--turns 1 --workers --number 3", WordsFault::Line),
    Refused("--turns -1", WordsFault::Line),
    Refused("--work 3", WordsFault::Line),
    Refused("3", WordsFault::Line),
    Refused("", WordsFault::Line),
    Refused("--workers 3 ", WordsFault::Line),
    Refused("é", WordsFault::Line),
    Refused("-- 3", WordsFault::Line),
    Refused("--help", WordsFault::Line),
    Refused("-h", WordsFault::Line),
    Refused("--version", WordsFault::Line),
    Refused("--workers=", WordsFault::Workers),
    Refused("--workers ", WordsFault::Workers),
    Refused("--workers ٣", WordsFault::Workers),
    Refused("--workers 4294967297", WordsFault::Workers),
    Refused("--workers 00000000000000000001", WordsFault::Workers),
    Refused("--turns +5", WordsFault::Turns),
    Refused("--turns 9223372036854775808", WordsFault::Turns),
    Refused("--turns 10000000000000000000", WordsFault::Turns),
    Refused("--do make --number 4294967296", WordsFault::Number),
    Refused("--number x --do y", WordsFault::Number),
    Refused(
        "--do z --number y --turns x --workers w",
        WordsFault::Workers,
    ),
    Refused("--do make --turns x", WordsFault::Turns),
    Refused("--do find --number 1", WordsFault::Mode),
    Refused("--every", WordsFault::Line),
    Refused("--every 0", WordsFault::Every),
    Refused("--every 9223372036854775808", WordsFault::Every),
    Refused("--every 0 --turns 5", WordsFault::Every),
    Refused("--do last --every 0", WordsFault::Every),
    Refused("--do find --every 0", WordsFault::Mode),
    Refused("--every 5 --turns 5", WordsFault::Mixed),
    Refused("--do last --every 3", WordsFault::Mixed),
    Refused("--do last --workers 1", WordsFault::Mixed),
    Refused("--do make --every 3", WordsFault::Mixed),
    Refused("--every 3 --number 1", WordsFault::Mixed),
    Refused("--into", WordsFault::Line),
    Refused("--do cut --into 1 --into 1", WordsFault::Line),
    Refused("--do cut --into 0", WordsFault::Into),
    Refused("--do cut --into 1025", WordsFault::Into),
    Refused("--do cut --into 4294967297", WordsFault::Into),
    Refused("--do cut --into=", WordsFault::Into),
    Refused("--into 0", WordsFault::Into),
    Refused("--do join --into 0", WordsFault::Into),
    Refused("--do cut --into 0 --workers 2", WordsFault::Into),
    Refused("--do find --into 0", WordsFault::Mode),
    Refused("--every 0 --into 0", WordsFault::Every),
    Refused("--do search --into 2", WordsFault::Mixed),
    Refused("--into 1", WordsFault::Mixed),
    Refused("--do make --into 2", WordsFault::Mixed),
    Refused("--do last --into 2", WordsFault::Mixed),
    Refused("--do join --into 1", WordsFault::Mixed),
    Refused("--do cut --workers 1", WordsFault::Mixed),
    Refused("--do cut --turns 1", WordsFault::Mixed),
    Refused("--do cut --every 1", WordsFault::Mixed),
    Refused("--do cut --number 0", WordsFault::Mixed),
    Refused("--do join --workers 1", WordsFault::Mixed),
    Refused("--do join --turns 1", WordsFault::Mixed),
    Refused("--do join --every 1", WordsFault::Mixed),
    Refused("--do join --number 0", WordsFault::Mixed),
    Refused("--do logs", WordsFault::Mode),
    Refused("--audit", WordsFault::Line),
    Refused("--do log --workers 1", WordsFault::Mixed),
    Refused("--do log --turns 1", WordsFault::Mixed),
    Refused("--do log --every 1", WordsFault::Mixed),
    Refused("--do log --number 0", WordsFault::Mixed),
    Refused("--do log --into 1", WordsFault::Mixed),
    Refused("--do log --every 0", WordsFault::Every),
    Refused("--do audit --workers 1", WordsFault::Mixed),
    Refused("--do audit --turns 1", WordsFault::Mixed),
    Refused("--do audit --every 1", WordsFault::Mixed),
    Refused("--do audit --number 0", WordsFault::Mixed),
    Refused("--do audit --into 1", WordsFault::Mixed),
    Refused("--do audit --into 1025", WordsFault::Into),
];

#[test]
fn no_words_are_a_search(rt: HostRuntime) -> Result<(), Fail> {
    let words: Vec<String> = Vec::new(rt.alloc());
    let wish = Wish {
        workers: 1,
        turns: None,
        mode: Mode::Search,
    };
    assert!(rt; read_words(rt.alloc(), &words) == Ok(wish));
    Ok(())
}

#[test]
fn lines_are_wishes(rt: HostRuntime) -> Result<(), Fail> {
    for &Taken(line, workers, turns, mode) in TAKEN {
        let words = words_of(rt.alloc(), line)?;
        let wish = Wish {
            workers,
            turns,
            mode,
        };
        if read_words(rt.alloc(), &words) != Ok(wish) {
            return Err(Fail::from(line));
        }
    }
    Ok(())
}

#[test]
fn lines_are_refused(rt: HostRuntime) -> Result<(), Fail> {
    for &Refused(line, fault) in REFUSED {
        let words = words_of(rt.alloc(), line)?;
        if read_words(rt.alloc(), &words) != Err(fault) {
            return Err(Fail::from(line));
        }
    }
    Ok(())
}
