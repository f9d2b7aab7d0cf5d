//! Takes of just one block by a core between whose moves strangers step: what is answered, in how many
//! moves, and the words afterwards.

use super::cues::{lose, stranger};
use super::scripted::{Outcome, Words, open_used, outcome_of, script, words_with};
use core_frames::take_at_by;
use frame_core::HeldBlock;
use frame_words::TakeFault;
use plain_moves::Act;
use script_moves::Cue;
use std::alloc::Global;
use std::process::Abort;
use std::test::Fail;

// Takes the block of the order at this frame by the script, of a child that is free or in use.
fn run_at(alloc: Global, in_use: bool, at: (u32, u8), cues: &[Cue]) -> Result<Outcome, Fail> {
    let plain = open_used(alloc, in_use)?;
    let mut m = script(alloc, plain, cues)?;
    let before = m.plain().moves();
    let answer = match take_at_by(&mut m, 0, at.0, at.1) {
        Ok(block) => Ok(block.frame()),
        Err(fault) => Err(fault),
    };
    outcome_of(alloc, &m, before, answer)
}

// Such a take is answered so, in so many moves, with each cue made, and leaves these words.
fn answers_at(
    rt: &impl Abort,
    alloc: Global,
    in_use: bool,
    at: (u32, u8),
    cues: &[Cue],
    want: (Result<u32, TakeFault>, u64),
    after: Words,
) -> Result<(), Fail> {
    let outcome = run_at(alloc, in_use, at, cues)?;
    assert!(rt; (outcome.answer, outcome.moves) == want);
    assert!(rt; (outcome.after, outcome.skipped) == (after, 0));
    Ok(())
}

// The own reservation pays where it is of the tree, and stays; where it has too few frames they go into
// the word of the tree.
#[test]
fn takes_from_the_own_reservation(rt: HostRuntime) -> Result<(), Fail> {
    let alloc = rt.alloc();
    answers_at(
        &rt,
        alloc,
        true,
        (5, 0),
        &[],
        (Ok(5), 7),
        words_with(510, (0, true), Some((0, 510)), 33),
    )?;
    answers_at(
        &rt,
        alloc,
        true,
        (0, 0),
        &[],
        (Err(TakeFault::NoBlock), 8),
        words_with(511, (0, true), Some((0, 511)), 1),
    )?;
    answers_at(
        &rt,
        alloc,
        true,
        (0, 9),
        &[],
        (Err(TakeFault::NoBlock), 6),
        words_with(511, (511, false), None, 1),
    )
}

// Else the word of the tree pays, and the tree is not reserved. What is no block costs no move.
#[test]
fn takes_from_the_word_of_the_tree(rt: HostRuntime) -> Result<(), Fail> {
    let alloc = rt.alloc();
    let fresh = words_with(512, (512, false), None, 0);
    answers_at(
        &rt,
        alloc,
        false,
        (3, 0),
        &[],
        (Ok(3), 8),
        words_with(511, (511, false), None, 8),
    )?;
    for at in [(1, 1), (512, 0), (u32::MAX, 0)] {
        answers_at(
            &rt,
            alloc,
            false,
            at,
            &[],
            (Err(TakeFault::NoBlock), 0),
            fresh,
        )?;
    }
    answers_at(
        &rt,
        alloc,
        false,
        (0, 10),
        &[],
        (Err(TakeFault::BadOrder), 0),
        fresh,
    )
}

// Each payment is tried four times, once more after the drain; and a stranger may take away what rests.
#[test]
fn takes_at_a_place_beside_losses(rt: HostRuntime) -> Result<(), Fail> {
    let alloc = rt.alloc();
    let eight = [
        lose(2),
        lose(4),
        lose(6),
        lose(8),
        lose(11),
        lose(13),
        lose(15),
        lose(17),
    ];
    answers_at(
        &rt,
        alloc,
        false,
        (0, 0),
        &eight,
        (Err(TakeFault::Contended), 18),
        words_with(512, (512, false), None, 0),
    )?;
    answers_at(
        &rt,
        alloc,
        false,
        (0, 0),
        &eight[..7],
        (Ok(0), 23),
        words_with(511, (511, false), None, 1),
    )?;
    let away = stranger(1, 0, Act::SwapLocal { core: 0, put: None });
    answers_at(
        &rt,
        alloc,
        true,
        (1, 0),
        &[away],
        (Err(TakeFault::Contended), 6),
        words_with(511, (0, true), None, 1),
    )
}
