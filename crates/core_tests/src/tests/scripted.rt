//! Takes and gives of a core between whose moves strangers step: what is answered, in how many
//! moves, and the words afterwards.

ghost use Rattle.std.specs.Prelude.{◌≡◌, ◌<◌, IfOk};
ghost use Rattle.plain_moves.specs.PlainState.{IsByItself};
ghost use Rattle.core_frames.specs.Searches.{MayBegin};
ghost use Rattle.core_frames.specs.Splits.{MaySplit};

use super::cues::{lose, stop, stranger};
use core_frames::{Habit, split_by, take_by};
use frame_core::{HeldBlock, Image, Moves, PlainBlock};
use frame_words::{Geometry, TakeFault};
use plain_moves::{Act, PlainMoves};
use script_moves::{Cue, ScriptMoves};
use std::alloc::Global;
use std::process::Abort;
use std::test::Fail;

// What the words of one child, of its tree and of one core say.
#[derive(Clone, Copy, PartialEq, Eq)]
pub(super) struct Words {
    pub(super) entry: (u32, bool),
    pub(super) tree: (u32, bool),
    pub(super) rest: Option<(u32, u32)>,
    pub(super) bits: [u64; 8],
}

// The first frame of the block that a take answered, or why it was refused, in how many moves, how
// many cues were not made, the words afterwards, and those of the latest stop.
#[derive(Drop)]
pub(super) struct Outcome {
    pub(super) answer: Result<u32, TakeFault>,
    pub(super) moves: u64,
    pub(super) skipped: u32,
    pub(super) after: Words,
    stop: Option<Words>,
}

// The words of a child, in a memory of one tree.
pub(super) fn words_of(image: &Image, child: u32) -> Result<Words, Fail> {
    let geometry = image.geometry();
    if child >= geometry.children() || geometry.trees() != 1 {
        return Err(Fail::from("another memory"));
    }
    let mut bits = [0; 8];
    for word in 0..8u32 {
        bits[word as usize] = image.word(child, word);
    }
    Ok(Words {
        entry: (image.free(child), image.huge(child)),
        tree: (image.tree_free(0), image.tree_reserved(0)),
        rest: image.local_at(0),
        bits,
    })
}

// A free child with one core.
fn open(alloc: Global) -> Result<PlainMoves, Fail>
    ensures company { IfOk result IsByItself }
    ensures begins { IfOk result (λ m. MayBegin 0 (⟦<PlainMoves as Moves>⟧.at m)) }
{
    Ok(PlainMoves::new(alloc, &Geometry::new(1, 1)?)?)
}

// The core takes a block beside nobody.
fn taken(m: &mut PlainMoves, order: u8) -> Result<PlainBlock, Fail>
    requires company { IsByItself m.old }
    requires begins { MayBegin 0 (⟦<PlainMoves as Moves>⟧.at m.old) }
    ensures company { IsByItself m.new }
    ensures begins { MayBegin 0 (⟦<PlainMoves as Moves>⟧.at m.new) }
    ensures out { IfOk result (λ b. (⟦<PlainMoves as Moves>⟧.at m.new).is_out b) }
{
    let geometry = m.geometry();
    let mut habit = Habit::of(geometry, 0);
    match take_by(m, &mut habit, order) {
        Ok(block) if block.frame() == 0 => Ok(block),
        _ => Err(Fail::from("another frame")),
    }
}

// The same child, of which the first frame is held if it is in use.
pub(super) fn open_used(alloc: Global, in_use: bool) -> Result<PlainMoves, Fail>
    ensures company { IfOk result IsByItself }
    ensures begins { IfOk result (λ m. MayBegin 0 (⟦<PlainMoves as Moves>⟧.at m)) }
{
    let mut m = open(alloc)?;
    if !in_use {
        return Ok(m);
    }
    taken(&mut m, 0)?;
    Ok(m)
}

// The caller goes on by a script.
pub(super) fn script(alloc: Global, plain: PlainMoves, cues: &[Cue]) -> Result<ScriptMoves, Fail>
    requires company { IsByItself plain }
    requires begins { MayBegin 0 (⟦<PlainMoves as Moves>⟧.at plain) }
    ensures { IfOk result (λ m. MayBegin 0 (⟦<ScriptMoves as Moves>⟧.at m)) }
{
    let cues = cues.to_vec(alloc)?;
    match ScriptMoves::new(alloc, plain, cues) {
        Ok(m) => Ok(m),
        Err(_) => Err(Fail::from("no memory")),
    }
}

// Takes a frame by the script, of a child that is free or in use.
fn run(alloc: Global, in_use: bool, cues: &[Cue]) -> Result<Outcome, Fail> {
    let plain = open_used(alloc, in_use)?;
    let mut m = script(alloc, plain, cues)?;
    let before = m.plain().moves();
    let geometry = m.geometry();
    let mut habit = Habit::of(geometry, 0);
    let answer = match take_by(&mut m, &mut habit, 0) {
        Ok(block) => Ok(block.frame()),
        Err(fault) => Err(fault),
    };
    outcome_of(alloc, &m, before, answer)
}

pub(super) fn outcome_of(
    alloc: Global,
    m: &ScriptMoves,
    before: u64,
    answer: Result<u32, TakeFault>,
) -> Result<Outcome, Fail> {
    let after = words_of(&m.plain().image(alloc)?, 0)?;
    let stop = match m.stopped() {
        Some(image) => Some(words_of(image, 0)?),
        None => None,
    };
    Ok(Outcome {
        answer,
        moves: m.plain().moves().saturating_sub(before),
        skipped: m.skipped(),
        after,
        stop,
    })
}

fn held_in(words: &Words) -> u32 {
    let mut held = if words.entry.1 { 512u32 } else { 0 };
    for bits in words.bits {
        held = held.saturating_add(bits.count_ones());
    }
    held
}

// Each frame is free by the entry or held, and free by the word of the tree, at rest, held or paid
// by a stranger. The tree is reserved by a core, or by a stranger.
fn adds_up(words: &Words, paid: u32, is_reserving: bool) -> bool {
    let held = held_in(words);
    let resting = match words.rest {
        Some((_tree, count)) => count,
        None => 0,
    };
    words.entry.0.saturating_add(held) == 512
        && words
            .tree
            .0
            .saturating_add(resting)
            .saturating_add(held)
            .saturating_add(paid)
            == 512
        && words.tree.1 == (is_reserving || words.rest.is_some())
}

// The tries to reserve the tree, all of which are lost.
fn losses() -> [Cue; 8] {
    [
        lose(3),
        lose(5),
        lose(7),
        lose(9),
        lose(12),
        lose(14),
        lose(16),
        lose(18),
    ]
}

// The words of a child that is no huge frame, and of whose frames none but the first 64 are held.
pub(super) fn words_with(
    entry: u32,
    tree: (u32, bool),
    rest: Option<(u32, u32)>,
    bits: u64,
) -> Words {
    Words {
        entry: (entry, false),
        tree,
        rest,
        bits: [bits, 0, 0, 0, 0, 0, 0, 0],
    }
}

// A take is answered so, in so many moves, with each cue made, and leaves these words.
fn answers(
    rt: &impl Abort,
    alloc: Global,
    in_use: bool,
    cues: &[Cue],
    want: (Result<u32, TakeFault>, u64),
    after: Words,
) -> Result<(), Fail> {
    let outcome = run(alloc, in_use, cues)?;
    assert!(rt; (outcome.answer, outcome.moves) == want);
    assert!(rt; (outcome.after, outcome.skipped) == (after, 0));
    Ok(())
}

#[test]
fn takes_beside_losses(rt: HostRuntime) -> Result<(), Fail> {
    let eight = losses();
    answers(
        &rt,
        rt.alloc(),
        false,
        &eight,
        (Err(TakeFault::Contended), 19),
        words_with(512, (512, false), None, 0),
    )?;
    answers(
        &rt,
        rt.alloc(),
        false,
        &eight[..7],
        (Ok(0), 25),
        words_with(511, (0, true), Some((0, 511)), 1),
    )
}

// A stranger takes away what rests, and may put it back into the word of the tree.
#[test]
fn takes_beside_a_stranger(rt: HostRuntime) -> Result<(), Fail> {
    let away = stranger(1, 0, Act::SwapLocal { core: 0, put: None });
    let back = stranger(3, 0, Act::Unreserve { tree: 0, n: 511 });
    answers(
        &rt,
        rt.alloc(),
        true,
        &[away],
        (Err(TakeFault::Contended), 7),
        words_with(511, (0, true), None, 1),
    )?;
    answers(
        &rt,
        rt.alloc(),
        true,
        &[away, back],
        (Ok(1), 12),
        words_with(510, (0, true), Some((0, 510)), 3),
    )
}

// One loss at any move of a take that already loses seven times, or that loses none.
#[test]
fn a_loss_at_any_move_leaves_the_sums(rt: HostRuntime) -> Result<(), Fail> {
    let eight = losses();
    for count in 0..8usize {
        for at in 0..30u32 {
            let mut cues = eight[..count].to_vec(rt.alloc())?;
            cues.push(lose(at))?;
            let outcome = run(rt.alloc(), false, &cues)?;
            let held = match outcome.answer {
                Ok(frame) => {
                    assert!(rt; frame == 0, "{count} {at}");
                    1
                }
                Err(fault) => {
                    assert!(rt; fault == TakeFault::Contended, "{count} {at}");
                    0
                }
            };
            assert!(rt; held_in(&outcome.after) == held, "{count} {at}");
            assert!(rt; adds_up(&outcome.after, 0, false), "{count} {at}");
        }
    }
    Ok(())
}

// A child of one core that holds its huge frame.
fn open_holding(alloc: Global) -> Result<(PlainMoves, PlainBlock), Fail>
    ensures company { IfOk result (λ r. IsByItself r.0) }
    ensures begins { IfOk result (λ r. MayBegin 0 (⟦<PlainMoves as Moves>⟧.at r.0)) }
    ensures out { IfOk result (λ r. (⟦<PlainMoves as Moves>⟧.at r.0).is_out r.1) }
{
    let mut m = open(alloc)?;
    let block = taken(&mut m, 9)?;
    Ok((m, block))
}

// The caller goes on by a script with the block that it holds.
fn script_with(
    alloc: Global,
    plain: PlainMoves,
    block: PlainBlock,
    cues: &[Cue],
) -> Result<(ScriptMoves, PlainBlock), Fail>
    requires company { IsByItself plain }
    requires begins { MayBegin 0 (⟦<PlainMoves as Moves>⟧.at plain) }
    requires out { (⟦<PlainMoves as Moves>⟧.at plain).is_out block }
    ensures { IfOk result (λ r. MaySplit r.1 (⟦<ScriptMoves as Moves>⟧.at r.0)) }
{
    let cues = cues.to_vec(alloc)?;
    match ScriptMoves::new(alloc, plain, cues) {
        Ok(m) => Ok((m, block)),
        Err(_) => Err(Fail::from("no memory")),
    }
}

// Splits the huge frame by a script: the first frame of the upper half, and what a take has else.
fn run_split(alloc: Global, cues: &[Cue]) -> Result<Outcome, Fail> {
    let (plain, block) = open_holding(alloc)?;
    let (mut m, block) = script_with(alloc, plain, block, cues)?;
    let before = m.plain().moves();
    let answer = match split_by(&mut m, block) {
        Ok((_lower, upper)) => Ok(upper.frame()),
        Err(_) => Err(TakeFault::NoBlock),
    };
    outcome_of(alloc, &m, before, answer)
}

// The bits go up before the flag goes down, and both halves leave behind it.
#[test]
fn a_stop_shows_each_step_of_a_split(rt: HostRuntime) -> Result<(), Fail> {
    for at in 0..12u32 {
        let outcome = run_split(rt.alloc(), &[stop(at)])?;
        assert!(rt; (outcome.answer, outcome.moves) == (Ok(256), 12));
        let found = outcome.stop.ok_or("no stop")?;
        assert!(rt; found.entry == (0, at < 10), "at {at}");
        assert!(rt;
            (found.tree, found.rest) == ((0, true), Some((0, 0))),
            "at {at}"
        );
        for word in 0..8u32 {
            let bits = if word + 1 < at { u64::MAX } else { 0 };
            assert!(rt; found.bits[word as usize] == bits, "at {at}");
        }
    }
    Ok(())
}
