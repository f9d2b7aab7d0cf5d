//! Takes in a tree between whose moves strangers step: which exchanges are lost, in how many moves a
//! block is found, and the words before each move and afterwards.

ghost use Rattle.std.specs.Prelude.{◌≡◌, ◌+◌, ◌%◌, ◌^◌, ◌≤◌, true, IfOk};
ghost use Rattle.frame_model.specs.View.{IsIdle};
ghost use Rattle.plain_moves.specs.PlainState.{IsByItself};
ghost use Rattle.low_frames.specs.Outcomes.{MayTakeOf};

use super::cues::{lose, stop, stranger};
use frame_core::{HeldBlock, Image, Moves, Place};
use frame_words::{Geometry, frames_of, tree_free};
use low_frames::{take_at, take_in_tree};
use plain_moves::{Act, PlainMoves};
use script_moves::{Cue, ScriptMoves};
use std::alloc::Global;
use std::process::Abort;
use std::test::Fail;

// All bits of a word.
const FULL: u64 = u64::MAX;

// What the words of one child and of its tree say: free frames by both, and bits.
#[derive(Clone, Copy, PartialEq, Eq)]
pub(super) struct Words {
    pub(super) entry: u32,
    pub(super) tree: u32,
    pub(super) bits: [u64; 8],
}

// The first frame of the block that a take found, if it found one, in how many moves, how many cues
// were not made, the words afterwards, and those of the latest stop.
#[derive(Drop)]
struct Outcome {
    frame: Option<u32>,
    moves: u64,
    skipped: u32,
    after: Words,
    stop: Option<Words>,
}

// A stranger pays and charges a frame, and claims the first bit of a word.
fn claims(who: u32, word: u32, at: u32) -> [Cue; 3] {
    [
        stranger(0, who, Act::TreePay { tree: 0, n: 1 }),
        stranger(2, who, Act::Charge { child: 0, n: 1 }),
        stranger(at, who, Act::Claim { word, mask: 1 }),
    ]
}

pub(super) fn words_of(image: &Image) -> Result<Words, Fail> {
    let geometry = image.geometry();
    if geometry.children() != 1 || geometry.trees() != 1 || image.huge(0) {
        return Err(Fail::from("another memory"));
    }
    let mut bits = [0; 8];
    for word in 0..8u32 {
        bits[word as usize] = image.word(0, word);
    }
    Ok(Words {
        entry: image.free(0),
        tree: image.tree_free(0),
        bits,
    })
}

// A free child.
pub(super) fn open_child(alloc: Global) -> Result<PlainMoves, Fail>
    ensures company { IfOk result IsByItself }
    ensures idle { IfOk result (λ m. IsIdle (⟦<PlainMoves as Moves>⟧.at m).view) }
{
    Ok(PlainMoves::new(alloc, &Geometry::new(1, 1)?)?)
}

// Pays the frames of a block of the order, where the tree has so many.
fn pay(m: &mut PlainMoves, tree: u32, order: u8) -> bool
    requires order { order ≤ 9 }
    requires idle { IsIdle (⟦<PlainMoves as Moves>⟧.at m.old).view }
    ensures company { IsByItself m.old → IsByItself m.new }
    ensures paid { result ≡ true → MayTakeOf tree order (⟦<PlainMoves as Moves>⟧.at m.new) }
{
    let geometry = m.geometry();
    if tree >= geometry.trees() {
        return false;
    }
    let n = frames_of(order);
    let seen = m.load(Place::Tree(tree));
    if tree_free(seen) < n || !m.tree_pay(tree, seen, n) {
        return false;
    }
    true
}

// A free child, of which the frames of a block of the order are paid.
fn open_paid(alloc: Global, order: u8) -> Result<PlainMoves, Fail>
    requires { order ≤ 9 }
    ensures company { IfOk result IsByItself }
    ensures paid { IfOk result (λ m. MayTakeOf 0 order (⟦<PlainMoves as Moves>⟧.at m)) }
{
    let mut m = open_child(alloc)?;
    if !pay(&mut m, 0, order) {
        return Err(Fail::from("not paid"));
    }
    Ok(m)
}

// The caller goes on by a script.
fn script(alloc: Global, order: u8, cues: &[Cue]) -> Result<ScriptMoves, Fail>
    requires { order ≤ 9 }
    ensures { IfOk result (λ m. MayTakeOf 0 order (⟦<ScriptMoves as Moves>⟧.at m)) }
{
    let plain = open_paid(alloc, order)?;
    let cues = cues.to_vec(alloc)?;
    match ScriptMoves::new(alloc, plain, cues) {
        Ok(m) => Ok(m),
        Err(_) => Err(Fail::from("no memory")),
    }
}

// Takes a block of the order in a free child by the script.
fn run(alloc: Global, order: u8, cues: &[Cue]) -> Result<Outcome, Fail>
    requires { order ≤ 9 }
{
    let mut m = script(alloc, order, cues)?;
    let before = m.plain().moves();
    let frame = match take_in_tree(&mut m, 0, order) {
        Some(held) => Some(held.frame()),
        None => None,
    };
    outcome_of(alloc, &m, frame, before)
}

// Takes the block of the order at this frame of a free child by the script.
fn run_at(alloc: Global, frame: u32, order: u8, cues: &[Cue]) -> Result<Outcome, Fail>
    requires order { order ≤ 9 }
    requires aligned { frame % 2 ^ order ≡ 0 }
    requires inside { frame + 2 ^ order ≤ 512 }
{
    let mut m = script(alloc, order, cues)?;
    let before = m.plain().moves();
    let found = match take_at(&mut m, frame, order) {
        Some(held) => Some(held.frame()),
        None => None,
    };
    outcome_of(alloc, &m, found, before)
}

// What a take left that began after so many moves.
fn outcome_of(
    alloc: Global,
    m: &ScriptMoves,
    frame: Option<u32>,
    before: u64,
) -> Result<Outcome, Fail> {
    let after = words_of(&m.plain().image(alloc)?)?;
    let stop = match m.stopped() {
        Some(image) => Some(words_of(image)?),
        None => None,
    };
    Ok(Outcome {
        frame,
        moves: m.plain().moves().saturating_sub(before),
        skipped: m.skipped(),
        after,
        stop,
    })
}

fn set_in(words: &Words) -> u32 {
    let mut set = 0u32;
    for bits in words.bits {
        set = set.saturating_add(bits.count_ones());
    }
    set
}

// Each frame of the child is free by its entry, set, or charged by a stranger; each frame of the
// tree is free by its word, set, or paid. A take that finds nothing leaves its frames paid.
fn adds_up(order: u8, outcome: &Outcome, strangers: u32) -> bool
    requires { order ≤ 9 }
{
    let known = set_in(&outcome.after).saturating_add(strangers);
    let paid = if outcome.frame.is_none() {
        frames_of(order)
    } else {
        0
    };
    outcome.after.entry.saturating_add(known) == 512
        && outcome
            .after
            .tree
            .saturating_add(known)
            .saturating_add(paid)
            == 512
}

// All words of a wide block are full.
fn is_held(order: u8, outcome: &Outcome) -> bool
    requires { order ≤ 9 }
{
    let Some(frame) = outcome.frame else {
        return true;
    };
    let first = frame / 64;
    let count = frames_of(order) / 64;
    for word in 0..8u32 {
        if word >= first && word - first < count && outcome.after.bits[word as usize] != FULL {
            return false;
        }
    }
    true
}

// The words of a child and its tree; a digit for each bit word, the first one first: f is a full word, and
// of other words the digit is the word.
fn words_with(entry: u32, tree: u32, digits: &[u8; 8]) -> Words {
    let mut bits = [0; 8];
    for word in 0..8usize {
        bits[word] = match digits[word] {
            b'f' => FULL,
            digit => u64::from(digit.saturating_sub(b'0')),
        };
    }
    Words { entry, tree, bits }
}

// A take answers the block of this first frame, in so many moves, with so many cues that were not made,
// and leaves these words.
fn answers(
    rt: &impl Abort,
    alloc: Global,
    order: u8,
    cues: &[Cue],
    want: (Option<u32>, u64, u32),
    after: Words,
) -> Result<(), Fail>
    requires { order ≤ 9 }
{
    let outcome = run(alloc, order, cues)?;
    assert!(rt; (outcome.frame, outcome.moves, outcome.skipped) == want);
    assert!(rt; outcome.after == after);
    Ok(())
}

// The same of a take of just the block of this first frame and order.
fn answers_at(
    rt: &impl Abort,
    alloc: Global,
    at: (u32, u8),
    cues: &[Cue],
    want: (Option<u32>, u64, u32),
    after: Words,
) -> Result<(), Fail>
    requires order { at.1 ≤ 9 }
    requires aligned { at.0 % 2 ^ at.1 ≡ 0 }
    requires inside { at.0 + 2 ^ at.1 ≤ 512 }
{
    let outcome = run_at(alloc, at.0, at.1, cues)?;
    assert!(rt; (outcome.frame, outcome.moves, outcome.skipped) == want);
    assert!(rt; outcome.after == after);
    Ok(())
}

#[test]
fn takes_beside_nobody(rt: HostRuntime) -> Result<(), Fail> {
    let alloc = rt.alloc();
    answers(
        &rt,
        alloc,
        0,
        &[],
        (Some(0), 5, 0),
        words_with(511, 511, b"10000000"),
    )?;
    answers(
        &rt,
        alloc,
        7,
        &[],
        (Some(0), 13, 0),
        words_with(384, 384, b"ff000000"),
    )?;
    answers(
        &rt,
        alloc,
        8,
        &[],
        (Some(0), 15, 0),
        words_with(256, 256, b"ffff0000"),
    )
}

// A take at a place looks at its own words alone: that the lowest block is free does not matter. Where a
// stranger claims a frame of it, the block is refused, and nothing stays claimed; where it claims a frame
// beside, the exchange is tried again.
#[test]
fn takes_at_a_place(rt: HostRuntime) -> Result<(), Fail> {
    let alloc = rt.alloc();
    answers_at(
        &rt,
        alloc,
        (64, 0),
        &[],
        (Some(64), 5, 0),
        words_with(511, 511, b"01000000"),
    )?;
    answers_at(
        &rt,
        alloc,
        (256, 7),
        &[],
        (Some(256), 7, 0),
        words_with(384, 384, b"0000ff00"),
    )?;
    answers_at(
        &rt,
        alloc,
        (256, 8),
        &[],
        (Some(256), 11, 0),
        words_with(256, 256, b"0000ffff"),
    )?;
    answers_at(
        &rt,
        alloc,
        (64, 0),
        &claims(0, 1, 2),
        (None, 4, 0),
        words_with(511, 510, b"01000000"),
    )?;
    answers_at(
        &rt,
        alloc,
        (65, 0),
        &claims(0, 1, 3),
        (Some(65), 7, 0),
        words_with(510, 510, b"03000000"),
    )?;
    answers_at(
        &rt,
        alloc,
        (0, 7),
        &claims(0, 1, 5),
        (None, 9, 0),
        words_with(511, 383, b"01000000"),
    )
}

// A lost charge is tried again, four times in all; a load cannot be lost, and a stranger that has paid
// nothing cannot refund. Where a stranger claims a frame of a group of words, what was claimed of it is
// released, and the next group is claimed.
#[test]
fn takes_go_on_after_lost_exchanges(rt: HostRuntime) -> Result<(), Fail> {
    let alloc = rt.alloc();
    let skips = [
        lose(0),
        stranger(1, 0, Act::TreeRefund { tree: 0, n: 1 }),
        lose(1),
    ];
    let four = [lose(1), lose(3), lose(5), lose(7)];
    answers(
        &rt,
        alloc,
        0,
        &skips,
        (Some(0), 7, 2),
        words_with(511, 511, b"10000000"),
    )?;
    answers(
        &rt,
        alloc,
        0,
        &four,
        (None, 8, 0),
        words_with(512, 511, b"00000000"),
    )?;
    answers(
        &rt,
        alloc,
        7,
        &claims(0, 1, 11),
        (Some(128), 17, 0),
        words_with(383, 383, b"01ff0000"),
    )?;
    answers(
        &rt,
        alloc,
        8,
        &claims(0, 3, 13),
        (Some(256), 23, 0),
        words_with(255, 255, b"0001ffff"),
    )
}

// The words before a move: the order, whether a stranger claims, the move, the entry and the bit words
// by digits. A stop before does not stay.
#[test]
fn a_stop_shows_each_step(rt: HostRuntime) -> Result<(), Fail> {
    for (order, claim, at, entry, digits) in [
        (7, None, 1, 512, b"00000000"),
        (7, None, 2, 384, b"00000000"),
        (7, None, 11, 384, b"f0000000"),
        (7, None, 12, 384, b"ff000000"),
        (7, Some((1, 11)), 10, 383, b"00000000"),
        (7, Some((1, 11)), 11, 383, b"f1000000"),
        (7, Some((1, 11)), 13, 383, b"f1000000"),
        (7, Some((1, 11)), 14, 383, b"01000000"),
        (7, Some((1, 11)), 15, 383, b"01f00000"),
        (7, Some((1, 11)), 16, 383, b"01ff0000"),
        (8, Some((3, 13)), 15, 255, b"fff10000"),
        (8, Some((3, 13)), 16, 255, b"0ff10000"),
        (8, Some((3, 13)), 17, 255, b"00f10000"),
        (8, Some((3, 13)), 18, 255, b"00010000"),
        (8, Some((3, 13)), 22, 255, b"0001ffff"),
    ] {
        if order > 9 {
            return Err(Fail::from("no such order"));
        }
        let mut cues = Vec::new(rt.alloc());
        if let Some((word, claimed)) = claim {
            cues = claims(0, word, claimed).to_vec(rt.alloc())?;
        }
        cues.push(stop(0))?;
        cues.push(stop(at))?;
        let outcome = run(rt.alloc(), order, &cues)?;
        let found = outcome.stop.ok_or("no stop")?;
        assert!(rt; found == words_with(entry, found.tree, digits), "at {at}");
    }
    Ok(())
}

// A loss at each single move of a take beside a stranger that claims word 3, which it does unless
// the caller has it then.
#[test]
fn a_loss_at_any_move_leaves_the_sums(rt: HostRuntime) -> Result<(), Fail> {
    for at in 0..30u32 {
        let mut cues = claims(0, 3, 13).to_vec(rt.alloc())?;
        cues.push(lose(at))?;
        let outcome = run(rt.alloc(), 8, &cues)?;
        let charged = u32::from(outcome.after.bits[3] != 1);
        assert!(rt; outcome.frame.is_some(), "at {at}");
        assert!(rt; adds_up(8, &outcome, charged), "at {at}");
        assert!(rt; is_held(8, &outcome), "at {at}");
    }
    Ok(())
}

// How many of two claims were not made: those that were refused, and those at moves that never came.
fn unmade(outcome: &Outcome, at: u32, later: u32) -> u32 {
    outcome
        .skipped
        .saturating_add(u32::from(u64::from(at) >= outcome.moves))
        .saturating_add(u32::from(u64::from(later) >= outcome.moves))
}

// Two strangers each claim a word before a move of a take of order 8. Where they have a frame of
// both halves of the child, no block is found.
#[test]
fn claims_of_strangers_leave_the_sums(rt: HostRuntime) -> Result<(), Fail> {
    let (mut found, mut none) = (0u32, 0u32);
    for word in 0..8u32 {
        for at in 3..24u32 {
            for other in 0..8u32 {
                for later in at..24u32 {
                    let mut cues = claims(0, word, at).to_vec(rt.alloc())?;
                    for cue in claims(1, other, later) {
                        cues.push(cue)?;
                    }
                    let outcome = run(rt.alloc(), 8, &cues)?;
                    let charged = unmade(&outcome, at, later);
                    assert!(rt;
                        adds_up(8, &outcome, charged),
                        "{word} {at} {other} {later}"
                    );
                    assert!(rt; is_held(8, &outcome), "{word} {at} {other} {later}");
                    if outcome.frame.is_some() {
                        found = found.saturating_add(1);
                    } else {
                        none = none.saturating_add(1);
                    }
                }
            }
        }
    }
    assert!(rt; found > 0 && none > 0);
    Ok(())
}
