//! Takes of several single frames in a tree, by scripts: which frames come, in how many moves, and what
//! follows a lost exchange.

ghost use Rattle.std.specs.Prelude.{◌≡◌, true, IfOk};
ghost use Rattle.frame_model.specs.View.{IsIdle};
ghost use Rattle.plain_moves.specs.PlainState.{IsByItself};
ghost use Rattle.low_frames.specs.Singles.{MayTakeSomeOf};

use super::cues::{lose, stop, stranger};
use super::tree_takes::{Words, open_child, words_of};
use frame_core::{HeldBlock, Moves, Place};
use frame_words::tree_free;
use low_frames::take_some;
use plain_moves::{Act, PlainMoves};
use script_moves::{Cue, ScriptMoves};
use std::alloc::Global;
use std::process::Abort;
use std::test::Fail;

// All bits of a word.
const FULL: u64 = u64::MAX;

// The frames that came, in how many moves, how many cues were not made, the words afterwards, and those of the
// latest stop.
#[derive(Drop)]
struct Outcome {
    frames: Vec<u32>,
    moves: u64,
    skipped: u32,
    after: Words,
    stop: Option<Words>,
}

// Pays so many frames of the one tree, where it has them.
fn pay(m: &mut PlainMoves, n: u32) -> bool
    requires idle { IsIdle (⟦<PlainMoves as Moves>⟧.at m.old).view }
    ensures company { IsByItself m.old → IsByItself m.new }
    ensures paid { result ≡ true → MayTakeSomeOf 0 n (⟦<PlainMoves as Moves>⟧.at m.new) }
{
    let geometry = m.geometry();
    if geometry.trees() == 0 {
        return false;
    }
    let seen = m.load(Place::Tree(0));
    if tree_free(seen) < n || !m.tree_pay(0, seen, n) {
        return false;
    }
    true
}

// A free child, of which so many frames are paid.
fn open_paid(alloc: Global, n: u32) -> Result<PlainMoves, Fail>
    ensures company { IfOk result IsByItself }
    ensures paid { IfOk result (λ m. MayTakeSomeOf 0 n (⟦<PlainMoves as Moves>⟧.at m)) }
{
    let mut m = open_child(alloc)?;
    if !pay(&mut m, n) {
        return Err(Fail::from("not paid"));
    }
    Ok(m)
}

// The caller goes on by a script.
fn script(alloc: Global, n: u32, cues: &[Cue]) -> Result<ScriptMoves, Fail>
    ensures { IfOk result (λ m. MayTakeSomeOf 0 n (⟦<ScriptMoves as Moves>⟧.at m)) }
{
    let plain = open_paid(alloc, n)?;
    let cues = cues.to_vec(alloc)?;
    match ScriptMoves::new(alloc, plain, cues) {
        Ok(m) => Ok(m),
        Err(_) => Err(Fail::from("no memory")),
    }
}

// Takes up to so many frames of a free child by the script.
fn run(alloc: Global, n: u32, cues: &[Cue]) -> Result<Outcome, Fail> {
    let mut m = script(alloc, n, cues)?;
    let before = m.plain().moves();
    let mut out = Vec::with_capacity(alloc, n as usize)?;
    let got = take_some(&mut m, 0, n, &mut out);
    let mut frames = Vec::new(alloc);
    for held in &out {
        frames.push(held.frame())?;
    }
    if frames.len() != got as usize {
        return Err(Fail::from("another count"));
    }
    let after = words_of(&m.plain().image(alloc)?)?;
    let stop = match m.stopped() {
        Some(image) => Some(words_of(image)?),
        None => None,
    };
    Ok(Outcome {
        frames,
        moves: m.plain().moves().saturating_sub(before),
        skipped: m.skipped(),
        after,
        stop,
    })
}

// Before the first move a stranger holds these runs of bits, each in its word.
fn holding(alloc: Global, runs: &[(u32, u64)]) -> Result<Vec<Cue>, Fail> {
    let mut cues = Vec::new(alloc);
    for (word, mask) in runs {
        let n = mask.count_ones();
        cues.push(stranger(0, 0, Act::TreePay { tree: 0, n }))?;
        cues.push(stranger(0, 0, Act::Charge { child: 0, n }))?;
        cues.push(stranger(
            0,
            0,
            Act::Claim {
                word: *word,
                mask: *mask,
            },
        ))?;
    }
    Ok(cues)
}

// Of the first word all but bits 1, 5 and those from 7 on.
fn scattered(alloc: Global) -> Result<Vec<Cue>, Fail> {
    holding(alloc, &[(0, 1), (0, 0xc), (0, 0x10), (0, 0x40)])
}

// The words of a child and its tree, which count as many free frames; the later bits are clear.
fn words_with(free: u32, first: u64, second: u64, third: u64) -> Words {
    Words {
        entry: free,
        tree: free,
        bits: [first, second, third, 0, 0, 0, 0, 0],
    }
}

// A take of up to so many frames has these, in so many moves, with each cue made, and leaves these words.
fn answers(
    rt: &impl Abort,
    alloc: Global,
    n: u32,
    cues: &[Cue],
    frames: &[u32],
    moves: u64,
    after: Words,
) -> Result<(), Fail> {
    let outcome = run(alloc, n, cues)?;
    assert!(rt; outcome.frames.as_slice() == frames);
    assert!(rt; (outcome.moves, outcome.skipped) == (moves, 0));
    assert!(rt; outcome.after == after);
    Ok(())
}

// The lowest clear bits of a word come by one exchange, however they lie, and then those of the next word. Behind
// three moves for the charge a word costs a load and an exchange, or just a load where it is full, and each frame
// one more.
#[test]
fn the_lowest_frames_come(rt: HostRuntime) -> Result<(), Fail> {
    let alloc = rt.alloc();
    answers(
        &rt,
        alloc,
        8,
        &[],
        &[0, 1, 2, 3, 4, 5, 6, 7],
        13,
        words_with(504, 0xff, 0, 0),
    )?;
    let some = scattered(alloc)?;
    answers(
        &rt,
        alloc,
        6,
        some.as_slice(),
        &[1, 5, 7, 8, 9, 10],
        11,
        words_with(501, 0x7ff, 0, 0),
    )?;
    let upper = holding(
        alloc,
        &[
            (0, 0xc),
            (0, 0xf0),
            (0, 0xff00),
            (0, 0xffff_0000),
            (0, 0xffff_ffff_0000_0000),
            (1, FULL),
        ],
    )?;
    answers(
        &rt,
        alloc,
        5,
        upper.as_slice(),
        &[0, 1, 128, 129, 130],
        13,
        words_with(381, FULL, FULL, 7),
    )
}

// The words where nothing came, and the three paid frames are not back in the tree.
fn still_paid() -> Words {
    Words {
        entry: 512,
        tree: 509,
        bits: [0; 8],
    }
}

// A lost exchange is tried again, four times in all, over what is clear then; behind the fourth the next word
// has its turn. Where a charge is lost four times none comes.
#[test]
fn batches_go_on_after_lost_exchanges(rt: HostRuntime) -> Result<(), Fail> {
    let alloc = rt.alloc();
    let four = [lose(4), lose(6), lose(8), lose(10)];
    answers(
        &rt,
        alloc,
        3,
        &four[..3],
        &[0, 1, 2],
        14,
        words_with(509, 7, 0, 0),
    )?;
    answers(
        &rt,
        alloc,
        3,
        &four,
        &[64, 65, 66],
        16,
        words_with(509, 0, 7, 0),
    )?;
    let claim = [
        stranger(0, 0, Act::TreePay { tree: 0, n: 1 }),
        stranger(0, 0, Act::Charge { child: 0, n: 1 }),
        stranger(4, 0, Act::Claim { word: 0, mask: 2 }),
    ];
    answers(
        &rt,
        alloc,
        3,
        &claim,
        &[0, 2, 3],
        10,
        words_with(508, 0xf, 0, 0),
    )?;
    let charges = [lose(2), lose(4), lose(6), lose(8)];
    answers(&rt, alloc, 3, &charges, &[], 9, still_paid())
}

// Where each exchange on each word is lost none comes, and what was charged is refunded.
#[test]
fn what_does_not_come_is_refunded(rt: HostRuntime) -> Result<(), Fail> {
    let alloc = rt.alloc();
    let mut cues = Vec::new(alloc);
    for i in 0..32u32 {
        cues.push(lose(4 + 2 * i))?;
    }
    answers(&rt, alloc, 3, cues.as_slice(), &[], 68, still_paid())
}

// The words before a move: all bits of a batch go up at once, behind the charge.
#[test]
fn a_stop_shows_one_exchange(rt: HostRuntime) -> Result<(), Fail> {
    let alloc = rt.alloc();
    for (at, entry, bits) in [
        (2, 507, 0x5d),
        (3, 501, 0x5d),
        (4, 501, 0x5d),
        (5, 501, 0x7ff),
        (10, 501, 0x7ff),
    ] {
        let mut cues = scattered(alloc)?;
        cues.push(stop(at))?;
        let outcome = run(alloc, 6, cues.as_slice())?;
        let found = outcome.stop.ok_or("no stop")?;
        assert!(rt; (found.entry, found.bits[0]) == (entry, bits), "at {at}");
    }
    Ok(())
}

// A loss at any move leaves the sums, and the same frames come.
#[test]
fn a_loss_at_any_move_leaves_the_sums(rt: HostRuntime) -> Result<(), Fail> {
    let alloc = rt.alloc();
    for at in 0..20u32 {
        let outcome = run(alloc, 8, &[lose(at)])?;
        assert!(rt;
            outcome.frames.as_slice() == [0, 1, 2, 3, 4, 5, 6, 7].as_slice(),
            "at {at}"
        );
        assert!(rt; outcome.after == words_with(504, 0xff, 0, 0), "at {at}");
    }
    Ok(())
}
