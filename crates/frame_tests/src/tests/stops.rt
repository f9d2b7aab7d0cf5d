//! Stops between the moves of takes, gives and splits: the words are rebuilt, an allocator is opened
//! at them, and each block that was out is adopted and given back.

ghost use Rattle.std.specs.Prelude.{IfOk, IfSome};
ghost use Rattle.std.specs.List.{All};
ghost use Rattle.plain_moves.specs.PlainState.{IsByItself};
ghost use Rattle.core_frames.specs.Cores.{IsCoreOf, IsOutOf};
ghost use Rattle.core_frames.specs.Left.{IsSurvivorsOf};
ghost use Rattle.core_frames.specs.Searches.{MayBegin};

use super::reopenings::{closed, reopened};
use super::sums::held_in_all;
use core_frames::{Allocator, Core, Habit, Survivors, give_by, split_by, take_by};
use frame_core::{Image, Moves, PlainBlock};
use frame_image::{held_frames, rebuild, report};
use frame_table::Block;
use frame_words::{Fault, Geometry};
use plain_moves::PlainMoves;
use script_moves::{Cue, ScriptMoves, What};
use std::alloc::Global;
use std::process::Abort;
use std::test::Fail;

// The core takes a block beside nobody.
fn taken(m: &mut PlainMoves, order: u8) -> Result<PlainBlock, Fault>
    requires company { IsByItself m.old }
    requires begins { MayBegin 0 (⟦<PlainMoves as Moves>⟧.at m.old) }
    ensures company { IsByItself m.new }
    ensures begins { MayBegin 0 (⟦<PlainMoves as Moves>⟧.at m.new) }
    ensures out { IfOk result (λ b. (⟦<PlainMoves as Moves>⟧.at m.new).is_out b) }
{
    let geometry = m.geometry();
    let mut habit = Habit::of(geometry, 0);
    match take_by(m, &mut habit, order) {
        Ok(block) => Ok(block),
        Err(_) => Err(Fault::NoBlock),
    }
}

// The last of some takes, if there are any.
fn open_after(
    alloc: Global,
    children: u32,
    orders: &[u8],
) -> Result<(PlainMoves, Option<PlainBlock>), Fault>
    ensures company { IfOk result (λ r. IsByItself r.0) }
    ensures begins { IfOk result (λ r. MayBegin 0 (⟦<PlainMoves as Moves>⟧.at r.0)) }
    ensures out { IfOk result (λ r. IfSome r.1 ((⟦<PlainMoves as Moves>⟧.at r.0).is_out)) }
{
    let mut m = PlainMoves::new(alloc, &Geometry::new(children, 1)?)?;
    let mut last = None;
    for order in orders {
        last = Some(taken(&mut m, *order)?);
    }
    Ok((m, last))
}

// The caller goes on by a script with the block that it holds.
fn script(
    alloc: Global,
    plain: PlainMoves,
    block: Option<PlainBlock>,
    cues: &[Cue],
) -> Result<(ScriptMoves, Option<PlainBlock>), Fault>
    requires company { IsByItself plain }
    requires begins { MayBegin 0 (⟦<PlainMoves as Moves>⟧.at plain) }
    requires out { IfSome block ((⟦<PlainMoves as Moves>⟧.at plain).is_out) }
    ensures begins { IfOk result (λ r. MayBegin 0 (⟦<ScriptMoves as Moves>⟧.at r.0)) }
    ensures out { IfOk result (λ r. IfSome r.1 ((⟦<ScriptMoves as Moves>⟧.at r.0).is_out)) }
{
    let cues = cues.to_vec(alloc)?;
    match ScriptMoves::new(alloc, plain, cues) {
        Ok(m) => Ok((m, block)),
        Err(_) => Err(Fault::NoMemory),
    }
}

// What is done with the last block that was taken before.
#[derive(Clone, Copy)]
enum Call {
    Take(u8),
    Give,
    Split,
}

fn make(m: &mut ScriptMoves, block: Option<PlainBlock>, call: Call)
    requires begins { MayBegin 0 (⟦<ScriptMoves as Moves>⟧.at m.old) }
    requires out { IfSome block ((⟦<ScriptMoves as Moves>⟧.at m.old).is_out) }
{
    let geometry = m.geometry();
    let mut habit = Habit::of(geometry, 0);
    match (call, block) {
        (Call::Take(order), _) => drop(take_by(m, &mut habit, order)),
        (Call::Give, Some(block)) => give_by(m, &mut habit, block),
        (Call::Split, Some(block)) => drop(split_by(m, block)),
        _ => {}
    }
}

// The memory, what is taken before, the call, and the exchanges that it loses.
#[derive(Clone, Copy)]
struct Setting<'a> {
    children: u32,
    before: &'a [u8],
    call: Call,
    losses: &'a [u32],
}

// The words before one move of the call, rebuilt, and how many frames they hold.
fn stopped(alloc: Global, setting: Setting, at: u32) -> Result<(Image, u32), Fail> {
    let mut cues = Vec::new(alloc);
    for lost in setting.losses {
        cues.push(Cue {
            at: *lost,
            what: What::Lose,
        })?;
    }
    cues.push(Cue {
        at,
        what: What::Stop,
    })?;
    let (plain, block) = open_after(alloc, setting.children, setting.before)?;
    let (mut m, block) = script(alloc, plain, block, &cues)?;
    make(&mut m, block, setting.call);
    let Some(image) = m.stopped() else {
        return Err(Fail::from("no stop"));
    };
    let held = report(alloc, image)?.all_held();
    Ok((rebuild(alloc, image)?, held))
}

// A frame, an order, and why the block is not adopted, if it is not.
type Ask = (u32, u8, Option<Fault>);

const NOT_HELD: Option<Fault> = Some(Fault::NotHeld);

// Past all memory.
const NOTHING: Ask = (u32::MAX, 0, NOT_HELD);

// The blocks, and one more.
fn with_one_more(
    allocator: &Allocator,
    mut blocks: Vec<Block>,
    block: Block,
) -> Result<Vec<Block>, Fault>
    requires block { IsOutOf allocator.now block }
    requires blocks { All (IsOutOf allocator.now) blocks.items }
    ensures { IfOk result (λ all. All (IsOutOf allocator.entry.now) all.items) }
{
    let _ = allocator;
    let Ok(()) = blocks.push(block) else {
        return Err(Fault::NoMemory);
    };
    Ok(blocks)
}

// Adopts a block, where that is answered so: the blocks, with it if it was.
fn adopted(
    allocator: &Allocator,
    survivors: &mut Survivors,
    blocks: Vec<Block>,
    ask: Ask,
) -> Result<Vec<Block>, Fail>
    requires survivors { IsSurvivorsOf allocator.now survivors.old }
    requires out { All (IsOutOf allocator.now) blocks.items }
    ensures survivors { IsSurvivorsOf allocator.entry.now survivors.new }
    ensures out { IfOk result (λ all. All (IsOutOf allocator.entry.now) all.items) }
{
    let (frame, order, fault) = ask;
    match survivors.adopt(allocator, frame, order) {
        Ok(block) if fault.is_none() => Ok(with_one_more(allocator, blocks, block)?),
        Err(e) if fault == Some(e) => Ok(blocks),
        _ => Err(Fail::from("another answer")),
    }
}

// Adopts all that is asked for.
fn adopted_in_all(
    alloc: Global,
    allocator: &Allocator,
    mut survivors: Survivors,
    asks: &[Ask],
) -> Result<Vec<Block>, Fail>
    requires { IsSurvivorsOf allocator.now survivors }
    ensures { IfOk result (λ blocks. All (IsOutOf allocator.entry.now) blocks.items) }
{
    let mut blocks = Vec::new(alloc);
    for ask in asks {
        blocks = adopted(allocator, &mut survivors, blocks, *ask)?;
    }
    Ok(blocks)
}

fn give_all(allocator: &Allocator, mut core: Core, mut blocks: Vec<Block>) -> Core
    requires core { IsCoreOf allocator.now core }
    requires out { All (IsOutOf allocator.now) blocks.items }
    ensures { IsCoreOf allocator.entry.now result }
{
    for _i in 0..blocks.len() {
        if let Some(block) = blocks.pop() {
            allocator.give(&mut core, block);
        }
    }
    core
}

// The closing words of a memory that was opened at an image, rebuilt, once the blocks were adopted
// and given back.
fn given_back(alloc: Global, image: &Image, asks: &[Ask]) -> Result<Image, Fail> {
    let (allocator, core, survivors) = reopened(alloc, image)?;
    let blocks = adopted_in_all(alloc, &allocator, survivors, asks)?;
    let core = give_all(&allocator, core, blocks);
    Ok(closed(alloc, allocator, core)?)
}

// What is lost is what was held and is not given back.
fn loses(alloc: Global, image: &Image, asks: &[Ask], lost: u32) -> Result<bool, Fail> {
    let left = given_back(alloc, image, asks)?;
    Ok(held_frames(&left) == lost && held_in_all(&left) == Some(lost))
}

// The free frames of the first child, its flag, and the free frames of its tree.
fn counts_of(image: &Image) -> (u32, bool, u32) {
    (image.free(0), image.huge(0), image.tree_free(0))
}

// A wide take beside nobody, which reserves its tree by move 3. The stop; what the rebuilt child and
// tree count as free; what can be adopted then, and what is free once it was given back.
#[test]
fn a_stopped_take_loses_what_was_in_flight(rt: HostRuntime) -> Result<(), Fail> {
    let alloc = rt.alloc();
    let setting = Setting {
        children: 1,
        before: &[],
        call: Call::Take(7),
        losses: &[],
    };
    for (at, held, free, asks, lost) in [
        (6, 0, 512, [(0, 7, NOT_HELD), (0, 6, NOT_HELD)], 0),
        (15, 64, 448, [(0, 7, NOT_HELD), (0, 6, None)], 0),
        (15, 64, 448, [(0, 7, NOT_HELD), (64, 6, NOT_HELD)], 64),
        (16, 128, 384, [(0, 8, NOT_HELD), (0, 7, None)], 0),
    ] {
        let (image, found) = stopped(alloc, setting, at)?;
        assert!(rt;
            (found, counts_of(&image)) == (held, (free, false, free)),
            "at {at}"
        );
        assert!(rt; loses(alloc, &image, &asks, lost)?, "at {at}");
    }
    Ok(())
}

// The flag of a huge frame, or the bits of its halves.
#[test]
fn a_stopped_split_is_whole_or_in_halves(rt: HostRuntime) -> Result<(), Fail> {
    let alloc = rt.alloc();
    let setting = Setting {
        children: 1,
        before: &[9],
        call: Call::Split,
        losses: &[],
    };
    for (at, huge, bits, asks) in [
        (
            5,
            true,
            0,
            [(0, 8, NOT_HELD), (256, 8, NOT_HELD), (0, 9, None)],
        ),
        (
            10,
            false,
            u64::MAX,
            [(0, 9, NOT_HELD), (0, 8, None), (256, 8, None)],
        ),
    ] {
        let (image, held) = stopped(alloc, setting, at)?;
        assert!(rt; (held, counts_of(&image)) == (512, (0, huge, 0)), "at {at}");
        for word in 0..8u32 {
            assert!(rt; image.word(0, word) == bits, "at {at}");
        }
        assert!(rt; loses(alloc, &image, &asks, 0)?, "at {at}");
    }
    Ok(())
}

// What is asked for where the first block is out or was none, and where the call has a block out, and how
// many frames those have.
fn asks_for(is_in_use: bool, out: Option<(u32, u8)>) -> ([Ask; 3], u32) {
    let (mut asks, mut frames) = ([NOTHING; 3], 0u32);
    if is_in_use {
        asks[0] = (0, 3, None);
        frames = 8;
    }
    if let Some((frame, order)) = out {
        asks[1] = (frame, order, None);
        asks[2] = (frame, order, NOT_HELD);
        frames = frames.saturating_add(1u32.wrapping_shl(u32::from(order)));
    }
    (asks, frames)
}

// How many frames are held before a move, and what is out then besides the first block.
type Stop = (u32, Option<(u32, u8)>);

// Stops before each move of a call.
fn assert_each_stop(
    rt: &impl Abort,
    alloc: Global,
    setting: Setting,
    stops: &[Stop],
) -> Result<(), Fail> {
    let mut at = 0u32;
    for (held, out) in stops {
        let (image, found) = stopped(alloc, setting, at)?;
        let (asks, frames) = asks_for(!setting.before.is_empty(), *out);
        let lost = found.saturating_sub(frames);
        assert!(rt; found == *held && lost <= 512, "at {at}");
        assert!(rt; loses(alloc, &image, &asks, lost)?, "at {at}");
        at = at.saturating_add(1);
    }
    Ok(())
}

// The bits of the second block are cleared word by word.
#[test]
fn each_stop_of_a_give_leaves_what_was_out(rt: HostRuntime) -> Result<(), Fail> {
    let give = Setting {
        children: 1,
        before: &[3, 8],
        call: Call::Give,
        losses: &[],
    };
    let stops = [
        (264, Some((256, 8))),
        (264, None),
        (200, None),
        (136, None),
        (72, None),
        (8, None),
        (8, None),
        (8, None),
    ];
    assert_each_stop(&rt, rt.alloc(), give, &stops)
}

// A huge frame is cleared at once; a split fills its bits, and hands the lower half out before the
// upper one.
#[test]
fn each_stop_at_a_huge_frame_leaves_what_was_out(rt: HostRuntime) -> Result<(), Fail> {
    let give = Setting {
        children: 2,
        before: &[3, 9],
        call: Call::Give,
        losses: &[],
    };
    let huge = (520, Some((512, 9)));
    let stops = [huge, (520, None), (8, None), (8, None)];
    assert_each_stop(&rt, rt.alloc(), give, &stops)?;
    let split = Setting {
        call: Call::Split,
        ..give
    };
    let mut stops = [(520, None); 12];
    stops[0] = huge;
    stops[11] = (520, Some((512, 8)));
    assert_each_stop(&rt, rt.alloc(), split, &stops)
}

// The tree of the take is reserved at its eighth try.
#[test]
fn each_stop_of_a_take_leaves_what_was_out(rt: HostRuntime) -> Result<(), Fail> {
    let take = Setting {
        children: 1,
        before: &[],
        call: Call::Take(0),
        losses: &[3, 5, 7, 9, 12, 14, 16],
    };
    let mut stops = [(0, None); 25];
    stops[23] = (1, None);
    stops[24] = (1, Some((0, 0)));
    assert_each_stop(&rt, rt.alloc(), take, &stops)
}

// Three frames are held. Each can be adopted once, in a block whose frames are all held and left.
#[test]
fn what_is_held_is_adopted_once(rt: HostRuntime) -> Result<(), Fail> {
    let mut image = Image::new(rt.alloc(), &Geometry::new(1, 1)?)?;
    image.set_child(0, 0, false, [7, 0, 0, 0, 0, 0, 0, 0]);
    image.set_tree(0, 0, false);
    let asks = [
        (0, 1, None),
        (0, 0, NOT_HELD),
        (1, 0, NOT_HELD),
        (2, 0, None),
        (3, 0, NOT_HELD),
        (1, 1, NOT_HELD),
        (0, 10, Some(Fault::BadOrder)),
        (0, 9, NOT_HELD),
        (512, 0, NOT_HELD),
        NOTHING,
    ];
    let left = given_back(rt.alloc(), &image, &asks)?;
    assert!(rt; (held_in_all(&left), counts_of(&left)) == (Some(0), (512, false, 512)));
    Ok(())
}

// Of a memory that ends inside its child nobody adopts what is past the end.
#[test]
fn what_is_past_the_end_is_not_adopted(rt: HostRuntime) -> Result<(), Fail> {
    let cut = Image::new(rt.alloc(), &Geometry::with_frames(1, 1, 300)?)?;
    let asks = [(300, 0, NOT_HELD), (511, 0, NOT_HELD), (256, 8, NOT_HELD)];
    assert!(rt; loses(rt.alloc(), &cut, &asks, 212)?);
    Ok(())
}
