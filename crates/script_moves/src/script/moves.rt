//! Each move of the caller: first what the script says, then the move.

ghost use Rattle.std.specs.Prelude.{◌≡◌, ℕ, List, Some, true, false, length, slice_get, slice_index};
ghost use Rattle.frame_core.specs.Moves.{place_of, IsPlace};
ghost use Rattle.script_moves.specs.declared.script.stage.Stage.{Stage};
ghost use Rattle.plain_moves.specs.PlainState.{key_by, words_by, Loses};
ghost use Rattle.script_moves.specs.Plays.{PlaysOn, IsSilent};
ghost use Rattle.script_moves.specs.Script.{LosesAt};
ghost use Rattle.script_moves.specs.ScriptState.{at_by, read_by, FindsWord, IsLost, IsReady, MeetsFirst};

use super::ScriptMoves;
use super::stage::Stage;
use frame_core::Moves;
use frame_model::{Place, PlainBlock};
use frame_words::Geometry;

impl Stage {
    // The word is found as it stands.
    pub(crate) fn find(&mut self, place: Place) -> u64
        requires { IsPlace (key_by self.old.plain) place }
        ensures found { FindsWord (place_of (key_by self.old.plain) place) self.old self.new }
        ensures value { slice_index (words_by self.old.plain)
            (place_of (key_by self.old.plain) place) ≡ result }
        ensures here { read_by self.new (place_of (key_by self.old.plain) place) ≡ Some result }
        ensures silent { IsSilent self.old self.new }
    {
        let found = self.plain.stands(place);
        self.read[self.plain.number_at(place)] = found;
        found
    }

    // The cues of an exchange are made; answers whether it is lost, on purpose or to a stranger.
    pub(crate) fn loses(&mut self, place: Place, seen: u64) -> bool
        requires { IsPlace (key_by self.old.plain) place }
        ensures ready { result ≡ false → IsReady self.old self.new }
        ensures stands { result ≡ false → slice_get (words_by self.new.plain)
            (place_of (key_by self.old.plain) place) ≡ Some seen }
        ensures lost { result ≡ true
            → IsLost (place_of (key_by self.old.plain) place) seen self.old self.new }
        ensures met { result ≡ false → MeetsFirst self.old.cues.items true
            (length self.old.cues.items) self.old self.new }
        ensures plays { result ≡ true → PlaysOn true Loses self.old self.new }
        ensures obeys { LosesAt (at_by self.old) self.old.cues.items → result ≡ true }
    {
        if !self.prompt(true) && self.plain.stands(place) == seen {
            return false;
        }
        self.plain.lose();
        self.missed = true;
        self.find(place);
        true
    }
}

impl Moves for ScriptMoves {
    ghost use Rattle.plain_moves.specs.Plain.{plain_tick, is_plain_exact};
    ghost use Rattle.plain_moves.specs.PlainLaws.{plain_outs, plain_fills, plain_sizes, plain_ticks};
    ghost use Rattle.script_moves.specs.ScriptLaws.{script_fits, over_is_quiet};
    ghost use Rattle.script_moves.specs.ScriptMoves.{script_mover, plain_by, stage_by, Plays};
    ghost use Rattle.script_moves.specs.declared.script.cue.Cue.{Cue};
    ghost use Rattle.frame_model.specs.Block.{block};
    ghost use Rattle.frame_model.specs.Steps.{
      charge,
      refund,
      claim,
      claim_singles,
      take_huge,
      tree_pay,
      tree_refund,
      reserve,
      swap_local,
      unreserve,
      local_pay,
      local_refund,
      collect,
      fill_word,
    };
    ghost use Rattle.frame_core.specs.Moves.{OfRun, OfSomeRun, release_run, give_whole, drop_whole};
    ghost use Rattle.frame_core.specs.Mover.{
      Clears,
      MayLoad,
      Loads,
      MayTry,
      Tries,
      MayMake,
      Makes,
      Swaps,
      MayHandOut,
      HandsOut,
      MayHandIn,
      HandsIn,
    };
    ghost use Rattle.plain_moves.specs.Acts.{plain_block, MakesIt};
    ghost use Rattle.script_moves.specs.Plays.{TriesIt, LoadsIt, SwapsIt, HandsItOut, HandsItIn};

    type Held = PlainBlock;

    ghost Tie = { List Cue × ℕ };

    ghost at = { script_mover };

    ghost tick = { plain_tick };

    ghost is_exact = { is_plain_exact };

    ghost fits = { script_fits };

    ghost recalls = { λ m ws e. e };

    ghost outs_are_blocks = { λ m b o. plain_outs _ _ _ _ b m.stage.plain.agrees o };

    ghost stays_alone = { λ m. over_is_quiet (stage_by m) };

    ghost sizes = { λ m. plain_sizes m.stage.plain.geometry m.stage.plain.sealed };

    ghost fills_own = { λ m none. plain_fills _ _ _ _ m.stage.plain.agrees none };

    ghost ticks = { plain_ticks };

    fn geometry(&self) -> Geometry {
        self.stage.plain.geometry()
    }

    fn missed(&self) -> bool {
        self.stage.missed
    }

    fn clear_missed(&mut self)
        ensures clears { Clears (script_mover self.old) (script_mover self.new) }
        ensures silent { IsSilent (stage_by self.old) (stage_by self.new) }
        ensures plain { plain_by self.new ≡ plain_by self.old }
    {
        self.stage.missed = false;
    }

    fn load(&mut self, place: Place) -> u64
        requires { MayLoad place (script_mover self.old) }
        ensures loads { Loads plain_tick place result (script_mover self.old) (script_mover self.new) }
        ensures plays { Plays false (LoadsIt place result) self.old self.new }
    {
        self.stage.prompt(false);
        self.stage.plain.load(place);
        self.stage.find(place)
    }

    fn charge(&mut self, child: u32, seen: u64, n: u32) -> bool
        requires { MayTry (charge child seen n) seen (script_mover self.old) }
        ensures tries { Tries plain_tick (charge child seen n) seen result
            (script_mover self.old) (script_mover self.new) }
        ensures plays { Plays true (TriesIt (charge child seen n) seen result) self.old self.new }
    {
        if self.stage.loses(Place::Entry(child), seen) {
            return false;
        }
        let made = self.stage.plain.charge(child, seen, n);
        self.stage.find(Place::Entry(child));
        made
    }

    fn refund(&mut self, child: u32, n: u32)
        requires { MayMake (refund child n) (script_mover self.old) }
        ensures makes { Makes plain_tick (refund child n) (script_mover self.old) (script_mover self.new) }
        ensures plays { Plays false (MakesIt (refund child n)) self.old self.new }
    {
        self.stage.prompt(false);
        self.stage.plain.refund(child, n);
        self.stage.find(Place::Entry(child));
    }

    fn claim(&mut self, word: u32, seen: u64, mask: u64) -> bool
        requires { OfSomeRun mask (λ from order.
            MayTry (claim word seen from order) seen (script_mover self.old)) }
        ensures tries { OfRun mask (λ from order.
            Tries plain_tick (claim word seen from order) seen result (script_mover self.old) (script_mover self.new)) }
        ensures plays { Plays true (λ a b. OfRun mask (λ from order.
            TriesIt (claim word seen from order) seen result a b)) self.old self.new }
    {
        if self.stage.loses(Place::Bits(word), seen) {
            return false;
        }
        let made = self.stage.plain.claim(word, seen, mask);
        self.stage.find(Place::Bits(word));
        made
    }

    fn claim_singles(&mut self, word: u32, seen: u64, mask: u64) -> bool
        requires { MayTry (claim_singles word seen mask) seen (script_mover self.old) }
        ensures tries { Tries plain_tick (claim_singles word seen mask) seen result
            (script_mover self.old) (script_mover self.new) }
        ensures plays { Plays true (TriesIt (claim_singles word seen mask) seen result) self.old self.new }
    {
        if self.stage.loses(Place::Bits(word), seen) {
            return false;
        }
        let made = self.stage.plain.claim_singles(word, seen, mask);
        self.stage.find(Place::Bits(word));
        made
    }

    fn release(&mut self, word: u32, mask: u64)
        requires { OfSomeRun mask (λ from order.
            MayMake (release_run word from order) (script_mover self.old)) }
        ensures makes { OfRun mask (λ from order.
            Makes plain_tick (release_run word from order) (script_mover self.old) (script_mover self.new)) }
        ensures plays { Plays false (λ a b. OfRun mask (λ from order.
            MakesIt (release_run word from order) a b)) self.old self.new }
    {
        self.stage.prompt(false);
        self.stage.plain.release(word, mask);
        self.stage.find(Place::Bits(word));
    }

    fn take_huge(&mut self, child: u32, seen: u64) -> bool
        requires { MayTry (take_huge child seen) seen (script_mover self.old) }
        ensures tries { Tries plain_tick (take_huge child seen) seen result
            (script_mover self.old) (script_mover self.new) }
        ensures plays { Plays true (TriesIt (take_huge child seen) seen result) self.old self.new }
    {
        if self.stage.loses(Place::Entry(child), seen) {
            return false;
        }
        let made = self.stage.plain.take_huge(child, seen);
        self.stage.find(Place::Entry(child));
        made
    }

    fn give_huge(&mut self, child: u32)
        requires { MayMake (give_whole child) (script_mover self.old) }
        ensures makes { Makes plain_tick (give_whole child) (script_mover self.old) (script_mover self.new) }
        ensures plays { Plays false (MakesIt (give_whole child)) self.old self.new }
    {
        self.stage.prompt(false);
        self.stage.plain.give_huge(child);
        self.stage.find(Place::Entry(child));
    }

    fn hand_out(&mut self, frame: u32, order: u8) -> PlainBlock
        requires { MayHandOut (block frame order) (script_mover self.old) }
        ensures hands_out { HandsOut plain_tick plain_block (block frame order) result
            (script_mover self.old) (script_mover self.new) }
        ensures plays { Plays false (HandsItOut (block frame order) result) self.old self.new }
    {
        self.stage.prompt(false);
        self.stage.plain.hand_out(frame, order)
    }

    fn hand_in(&mut self, held: PlainBlock)
        requires { MayHandIn held held (script_mover self.old) }
        ensures hands_in { HandsIn plain_tick plain_block held (script_mover self.old) (script_mover self.new) }
        ensures plays { Plays false (HandsItIn held) self.old self.new }
    {
        self.stage.prompt(false);
        self.stage.plain.hand_in(held);
    }

    fn tree_pay(&mut self, tree: u32, seen: u64, n: u32) -> bool
        requires { MayTry (tree_pay tree seen n) seen (script_mover self.old) }
        ensures tries { Tries plain_tick (tree_pay tree seen n) seen result
            (script_mover self.old) (script_mover self.new) }
        ensures plays { Plays true (TriesIt (tree_pay tree seen n) seen result) self.old self.new }
    {
        if self.stage.loses(Place::Tree(tree), seen) {
            return false;
        }
        let made = self.stage.plain.tree_pay(tree, seen, n);
        self.stage.find(Place::Tree(tree));
        made
    }

    fn tree_refund(&mut self, tree: u32, n: u32)
        requires { MayMake (tree_refund tree n) (script_mover self.old) }
        ensures makes { Makes plain_tick (tree_refund tree n) (script_mover self.old) (script_mover self.new) }
        ensures plays { Plays false (MakesIt (tree_refund tree n)) self.old self.new }
    {
        self.stage.prompt(false);
        self.stage.plain.tree_refund(tree, n);
        self.stage.find(Place::Tree(tree));
    }

    fn reserve(&mut self, tree: u32, seen: u64) -> bool
        requires { MayTry (reserve tree seen) seen (script_mover self.old) }
        ensures tries { Tries plain_tick (reserve tree seen) seen result
            (script_mover self.old) (script_mover self.new) }
        ensures plays { Plays true (TriesIt (reserve tree seen) seen result) self.old self.new }
    {
        if self.stage.loses(Place::Tree(tree), seen) {
            return false;
        }
        let made = self.stage.plain.reserve(tree, seen);
        self.stage.find(Place::Tree(tree));
        made
    }

    fn swap_local(&mut self, core: u32, put: Option<(u32, u32)>) -> Option<(u32, u32)>
        requires { MayMake (swap_local core put) (script_mover self.old) }
        ensures swaps { Swaps plain_tick core put result (script_mover self.old) (script_mover self.new) }
        ensures plays { Plays false (SwapsIt core put result) self.old self.new }
    {
        self.stage.prompt(false);
        let rest = self.stage.plain.swap_local(core, put);
        self.stage.find(Place::Local(core));
        rest
    }

    fn unreserve(&mut self, tree: u32, n: u32)
        requires { MayMake (unreserve tree n) (script_mover self.old) }
        ensures makes { Makes plain_tick (unreserve tree n) (script_mover self.old) (script_mover self.new) }
        ensures plays { Plays false (MakesIt (unreserve tree n)) self.old self.new }
    {
        self.stage.prompt(false);
        self.stage.plain.unreserve(tree, n);
        self.stage.find(Place::Tree(tree));
    }

    fn local_pay(&mut self, core: u32, seen: u64, n: u32) -> bool
        requires { MayTry (local_pay core seen n) seen (script_mover self.old) }
        ensures tries { Tries plain_tick (local_pay core seen n) seen result
            (script_mover self.old) (script_mover self.new) }
        ensures plays { Plays true (TriesIt (local_pay core seen n) seen result) self.old self.new }
    {
        if self.stage.loses(Place::Local(core), seen) {
            return false;
        }
        let made = self.stage.plain.local_pay(core, seen, n);
        self.stage.find(Place::Local(core));
        made
    }

    fn local_refund(&mut self, core: u32, seen: u64, n: u32) -> bool
        requires { MayTry (local_refund core seen n) seen (script_mover self.old) }
        ensures tries { Tries plain_tick (local_refund core seen n) seen result
            (script_mover self.old) (script_mover self.new) }
        ensures plays { Plays true (TriesIt (local_refund core seen n) seen result) self.old self.new }
    {
        if self.stage.loses(Place::Local(core), seen) {
            return false;
        }
        let made = self.stage.plain.local_refund(core, seen, n);
        self.stage.find(Place::Local(core));
        made
    }

    fn collect(&mut self, tree: u32, seen: u64) -> bool
        requires { MayTry (collect tree seen) seen (script_mover self.old) }
        ensures tries { Tries plain_tick (collect tree seen) seen result
            (script_mover self.old) (script_mover self.new) }
        ensures plays { Plays true (TriesIt (collect tree seen) seen result) self.old self.new }
    {
        if self.stage.loses(Place::Tree(tree), seen) {
            return false;
        }
        let made = self.stage.plain.collect(tree, seen);
        self.stage.find(Place::Tree(tree));
        made
    }

    fn fill_word(&mut self, word: u32)
        requires { MayMake (fill_word word) (script_mover self.old) }
        ensures makes { Makes plain_tick (fill_word word) (script_mover self.old) (script_mover self.new) }
        ensures plays { Plays false (MakesIt (fill_word word)) self.old self.new }
    {
        self.stage.prompt(false);
        self.stage.plain.fill_word(word);
        self.stage.find(Place::Bits(word));
    }

    fn drop_flag(&mut self, child: u32)
        requires { MayMake (drop_whole child) (script_mover self.old) }
        ensures makes { Makes plain_tick (drop_whole child) (script_mover self.old) (script_mover self.new) }
        ensures plays { Plays false (MakesIt (drop_whole child)) self.old self.new }
    {
        self.stage.prompt(false);
        self.stage.plain.drop_flag(child);
        self.stage.find(Place::Entry(child));
    }
}
