//! Who steps next: the own view and that of a party change places.

ghost use Rattle.std.specs.Prelude.{◌≡◌, ◌*◌, ◌<◌, [], vec_len, replicate, IfOk, IfErr};
ghost use Rattle.std.specs.List.{All};
ghost use Rattle.plain_moves.specs.Plain.{HasRoomToFill, IsFresh};
ghost use Rattle.plain_moves.specs.PlainState.{Admits, AdmitsStrangers, IsByItself, IsTurned};

use super::PlainMoves;
use super::party::Company;
use frame_words::Fault;
use std::alloc::Global;
use std::mem;

impl PlainMoves {
    /// Eight strangers come beside the own view, each with one share and nothing in flight. Nothing
    /// changes where memory is refused.
    pub fn admit_strangers(&mut self, alloc: Global) -> Result<(), Fault>
        requires alone { IsByItself self.old }
        ensures err { IfErr result (λ e. e ≡ Fault.NoMemory) }
        ensures same { IfErr result (λ _. self.new ≡ self.old) }
        ensures admits { IfOk result (λ _. AdmitsStrangers self.old self.new) }
    {
        let them = Company::fresh(alloc, self.geometry)?;
        self.admit(them);
        Ok(())
    }

    // A new company waits beside the own view.
    fn admit(&mut self, them: Company)
        requires alone { IsByItself self.old }
        requires fresh { All IsFresh them.parties.items }
        requires room { All (HasRoomToFill self.old.geometry.children) them.parties.items }
        requires outs { them.outs.items ≡ replicate (512 * self.old.geometry.children) 0 }
        ensures { Admits them self.old self.new }
    {
        self.them = them;
    }

    // What this party has in flight is the own view now, and what the own view was is the party's.
    pub(crate) fn turn(&mut self, who: usize)
        requires { who < vec_len self.old.them.parties }
        ensures turned { IsTurned who self.old self.new }
        ensures parties { vec_len self.new.them.parties ≡ vec_len self.old.them.parties }
    {
        let party = &mut self.them.parties[who];
        mem::swap(&mut self.share, &mut party.share);
        mem::swap(&mut self.own, &mut party.own);
        mem::swap(&mut self.paid, &mut party.paid);
        mem::swap(&mut self.charged, &mut party.charged);
        mem::swap(&mut self.reserving, &mut party.reserving);
        mem::swap(&mut self.filled, &mut party.filled);
        mem::swap(&mut self.moves, &mut party.moves);
        mem::swap(&mut self.lost, &mut party.lost);
        mem::swap(&mut self.outs, &mut self.them.outs);
    }
}
