// What every hardware path promises.
ghost use Rattle.std.specs.Prelude.{◌≡◌, ℕ, ◌≤◌, Bool, true, List, length};
ghost use Rattle.meaning.specs.Check.{Ready};
ghost use Rattle.meaning.specs.Meaning.{meaning};
ghost use Rattle.meaning.specs.Store.{nth};
ghost use Rattle.hardware.specs.Path.{shapes, Known, ran};

use decline::Decline;
use stock::access::Access;
use stock::fault::AccessFault;
use stock::value::Stock;

pub trait HardwarePath {
    // Which transactions fit, by the kinds and the words of their accesses alone.
    ghost holds: { Self → List (ℕ × ℕ) → Bool };

    fn fits<V>(&self, accesses: &[Access<V>]) -> bool
        ensures { result ≡ holds self.now (shapes accesses.now) };

    // The meaning of a transaction that fits. Nothing is promised of the work values.
    // `Ready` ties the accesses to words and answers, which a type of checked accesses would not hold: it stays a clause.
    // The slices are parameters and no struct: each clause would name them through it, and say no more.
    fn run_fitting<V: Stock + Copy>(
        &self,
        words: &mut [V],
        accesses: &[Access<V>],
        answers: &mut [V],
        work: &mut [V],
    ) -> Result<(), AccessFault>
        requires ready { Ready (length words.old) accesses.now (length answers.old) }
        requires fits { holds self.now (shapes accesses.now) ≡ true }
        requires work { length work.old ≡ 32 }
        ensures outcome { result ≡ (meaning V.arithmetic accesses.now (nth words.old) answers.old).result }
        ensures words { nth words.new ≡ (meaning V.arithmetic accesses.now (nth words.old) answers.old).words }
        ensures answers { answers.new ≡ (meaning V.arithmetic accesses.now (nth words.old) answers.old).answers };

    ghost short: { (p : Self) (s : List (ℕ × ℕ)) → length s ≤ 1 → Known s → holds p s ≡ true };

    // Gives up on a transaction that does not fit; otherwise does its meaning. No path can do otherwise.
    #[tactic(auto, using(crate::proofs::Fitting::words_left))]
    final fn run<V: Stock + Copy>(
        &self,
        words: &mut [V],
        accesses: &[Access<V>],
        answers: &mut [V],
        work: &mut [V],
    ) -> Result<(), Decline>
        requires ready { Ready (length words.old) accesses.now (length answers.old) }
        requires work { length work.old ≡ 32 }
        ensures outcome { result ≡ (ran (holds self.now (shapes accesses.now)) V.arithmetic accesses.now (nth words.old) answers.old).outcome }
        ensures words { nth words.new ≡ (ran (holds self.now (shapes accesses.now)) V.arithmetic accesses.now (nth words.old) answers.old).words }
        ensures answers { answers.new ≡ (ran (holds self.now (shapes accesses.now)) V.arithmetic accesses.now (nth words.old) answers.old).answers }
    {
        if !self.fits(accesses) {
            return Err(Decline::Unfit);
        }
        self.run_fitting(words, accesses, answers, work)?;
        Ok(())
    }
}
