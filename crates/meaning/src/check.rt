// What is asked of a hardware transaction's accesses before they are run.
ghost use Rattle.std.specs.Prelude.{◌≡◌, length};
ghost use Rattle.stock.specs.Access.{writing_access};
ghost use Rattle.meaning.specs.Check.{bad_count, wrong_access_count, check_access, checked};

use decline::Decline;
use stock::access::Access;
use stock::kind::AccessKind;

pub const MAX_WORDS: usize = 4096;

pub const MAX_ACCESSES: usize = 64;

pub fn is_writing<V>(access: &Access<V>) -> bool
    ensures { result ≡ writing_access access.now }
{
    AccessKind::try_from(access.kind).is_ok_and(|kind| kind.is_writing())
}

// Words are lent in any number from 1 to 4,096.
pub fn is_bad_count(words: usize) -> bool
    ensures { result ≡ bad_count words }
{
    words == 0 || words > MAX_WORDS
}

// At most 64 accesses, and a place for the answer of each.
pub fn is_wrong_access_count(accesses: usize, answers: usize) -> bool
    ensures { result ≡ wrong_access_count accesses answers }
{
    accesses > MAX_ACCESSES || answers < accesses
}

fn check_access<V>(access: &Access<V>, place: usize, words: usize) -> Result<(), Decline>
    ensures { result ≡ check_access place words access.now }
{
    AccessKind::try_from(access.kind).map_err(|_| Decline::UnknownKind(place))?;
    if access.word as usize >= words {
        return Err(Decline::UnknownWord(place));
    }
    Ok(())
}

// Access by access, kind before word: the first that fails counts.
#[tactic(auto, using(crate::proofs::CheckSteps::passes_on, crate::proofs::CheckSteps::stops_here))]
pub fn check_accesses<V>(accesses: &[Access<V>], words: usize) -> Result<(), Decline>
    ensures { result ≡ checked 0 words accesses.now }
{
    for (i, access) in accesses.iter().enumerate() {
        check_access(access, i, words)?;
    }
    Ok(())
}
