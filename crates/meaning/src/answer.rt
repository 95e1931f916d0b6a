// What an access answers.
ghost use Rattle.std.specs.Prelude.{◌≡◌, Some};
ghost use Rattle.meaning.specs.Meaning.{answer};
ghost use Rattle.meaning.specs.Step.{answered};
ghost use Rattle.meaning.specs.Store.{Store};

use stock::access::Access;
use stock::compute::compute;
use stock::fault::AccessFault;
use stock::kind::AccessKind;
use stock::value::Stock;

// Told the old value of its word, and the place that a stock fault is to have.
pub fn answer_from<V: Stock + Copy>(
    old: V,
    access: &Access<V>,
    place: usize,
) -> Result<V, AccessFault>
    ensures { (words : Store V) → words access.now.word ≡ Some old → result ≡ answered place (answer V.arithmetic words access.now) }
{
    let kind = AccessKind::try_from(access.kind).ok();
    compute(kind, old, access.value).map_err(|fault| AccessFault { place, fault })
}
