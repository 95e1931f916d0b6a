// What one access computes.
ghost use Rattle.std.specs.Prelude.{◌≡◌};
ghost use Rattle.stock.specs.Arithmetic.{computed};

use crate::fault::StockFault;
use crate::kind::AccessKind;
use crate::value::Stock;

pub fn compute<V: Stock + Drop>(kind: Option<AccessKind>, old: V, given: V) -> Result<V, StockFault>
    ensures { result ≡ computed V.arithmetic kind old given }
{
    match kind {
        None | Some(AccessKind::Look) => Ok(old),
        Some(AccessKind::Put) => Ok(given),
        Some(AccessKind::Draw) => old.draw(given),
        Some(AccessKind::Stow) => old.stow(given),
    }
}
