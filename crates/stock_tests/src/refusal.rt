// What drawing and stowing give, for the tables of both kinds of stock.
use stock::fault::StockFault;

// Why a row of a table gives no value.
#[derive(Clone, Copy, PartialEq, Eq)]
pub enum Refusal {
    NoStock,
    // By its number, which the tables pin.
    Fault(u8),
}

impl From<StockFault> for Refusal {
    fn from(fault: StockFault) -> Refusal {
        Refusal::Fault(u8::from(fault))
    }
}

// What an act makes of an old and a given value, where both are stock.
pub fn outcome<V: Drop, F: FnOnce(V, V) -> Result<V, StockFault> + Drop>(
    old: Option<V>,
    given: Option<V>,
    act: F,
) -> Result<V, Refusal>
    requires { F.IsAlwaysCallable act }
{
    let old = old.ok_or(Refusal::NoStock)?;
    let given = given.ok_or(Refusal::NoStock)?;
    Ok(act(old, given)?)
}
