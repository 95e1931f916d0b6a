ghost use Rattle.std.specs.Prelude.{◌≡◌, true};
ghost use Rattle.stock.specs.LotShape.{lot_sound};
ghost use Rattle.stock.specs.Lot.{lot, lotted, no_lot, lot_arithmetic, lot_code, lot_decode};
ghost use Rattle.stock.specs.SameLot.{lot_fits, lot_back, lot_sole};

use crate::fault::StockFault;
use crate::lot::Lot;
use crate::value::Stock;

pub const MAX_BATCH: u32 = 999_999;

pub const MAX_COUNT: u32 = 999_999;

fn is_sound(batch: u32, count: u32) -> bool
    ensures { result ≡ lot_sound batch count }
{
    batch <= MAX_BATCH && count <= MAX_COUNT && (batch == 0) == (count == 0)
}

#[tactic(auto, using(crate::specs::SameLot::lotted_is))]
fn lot_of(batch: u32, count: u32) -> Lot
    requires { lot_sound batch count ≡ true }
    ensures { result ≡ lotted batch count }
{
    Lot { batch, count }
}

impl Lot {
    #[tactic(auto, using(crate::specs::SameLot::lotted_is))]
    pub fn empty() -> Lot
        ensures { result ≡ no_lot }
    {
        Lot { batch: 0, count: 0 }
    }

    pub fn new(batch: u32, count: u32) -> Option<Lot>
        ensures { result ≡ lot batch count }
    {
        if is_sound(batch, count) {
            Some(lot_of(batch, count))
        } else {
            None
        }
    }

    pub fn batch(self) -> u32
        ensures { result ≡ self.batch }
    {
        self.batch
    }

    pub fn count(self) -> u32
        ensures { result ≡ self.count }
    {
        self.count
    }
}

impl Stock for Lot {
    ghost arithmetic = { lot_arithmetic };

    ghost codes = { lot_code };

    ghost decodes = { lot_decode };

    ghost fits = { lot_fits };

    ghost back = { lot_back };

    ghost sole = { lot_sole };

    fn draw(self, given: Lot) -> Result<Lot, StockFault> {
        if given.count == 0 {
            Ok(self)
        } else if given.batch != self.batch {
            Err(StockFault::OtherBatch)
        } else if self.count < given.count {
            Err(StockFault::Short)
        } else if self.count == given.count {
            Ok(Lot::empty())
        } else {
            Ok(lot_of(self.batch, self.count - given.count))
        }
    }

    fn stow(self, given: Lot) -> Result<Lot, StockFault> {
        if given.count == 0 {
            Ok(self)
        } else if self.count == 0 {
            Ok(given)
        } else if given.batch != self.batch {
            Err(StockFault::OtherBatch)
        } else if self.count + given.count > MAX_COUNT {
            Err(StockFault::Over)
        } else {
            Ok(lot_of(self.batch, self.count + given.count))
        }
    }

    fn code(self) -> u64 {
        u64::from(self.batch) + 4_294_967_296 * u64::from(self.count)
    }

    fn decode(code: u64) -> Option<Lot> {
        // `as` is proved to lose nothing; `try_from` would give an error that cannot come.
        Lot::new((code % 4_294_967_296) as u32, (code / 4_294_967_296) as u32)
    }
}
