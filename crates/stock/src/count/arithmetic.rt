ghost use Rattle.std.specs.Prelude.{◌≡◌, ◌≤◌};
ghost use Rattle.stock.specs.Count.{count, counted, count_arithmetic};
ghost use Rattle.stock.specs.SameCount.{count_fits, count_back, count_value};

use crate::count::Count;
use crate::fault::StockFault;
use crate::value::Stock;

pub const MAX: u32 = 999_999;

#[tactic(auto, using(crate::specs::SameCount::counted_is))]
fn count_of(value: u32) -> Count
    requires { value ≤ 999999 }
    ensures { result ≡ counted value }
{
    Count { value }
}

impl Count {
    pub fn new(value: u32) -> Option<Count>
        ensures { result ≡ count value }
    {
        if value <= MAX {
            Some(count_of(value))
        } else {
            None
        }
    }

    pub fn value(self) -> u32
        ensures { result ≡ self.value }
    {
        self.value
    }
}

impl Stock for Count {
    ghost arithmetic = { count_arithmetic };

    ghost codes = { λ c. c.value };

    ghost decodes = { count };

    ghost fits = { count_fits };

    ghost back = { count_back };

    ghost sole = { count_value };

    fn draw(self, given: Count) -> Result<Count, StockFault> {
        if given.value <= self.value {
            Ok(count_of(self.value - given.value))
        } else {
            Err(StockFault::Short)
        }
    }

    fn stow(self, given: Count) -> Result<Count, StockFault> {
        if self.value + given.value <= MAX {
            Ok(count_of(self.value + given.value))
        } else {
            Err(StockFault::Over)
        }
    }

    fn code(self) -> u64 {
        u64::from(self.value)
    }

    fn decode(code: u64) -> Option<Count> {
        // A test and a cast: by `u32::try_from` loading a file of counts took four times as long.
        if code <= u64::from(MAX) {
            Count::new(code as u32)
        } else {
            None
        }
    }
}
