// Why stock is not drawn or stowed, and in which access that happened.
ghost use Rattle.std.specs.Prelude.{◌≡◌};
ghost use Rattle.stock.specs.Fault.{fault_number, alone};

#[derive(Clone, Copy, Debug, PartialEq, Eq)]
pub enum StockFault {
    Short,
    Over,
    OtherBatch,
}

impl From<StockFault> for u8 {
    ghost from_gives = { λ fault number. number ≡ fault_number fault };

    fn from(fault: StockFault) -> u8 {
        match fault {
            StockFault::Short => 1,
            StockFault::Over => 2,
            StockFault::OtherBatch => 3,
        }
    }
}

// The stock fault whole, with the place of its access.
#[derive(Clone, Copy, Debug, PartialEq, Eq)]
pub struct AccessFault {
    pub place: usize,
    pub fault: StockFault,
}

// An access that is made by itself has place 0.
impl From<StockFault> for AccessFault {
    ghost from_gives = { λ f r. r ≡ alone f };

    fn from(fault: StockFault) -> Self {
        AccessFault { place: 0, fault }
    }
}
