// A number of pieces of one batch; the empty lot has batch 0.
ghost use Rattle.std.specs.Prelude.{◌≡◌, true};
ghost use Rattle.stock.specs.LotShape.{lot_sound};

pub mod arithmetic;

#[derive(Clone, Copy, PartialEq, Eq)]
pub struct Lot {
    batch: u32,
    count: u32,
    ghost sound: { lot_sound batch count ≡ true },
}
