// What a stock value is: how it is drawn from and stowed into, and the number that stands for it in a file.
ghost use Rattle.std.specs.Prelude.{◌≡◌, ℕ, ◌^◌, ◌<◌, Some, Option};
ghost use Rattle.stock.specs.Arithmetic.{Arithmetic};

use crate::fault::StockFault;

pub trait Stock: Sized {
    // What is left of an old value when a given one is drawn from it, and what it becomes when one is stowed into it.
    ghost arithmetic: { Arithmetic Self };

    // Members, and no `From` and `TryFrom`, which would be no plainer: the laws below tie the two ways to one another.
    ghost codes: { Self → ℕ };

    ghost decodes: { ℕ → Option Self };

    fn draw(self, given: Self) -> Result<Self, StockFault>
        ensures { result ≡ arithmetic.draw self given };

    fn stow(self, given: Self) -> Result<Self, StockFault>
        ensures { result ≡ arithmetic.stow self given };

    fn code(self) -> u64
        ensures { result ≡ codes self };

    fn decode(code: u64) -> Option<Self>
        ensures { result ≡ decodes code };

    ghost fits: { (v : Self) → codes v < 2 ^ 64 };

    ghost back: { (v : Self) → decodes (codes v) ≡ Some v };

    ghost sole: { (n : ℕ) (v : Self) → decodes n ≡ Some v → codes v ≡ n };
}
