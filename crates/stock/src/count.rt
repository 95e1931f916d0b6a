// A number of pieces, up to 999,999.
ghost use Rattle.std.specs.Prelude.{◌≤◌};

pub mod arithmetic;

#[derive(Clone, Copy, PartialEq, Eq)]
pub struct Count {
    value: u32,
    ghost within: { value ≤ 999999 },
}
