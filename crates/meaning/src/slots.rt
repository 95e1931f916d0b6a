// One value of a lent slice read or written, each in a function of its own so that callers know it by one fact.
ghost use Rattle.std.specs.Prelude.{◌≡◌, ◌<◌, length, Some, slice_set};
ghost use Rattle.meaning.specs.Store.{nth};

#[tactic(auto, using(crate::proofs::Stores::nth_is))]
pub fn load<V: Copy>(values: &[V], place: usize) -> V
    requires { place < length values.now }
    ensures { nth values.now place ≡ Some result }
{
    values[place]
}

pub fn store<V: Copy>(values: &mut [V], at: usize, value: V)
    requires { at < length values.old }
    ensures { values.new ≡ slice_set values.old at value }
{
    values[at] = value;
}
