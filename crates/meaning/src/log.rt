// A log: words by number, and at the same place of a lent slice the value that each had or is to have.
ghost use Rattle.std.specs.Prelude.{◌≡◌, ◌<◌, ◌≤◌, [], ◌∷◌, ◌++◌, length, All, slice_set};
ghost use Rattle.arrayvec.specs.ArrayVec.{array_vec_len};
ghost use Rattle.meaning.specs.Laid.{HasRoom, laid};

use crate::slots::{load, store};
use arrayvec::ArrayVec;

// Two lists and no pairs: the values lie in a slice that is lent, since a local array of a type parameter's values
// cannot be proved to fit memory. That it keeps its length is a clause of whatever changes a log, since a caller
// does not know it of a slice in a field. Contracts speak of the two lists, by `laid` and `HasRoom`: a word over
// a whole log would only say these again.
#[derive(Drop)]
pub struct Log<'a, V, const N: usize> {
    pub places: ArrayVec<u32, N>,
    pub values: &'a mut [V],
    pub ghost within: { array_vec_len places ≤ length values.now },
}

impl<'a, V: Copy, const N: usize> Log<'a, V, N> {
    pub fn new(values: &'a mut [V]) -> Log<'a, V, N>
        ensures places { result.places.items ≡ [] }
        ensures values { result.values.now ≡ values.old }
    {
        Log {
            places: ArrayVec::new(),
            values,
        }
    }

    // Notes a value for a word behind those noted before.
    pub fn push(&mut self, place: u32, value: V)
        requires { HasRoom N self.old.places.items self.old.values.now }
        ensures places { self.new.places.items ≡ self.old.places.items ++ place ∷ [] }
        ensures values { self.new.values.now ≡ slice_set self.old.values.now (array_vec_len self.old.places) value }
    {
        let n = self.places.len();
        store(self.values, n, value);
        self.places.push(place);
    }

    // The last is written first: of several values for one word the first stays.
    #[tactic(auto, using(crate::proofs::Laying::laid_less))]
    pub fn copy_out(&self, words: &mut [V])
        requires inside { All (λ place. place < length words.old) self.now.places.items }
        ensures { words.new ≡ laid self.now.places.items self.now.values.now words.old }
    {
        // By place: over an iterator from the back the loop's invariant could not say which entries are left.
        for i in (0..self.places.len()).rev() {
            store(words, self.places[i] as usize, load(self.values, i));
        }
    }
}
