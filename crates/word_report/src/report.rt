// The whole text of a report, by the bytes of the file.
ghost use Rattle.std.specs.Prelude.{◌≡◌, ◌/◌, min, length, IfOk, string_bytes};
ghost use Rattle.word_report.specs.Report.{report_of};

use crate::text::DeclinedLine;
use crate::words::Words;
use meaning::check::MAX_WORDS;
use std::alloc::{AllocError, Global};
use stock::count::Count;
use storage::load;

// As many words as a file may have are enough to see that it has more.
fn room_for(bytes: &[u8]) -> usize
    ensures { result ≡ min (length bytes.now / 8) MAX_WORDS }
{
    (bytes.len() / 8).min(MAX_WORDS)
}

// The counts are room for what the file holds, and for no more words than a file may have.
fn report_with(heap: Global, bytes: &[u8], counts: &mut [Count]) -> Result<String, AllocError>
    requires { length counts.old ≡ min (length bytes.now / 8) MAX_WORDS }
    ensures { IfOk result (λ s. string_bytes s ≡ report_of bytes.now) }
{
    match load(bytes, counts) {
        Ok(()) => Words { counts }.to_string(heap),
        Err(decline) => DeclinedLine(decline).to_string(heap),
    }
}

pub fn report(heap: Global, bytes: &[u8]) -> Result<String, AllocError>
    ensures { IfOk result (λ s. string_bytes s ≡ report_of bytes.now) }
{
    let mut counts = vec![in heap; Count::new(0).unwrap(); room_for(bytes)]?;
    report_with(heap, bytes, &mut counts)
}
