// Words on file: each word's code in 8 bytes, low byte first, and nothing else.
#![tactic(auto)]

ghost use Rattle.std.specs.Prelude.{◌≡◌, ◌+◌, ◌*◌, ◌≤◌, length, Ok, None, position};
ghost use Rattle.std.specs.List.{filter_map};
ghost use Rattle.storage.specs.File.{bytes_of, value_of, is_bad, file_of, loaded, measured, stored_file, loaded_result, loaded_words};

use decline::Decline;
use meaning::check::is_bad_count;
use stock::value::Stock;

fn check_lengths(words: usize, bytes: usize) -> Result<(), Decline>
    ensures { result ≡ measured words bytes }
{
    if is_bad_count(words) || bytes != 8 * words {
        return Err(Decline::WrongLength);
    }
    Ok(())
}

// The value that eight bytes stand for, if any.
fn read_value<V: Stock>(bytes: &[u8; 8]) -> Option<V>
    ensures { result ≡ value_of V.decodes bytes.now }
{
    V::decode(u64::from_le_bytes(*bytes))
}

// The place of the first code that stands for no value.
fn first_bad<V: Stock + Copy>(codes: &[[u8; 8]]) -> Option<usize>
    ensures { result ≡ position (is_bad V.decodes) codes.now }
{
    codes
        .iter()
        .position(|bytes| read_value::<V>(bytes).is_none())
}

fn read_words<V: Stock + Copy>(codes: &[[u8; 8]], words: &mut [V])
    requires long { length codes.now ≡ length words.old }
    requires sound { position (is_bad V.decodes) codes.now ≡ None }
    ensures { words.new ≡ filter_map (value_of V.decodes) codes.now }
{
    // By index: nothing is known of the words after a `zip` over `iter_mut`.
    for (i, word) in words.iter_mut().enumerate() {
        *word = read_value(&codes[i]).unwrap();
    }
}

// A function of its own, for speed: its bytes are seen to be no word's, so many words are copied at once.
fn write_code(bytes: &mut [u8], code: u64)
    requires { length bytes.old ≡ 8 }
    ensures { bytes.new ≡ bytes_of code }
{
    bytes.copy_from_slice(&code.to_le_bytes());
}

fn write_words<V: Stock + Copy>(words: &[V], file: &mut [u8])
    requires { length file.old ≡ 8 * length words.now }
    ensures { file.new ≡ file_of V.codes words.now }
{
    // By range: nothing is known of the bytes after `as_chunks_mut`.
    for (i, word) in words.iter().enumerate() {
        write_code(&mut file[8 * i..8 * i + 8], word.code());
    }
}

pub fn store<V: Stock + Copy>(words: &[V], file: &mut [u8]) -> Result<(), Decline>
    ensures outcome { result ≡ measured (length words.now) (length file.old) }
    ensures file { file.new ≡ stored_file V.codes words.now file.old }
    ensures back { result ≡ Ok tt → loaded V.decodes file.new ≡ Ok words.now }
{
    check_lengths(words.len(), file.len())?;
    write_words(words, file);
    Ok(())
}

// Every code is checked before the first word is written.
pub fn load<V: Stock + Copy>(file: &[u8], words: &mut [V]) -> Result<(), Decline>
    ensures outcome { result ≡ loaded_result V.decodes (length words.old) file.now }
    ensures words { words.new ≡ loaded_words V.decodes file.now words.old }
    ensures form { result ≡ Ok tt → file_of V.codes words.new ≡ file.now }
{
    let count = words.len();
    check_lengths(count, file.len())?;
    let (codes, _) = file.as_chunks::<8>();
    if let Some(place) = first_bad::<V>(codes) {
        return Err(Decline::Malformed(place));
    }
    read_words(codes, words);
    Ok(())
}
