// Bytes and numbers, put at a place of a lent buffer. The answer is the next place, and None where there is no room.
ghost use Rattle.std.specs.Prelude.{◌≡◌};
ghost use Rattle.text.specs.Decimal.{decimal};
ghost use Rattle.text.specs.Written.{wrote, buffer_after};

// Puts a word at a place.
pub fn put_word(buf: &mut [u8], at: usize, word: &[u8]) -> Option<usize>
    ensures says { result ≡ wrote buf.old at word.now }
    ensures leaves { buf.new ≡ buffer_after buf.old at word.now }
{
    if buf.len().checked_sub(at)? < word.len() {
        return None;
    }
    let end = at + word.len();
    buf[at..end].copy_from_slice(word);
    Some(end)
}

// Puts a number at a place, in decimal.
pub fn put_number(buf: &mut [u8], at: usize, n: u64) -> Option<usize>
    ensures says { result ≡ wrote buf.old at (decimal n) }
    ensures leaves { buf.new ≡ buffer_after buf.old at (decimal n) }
{
    let mut digits = [0u8; 20];
    let k = io::decimal(n, &mut digits);
    put_word(buf, at, &digits[..k])
}
