ghost use Rattle.std.specs.Prelude.{◌≡◌};
ghost use Rattle.kn_lines.specs.Numbers.{number_of};

/// The most digits of a number.
const MOST_DIGITS: usize = 20;

/// The number that a word spells.
pub fn read_number(word: &[u8]) -> Option<u64>
    ensures { result ≡ number_of word.now }
{
    if word.is_empty() || word.len() > MOST_DIGITS {
        return None;
    }
    let mut value: u64 = 0;
    for byte in word {
        if !byte.is_ascii_digit() {
            return None;
        }
        value = value.checked_mul(10)?.checked_add(u64::from(*byte - b'0'))?;
    }
    Some(value)
}
