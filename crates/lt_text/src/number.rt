//! Reads decimal numbers. Each number has exactly one spelling.
ghost use Rattle.std.specs.Prelude.{◌≡◌, MatchOption};
ghost use Rattle.lt_text.specs.Number.{decimal_of, IsNoNumber, IsValueOfDigits};

/// The number below `2^64` with these digits. Leading zeros are allowed.
#[tactic(auto, using(crate::proofs::Numbers::not_a_digit, crate::proofs::Numbers::too_large, crate::proofs::Numbers::one_more))]
fn value(digits: &[u8]) -> Option<u64>
    ensures { MatchOption result (IsNoNumber digits.now) (IsValueOfDigits digits.now) }
{
    let mut n = 0u64;
    for &digit in digits {
        if !digit.is_ascii_digit() {
            return None;
        }
        n = n.checked_mul(10)?.checked_add(u64::from(digit - b'0'))?;
    }
    Some(n)
}

/// The number below `2^64` that the word spells in digits. The first digit is not zero, unless it is the only one.
#[tactic(auto, using(crate::proofs::Numbers::number_of_none, crate::proofs::Numbers::no_word, crate::proofs::Numbers::leading_zero, crate::proofs::Numbers::number_of_digits))]
pub fn number(word: &[u8]) -> Option<u64>
    ensures { result ≡ decimal_of word.now }
{
    if word.is_empty() {
        return None;
    }
    if word[0] == b'0' && word.len() > 1 {
        return None;
    }
    value(word)
}
