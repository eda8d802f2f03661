//! Words of a line.

ghost use Rattle.std.specs.Prelude.{◌≡◌, ℕ, Some, IfSome, IsNone};
ghost use Rattle.script_lines.specs.Words.{AreNumbers, HasNone, IsCutAt, IsNumber};

use itoa::Buffer;
use std::str;

#[tactic(auto, using(crate::proofs::Cuts::none_more))]
/// Returns what comes before the first such byte, and what comes after it.
pub fn cut_at(byte: u8, bytes: &[u8]) -> Option<(&[u8], &[u8])>
    ensures found { IfSome result (λ x. IsCutAt byte bytes.now x.0.now x.1.now) }
    ensures none { IsNone result → HasNone byte bytes.now }
{
    'bytes: for (i, b) in bytes.iter().enumerate() {
        if *b == byte {
            return Some((&bytes[..i], &bytes[i + 1..]));
        }
    }
    None
}

/// Returns the number that a word writes.
pub(crate) fn number_of(word: &[u8]) -> Option<u64>
    ensures is { IfSome result (λ n. IsNumber word.now n) }
    ensures only { (n : ℕ) → IsNumber word.now n → result ≡ Some n }
{
    let Ok(text) = str::from_utf8(word) else {
        return None;
    };
    let Ok(n) = text.parse::<u64>() else {
        return None;
    };
    let mut buffer = Buffer::new();
    if buffer.format(n).as_bytes() == word {
        Some(n)
    } else {
        None
    }
}

/// Returns the two numbers that words write.
pub(crate) fn numbers_of(words: &[u8]) -> Option<(u64, u64)>
    ensures are { IfSome result (λ x. AreNumbers words.now x.0 x.1) }
    ensures none { IsNone result → (m n : ℕ) → ¬ AreNumbers words.now m n }
{
    let Some((first, second)) = cut_at(b' ', words) else {
        return None;
    };
    let Some(m) = number_of(first) else {
        return None;
    };
    match number_of(second) {
        Some(n) => Some((m, n)),
        None => None,
    }
}
