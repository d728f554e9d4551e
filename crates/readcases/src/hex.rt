// Bytes that are written as hex digits, two to a byte.
ghost use Rattle.std.specs.Prelude.{◌≡◌, ℕ, ◌*◌, [], ◌∷◌, length, IfOk, vec_len, MatchResult};
ghost use Rattle.readcases.specs.Hex.{IsDigit, IsHex};

use crate::case_fault::CaseFault;
use std::alloc::Global;

// The bytes of a hex string.
pub fn bytes_of(heap: Global, hex: &str) -> Result<Vec<u8>, CaseFault>
    ensures bytes { IfOk result (λ v. IsHex hex.now v.items) }
    ensures twice { IfOk result (λ v. 2 * vec_len v ≡ length hex.now) }
{
    hex.as_bytes().chunks(2).map(byte).try_collect(heap)
}

// The byte of two hex digits, the higher first.
fn byte(pair: &[u8]) -> Result<u8, CaseFault>
    ensures { IfOk result (λ b. IsHex pair.now (b ∷ [])) }
{
    let [high, low] = pair else {
        return Err(CaseFault::HalfByte);
    };
    Ok(16 * digit(*high)? + digit(*low)?)
}

// The value of a hex digit. Anything else is refused.
fn digit(c: u8) -> Result<u8, CaseFault>
    ensures { MatchResult result (λ d. IsDigit c d) (λ _. (d : ℕ) → IsDigit c d → ⊥) }
{
    match c {
        b'0'..=b'9' => Ok(c - b'0'),
        b'a'..=b'f' => Ok(c - b'a' + 10),
        _ => Err(CaseFault::Digit),
    }
}
