//! Columns as bits of 64-bit words: column i is bit i modulo 64 of word i / 64.

ghost use Rattle.std.specs.Prelude.{◌≡◌, ◌+◌, ◌<◌, ◌≤◌, ◌↔◌, true, length, IsTrue};
ghost use Rattle.quad_condition.specs.Bits.{word_of_either, word_ahead, HasPairAhead, HasTwo, HasTwoBits, HasFrom};

/// Word `k` of the union of `a` and `b`; 0 after the last word.
fn either(a: &[u64], b: &[u64], k: usize) -> u64
    requires { length b.now ≡ length a.now }
    ensures { result ≡ word_of_either a.now b.now k }
{
    if k < a.len() { a[k] | b[k] } else { 0 }
}

/// The word of the columns `distance` ahead of those of the word `here`, which `next` follows.
fn ahead(here: u64, next: u64, distance: u32) -> u64
    requires some { 1 ≤ distance }
    requires limited { distance < 64 }
    ensures { result ≡ word_ahead here next distance }
{
    (here >> distance) | (next << (64 - distance))
}

/// Whether a column of `mask` and the column `distance` ahead of it both are in the union of `a` and `b`.
pub fn has_pair_ahead(mask: &[u64], a: &[u64], b: &[u64], distance: u32) -> bool
    requires first { length a.now ≡ length mask.now }
    requires second { length b.now ≡ length mask.now }
    requires some { 1 ≤ distance }
    requires limited { distance < 64 }
    ensures { IsTrue result ↔ HasPairAhead mask.now a.now b.now distance }
{
    for k in 0..mask.len() {
        let here = either(a, b, k);
        let next = either(a, b, k + 1);
        if mask[k] & here & ahead(here, next, distance) != 0 {
            return true;
        }
    }
    false
}

/// Whether two bits of `word` are set; `word` is not 0.
fn has_two_bits(word: u64) -> bool
    requires { 0 < word }
    ensures { IsTrue result ↔ HasTwoBits word }
{
    let first = word.trailing_zeros();
    word & !(1 << first) != 0
}

/// Whether a column of `mask`, from word `from` on, is in the union of `a` and `b`.
fn has_from(mask: &[u64], a: &[u64], b: &[u64], from: usize) -> bool
    requires first { length a.now ≡ length mask.now }
    requires second { length b.now ≡ length mask.now }
    ensures { IsTrue result ↔ HasFrom mask.now a.now b.now from }
{
    for k in from..mask.len() {
        if mask[k] & either(a, b, k) != 0 {
            return true;
        }
    }
    false
}

/// Whether two columns of `mask` are in the union of `a` and `b`.
pub fn has_two(mask: &[u64], a: &[u64], b: &[u64]) -> bool
    requires first { length a.now ≡ length mask.now }
    requires second { length b.now ≡ length mask.now }
    ensures { IsTrue result ↔ HasTwo mask.now a.now b.now }
{
    for k in 0..mask.len() {
        let word = mask[k] & either(a, b, k);
        if word != 0 {
            return has_two_bits(word) || has_from(mask, a, b, k + 1);
        }
    }
    false
}
