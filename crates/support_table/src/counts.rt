//! Counts the columns of unions of two supports.

ghost use Rattle.std.specs.Prelude.{◌≡◌, ◌<◌, ◌^◌, List, Bool, length};
ghost use Rattle.support_bits.specs.Words.{AreWordsOf};
ghost use Rattle.support_table.specs.Counts.{columns_in_either};

/// The number of columns in the union of two supports of equal width, whose words are `a` and `b`.
pub fn union_count(a: &[u64], b: &[u64]) -> u64
    requires lengths { length b.now ≡ length a.now }
    requires short { length a.now < 2 ^ 32 }
    ensures { (s t : List Bool) → AreWordsOf s a.now → AreWordsOf t b.now → length s ≡ length t
        → result ≡ columns_in_either s t }
{
    let mut count = 0u64;
    for (k, word) in a.iter().enumerate() {
        count += u64::from((*word | b[k]).count_ones());
    }
    count
}
