//! Whether two texts are the same.

ghost use Rattle.std.specs.Prelude.{◌≡◌, ◌+◌, ◌≤◌, ◌∷◌, length, take, true, slice_range, nat_eq};
ghost use Rattle.std.specs.Cmp.Lexicographic.{pointwise};
ghost use Rattle.std.specs.Int.{to_le_bytes, w64};

use crate::text::{Bytes, FEW, Text};

// Eight bytes as one word, so that they compare at once.
#[inline(always)]
fn word_of(bytes: [u8; 8]) -> u64
    ensures { to_le_bytes w64 result ≡ bytes }
{
    u64::from_le_bytes(bytes)
}

// The eight bytes of an array from `at` on as one word.
#[inline(always)]
fn word_at(array: &[u8; FEW], at: usize) -> u64
    requires within { at + 8 ≤ 22 }
    requires array { length array.now ≡ 22 }
    ensures { to_le_bytes w64 result ≡ slice_range array.now at (at + 8) }
{
    word_of([
        array[at],
        array[at + 1],
        array[at + 2],
        array[at + 3],
        array[at + 4],
        array[at + 5],
        array[at + 6],
        array[at + 7],
    ])
}

// A length and the first seven bytes of an array as one word: they lie side by side.
#[inline(always)]
fn first_word(len: u8, array: &[u8; FEW]) -> u64
    requires array { length array.now ≡ 22 }
    ensures { to_le_bytes w64 result ≡ len ∷ take 7 array.now }
{
    let [a, b, c, d, e, f, g, ..] = array;
    word_of([len, *a, *b, *c, *d, *e, *f, *g])
}

// Whether the bytes of two arrays behind the first seven are the same. That is asked for short texts, too: behind those that
// few bytes were copied into, there are zeros, and a look at the length would have LLVM load the first word byte by byte.
#[inline(always)]
fn same_rest(left: &[u8; FEW], right: &[u8; FEW]) -> bool
    requires left { length left.now ≡ 22 }
    requires right { length right.now ≡ 22 }
    ensures { result ≡ true → take 7 left.now ≡ take 7 right.now → take 22 left.now ≡ take 22 right.now }
{
    word_at(left, 7) == word_at(right, 7) && word_at(left, 14) == word_at(right, 14)
}

// Whether both are texts of few bytes of their own, and the same.
#[inline(always)]
fn are_same_few(left: &Text, right: &Text) -> bool
    ensures { result ≡ true → left.now ≡ right.now }
{
    let Bytes::Own { len, array } = &left.bytes else {
        return false;
    };
    let Bytes::Own {
        len: other_len,
        array: others,
    } = &right.bytes
    else {
        return false;
    };
    if first_word(*len, array) != first_word(*other_len, others) {
        return false;
    }
    same_rest(array, others)
}

// Whether two texts are the same, wherever their bytes are.
#[inline(never)]
fn are_same(left: &Text, right: &Text) -> bool
    ensures { result ≡ pointwise nat_eq left.now right.now }
{
    if left.len() != right.len() {
        return false;
    }
    left.as_slice() == right.as_slice()
}

impl PartialEq for Text {
    ghost use Rattle.std.specs.Prelude.{nat_eq};
    ghost use Rattle.std.specs.Cmp.Lexicographic.{pointwise, nat_list_eq_equiv};
    ghost use Rattle.std.specs.Cmp.{partial_equiv_from_equiv};

    ghost eq = { pointwise nat_eq };

    ghost laws = { partial_equiv_from_equiv nat_list_eq_equiv };

    #[inline(always)]
    fn eq(&self, other: &Text) -> bool {
        if are_same_few(self, other) {
            return true;
        }
        are_same(self, other)
    }
}

impl Eq for Text {
    ghost use Rattle.std.specs.Cmp.Lexicographic.{nat_list_eq_equiv};

    ghost laws = { nat_list_eq_equiv };
}
