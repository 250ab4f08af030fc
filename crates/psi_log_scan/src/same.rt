//! Bytes that are compared several at once, and how far two texts are the same.

ghost use Rattle.std.specs.Prelude.{◌≡◌, ◌≤◌, length, take, IsTrue};
ghost use Rattle.std.specs.Int.{from_le_bytes};
ghost use Rattle.std.proofs.Common.{w64};

/// Whether bytes are the same as as many others. All of them are looked at, so that the compiler compares them at
/// once where it knows how many they are.
#[inline]
pub(crate) fn are_same(bytes: &[u8], others: &[u8]) -> bool
    requires { length bytes.now ≡ length others.now }
    ensures { IsTrue result → bytes.now ≡ others.now }
{
    let mut apart = false;
    for place in 0..bytes.len() {
        apart |= bytes[place] != others[place];
    }
    !apart
}

// The number that eight bytes are, the first of them the lowest.
#[inline]
fn eight_of(bytes: &[u8]) -> u64
    requires { length bytes.now ≡ 8 }
    ensures { result ≡ from_le_bytes w64 bytes.now }
{
    u64::from_le_bytes([
        bytes[0], bytes[1], bytes[2], bytes[3], bytes[4], bytes[5], bytes[6], bytes[7],
    ])
}

// How many bytes eight bytes and eight others begin with that are the same.
#[inline]
fn same_of_eight(bytes: &[u8], others: &[u8]) -> usize
    requires count { length bytes.now ≡ 8 }
    requires others { length others.now ≡ 8 }
    ensures few { result ≤ 8 }
    ensures same { take result bytes.now ≡ take result others.now }
{
    let (own, other) = (eight_of(bytes), eight_of(others));
    if own == other {
        return 8;
    }
    ((own ^ other).trailing_zeros() / 8) as usize
}

// With how many equal bytes two texts begin, one of which has fewer than eight bytes.
fn few_alike(text: &[u8], other: &[u8]) -> usize
    ensures within { result ≤ length text.now }
    ensures other { result ≤ length other.now }
    ensures same { take result text.now ≡ take result other.now }
{
    let most = text.len().min(other.len());
    for place in 0..most {
        if text[place] != other[place] {
            return place;
        }
    }
    most
}

/// How many bytes two texts begin with that are the same. They are compared eight at a time; the last eight of the shorter
/// text may overlap those before.
pub(crate) fn alike(text: &[u8], other: &[u8]) -> usize
    ensures within { result ≤ length text.now }
    ensures other { result ≤ length other.now }
    ensures same { take result text.now ≡ take result other.now }
{
    let most = text.len().min(other.len());
    if most < 8 {
        return few_alike(text, other);
    }
    for eight in 0..most / 8 {
        let first = 8 * eight;
        let same = same_of_eight(&text[first..first + 8], &other[first..first + 8]);
        if same < 8 {
            return first + same;
        }
    }
    most - 8 + same_of_eight(&text[most - 8..most], &other[most - 8..most])
}
