// The number by which bytes find their chain: their pieces weighed, summed up and spread. Nothing wraps: a half of a piece has 32 bits, a weight 26,
// and at most 31 pieces are weighed.
ghost use Rattle.std.specs.Prelude.{◌≡◌, ◌*◌, ◌≤◌, ◌<◌, length};
ghost use Rattle.chains.specs.Sums.{most_pieces, weight_values, weight_at, turned, weighed, pieces_of, sum_below, product_values};

use span::pieces;

pub const WORD_VALUES: u64 = 4294967296;

pub const LAST_WEIGHT: u64 = 58320731;

const WEIGHT_VALUES: u64 = 67108864;

const MOST_PIECES: usize = 31;

// One for each piece: the bits in the middle of a product, so that none is like another. A table would be laid out anew at each look-up.
#[tactic(auto, using(crate::specs::Sums::weight_fits))]
fn weight(i: usize) -> u64
    requires { i < most_pieces }
    ensures { (result ≡ weight_at i) × (result < weight_values) }
{
    let n = i as u64;
    (n * 40503001 + 52637036) * (n * 63270273 + 17885061) / 16384 % WEIGHT_VALUES
}

// The upper and the lower half of a weight change places.
fn turned(w: u64) -> u64
    requires { w < weight_values }
    ensures { (result ≡ turned w) × (result < weight_values) }
{
    (w % 8192) * 8192 + w / 8192
}

// The lower half of a piece by its weight, and the upper by the weight turned.
#[tactic(auto, using(crate::specs::Sums::product_small))]
pub fn weighed(x: u64, w: u64) -> u64
    requires { w < weight_values }
    ensures { (result ≡ weighed x w) × (result ≤ product_values) }
{
    let low = x % WORD_VALUES;
    let high = x / WORD_VALUES;
    low * w + high * turned(w)
}

// How many pieces are weighed.
fn pieces_of(bytes: &[u8]) -> usize
    ensures { result ≡ pieces_of bytes.now }
{
    (bytes.len() / pieces::PIECE_SIZE).min(MOST_PIECES)
}

#[tactic(auto, unfolding(crate::specs::Sums::sum_below))]
pub fn sum_of(bytes: &[u8]) -> u64
    ensures { result ≡ sum_below bytes.now (pieces_of bytes.now) }
{
    let mut sum: u64 = 0;
    for i in 0..pieces_of(bytes) {
        sum += weighed(pieces::piece(bytes, pieces::PIECE_SIZE * i), weight(i));
    }
    sum
}
