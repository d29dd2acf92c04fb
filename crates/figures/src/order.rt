// The order of figures and of pairs: `above` is the one place of the code that knows it. A type of its own with `Ord` is no
// plainer, since a figure is compared in three places and laid as a plain number everywhere.
// Relies on nothing; what a collect keeps and what a record says of the station's own register rely on it.
ghost use Rattle.std.specs.Prelude.{◌≡◌};
ghost use Rattle.model.specs.Figure.{figures, same_figure};
ghost use Rattle.model.specs.Figure as figure;
ghost use Rattle.model.specs.Listing as listing;

// `==` under the model's word, for contracts that speak of it; with `==` alone each of their proofs needs the law of bits.
pub fn same(x: i32, y: i32) -> bool
    ensures { result ≡ same_figure x y }
{
    x == y
}

// By size, and of two equal sizes the positive: of two figures that differ it is the greater number, or the lesser where
// their sum is negative. It is negative where y is at most −x − 1, which is `!x` and always fits.
pub fn above(x: i32, y: i32) -> bool
    ensures { result ≡ figure.above x y }
{
    x != y && (y < x) != (y <= !x)
}

pub fn larger(x: i32, y: i32) -> i32
    ensures { result ≡ listing.larger figures x y }
{
    if above(y, x) { y } else { x }
}

// Pairs compare by island, then by figure: (k, y) is above (j, x).
pub fn pair_above(k: u8, y: i32, j: u8, x: i32) -> bool
    ensures { result ≡ listing.pair_above figures k y j x }
{
    j < k || j == k && above(y, x)
}
