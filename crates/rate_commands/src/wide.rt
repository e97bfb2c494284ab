//! Products that 128 bits don't hold, compared.
ghost use Rattle.std.specs.Prelude.{◌*◌, ◌+◌, ◌<◌, ◌^◌, ◌≡◌, nat_le};

/// 2^44: what the low part of a product is below.
const PART: u128 = 0x1000_0000_0000;

/// A product in two parts: `high` times 2^44, and `low`, which is below 2^44.
#[derive(Clone, Copy)]
struct Parted {
    high: u128,
    low: u128,
}

/// The product of two numbers that are below 2^84.
fn product(x: u128, y: u128) -> Parted
    requires x { x < 2 ^ 84 }
    requires y { y < 2 ^ 84 }
    ensures value { result.high * 2 ^ 44 + result.low ≡ x * y }
    ensures low { result.low < 2 ^ 44 }
{
    let below = x % PART * y;
    Parted {
        high: x / PART * y + below / PART,
        low: below % PART,
    }
}

/// Whether the product of two numbers is at most that of two others. All are below 2^84.
pub(crate) fn is_product_at_most(x: u128, y: u128, a: u128, b: u128) -> bool
    requires x { x < 2 ^ 84 }
    requires y { y < 2 ^ 84 }
    requires a { a < 2 ^ 84 }
    requires b { b < 2 ^ 84 }
    ensures { result ≡ nat_le (x * y) (a * b) }
{
    let one = product(x, y);
    let other = product(a, b);
    if one.high == other.high {
        one.low <= other.low
    } else {
        one.high < other.high
    }
}
