//! Decimal numbers with a count of places, and exact sums and products of them.

ghost use Rattle.std.specs.Prelude.{◌≡◌, ◌≤◌, ◌+ℤ◌, ◌*ℤ◌, ◌^◌};
ghost use Rattle.mctpctl_table.specs.Decimals.{at_places, exact, product, sum};

/// The most places that a decimal of a real32 has.
pub(crate) const MAX_PLACES: u8 = 10;

/// A number with so many decimal places: number * 10 ^ -places.
#[derive(Clone, Copy, Debug, PartialEq, Eq)]
pub(crate) struct Decimal {
    pub(crate) number: i128,
    pub(crate) places: u8,
}

/// 10 to this power.
pub(crate) fn power_of_ten(power: u8) -> u64
    requires { power ≤ MAX_PLACES }
    ensures value { result ≡ 10 ^ power }
    ensures range { result ≤ 10_000_000_000 }
{
    10u64.pow(power.into())
}

/// The product of two numbers, where it has room.
fn exact_product(left: i128, right: i128) -> Option<i128>
    ensures { result ≡ exact (left *ℤ right) }
{
    left.checked_mul(right)
}

/// The sum of two numbers, where it has room.
fn exact_sum(left: i128, right: i128) -> Option<i128>
    ensures { result ≡ exact (left +ℤ right) }
{
    left.checked_add(right)
}

/// A decimal times a whole number, where the digits have room.
pub(crate) fn product(number: i64, factor: &Decimal) -> Option<Decimal>
    ensures { result ≡ product number factor.now }
{
    let number = exact_product(number.into(), factor.number)?;
    Some(Decimal {
        number,
        places: factor.places,
    })
}

/// The digits of a decimal that is written with this many places, where they have room.
fn at_places(places: u8, decimal: &Decimal) -> Option<i128>
    requires { places ≤ MAX_PLACES }
    ensures { result ≡ at_places places decimal.now }
{
    let scale = power_of_ten(places.saturating_sub(decimal.places));
    exact_product(decimal.number, scale.into())
}

/// The sum of two decimals, where the digits have room.
pub(crate) fn sum(left: &Decimal, right: &Decimal) -> Option<Decimal>
    requires left { left.now.places ≤ MAX_PLACES }
    requires right { right.now.places ≤ MAX_PLACES }
    ensures { result ≡ sum left.now right.now }
{
    let places = if left.places <= right.places {
        right.places
    } else {
        left.places
    };
    let number = exact_sum(at_places(places, left)?, at_places(places, right)?)?;
    Some(Decimal { number, places })
}
