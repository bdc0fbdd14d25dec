// The numbers that a field may write. The functions are compiled into the rules that read a number, as src/judging.rt says.
ghost use Rattle.std.specs.Prelude.{◌≡◌, ℕ, ◌≤◌, IfSome};
ghost use Rattle.batch.specs.Fields.{natural as natural_in, cents as cents_in, Decimal};

use journal::MOST_CENTS;

// The number of which the field is the decimal text. A number above 10^15 may be answered none. A loop over the digits, since
// a fold that stops would say the same test less plainly.
#[inline(always)]
fn decimal_in(field: &[u8]) -> Option<u64>
    ensures { Decimal field.now result }
{
    // 0 is told at once, since many fields are 0. Two arms refuse, so that an edit can turn each by itself.
    match field {
        [] => return None,
        [b'0'] => return Some(0),
        [b'0', _, ..] => return None,
        _ => {}
    }
    let mut n: u64 = 0;
    for c in field {
        if !c.is_ascii_digit() || n > MOST_CENTS {
            return None;
        }
        n = n * 10 + (*c - b'0') as u64;
    }
    Some(n)
}

// The number from `low` to `high` that the field writes. The bounds are two numbers and no `RangeInclusive`, since that
// may be used up, which its contracts would have to rule out.
#[inline(always)]
pub(crate) fn natural(field: &[u8], low: u64, high: u64) -> Option<u64>
    requires { high ≤ 1000000000000000 }
    ensures value { result ≡ natural_in low high field.now }
    ensures within { IfSome result (λ n. (low ≤ n) × (n ≤ high)) }
{
    decimal_in(field).filter(|n| low <= *n && *n <= high)
}

// The cents from -10^15 to 10^15 that the field writes.
#[inline(always)]
pub(crate) fn cents(field: &[u8]) -> Option<i64>
    ensures { result ≡ cents_in field.now }
{
    match field {
        [b'-', digits @ ..] => natural(digits, 1, MOST_CENTS).map(|n| -(n as i64)),
        _ => natural(field, 0, MOST_CENTS).map(|n| n as i64),
    }
}
