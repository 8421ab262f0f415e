ghost use Rattle.std.specs.Prelude.{◌≡◌};
ghost use Rattle.every_secret.specs.Private.Sums.{sum_counted};

/// The sum of two numbers, each None where it is 2^64 or more; None where the sum is.
pub(crate) fn sum_of(first: Option<u64>, second: Option<u64>) -> Option<u64>
    ensures { result ≡ sum_counted first second }
{
    match (first, second) {
        (Some(first), Some(second)) => first.checked_add(second),
        (Some(_), None) => None,
        (None, _) => None,
    }
}
