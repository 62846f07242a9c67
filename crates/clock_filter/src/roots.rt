//! Square roots of numbers of 64 bits.
ghost use Rattle.std.specs.Prelude.{◌≡◌, true, ◌<◌};
ghost use Rattle.tick_units.specs.Units.{root};

// A number near the square root: half of the number's bits, and one of Newton's steps from there, which is never 0.
fn first_near(number: u64) -> u64
    ensures { 0 < result }
{
    let half = (64 - number.leading_zeros()) / 2;
    (1 << half) / 2 + (number >> half) / 2 + 1
}

// One of Newton's steps: the mean of a number near the square root and of the quotient by it, which is never 0.
fn nearer(number: u64, near: u64) -> u64
    requires { 0 < near }
    ensures { 0 < result }
{
    near / 2 + number / near / 2 + 1
}

// Whether this is the square root, rounded down.
#[tactic(auto, using(tick_units::proofs::RootLaws::root_from))]
fn is_root(guess: u64, number: u64) -> bool
    ensures { result ≡ true → guess ≡ root number }
{
    guess < 1 << 32 && guess * guess <= number && number - guess * guess <= 2 * guess
}

/// The square root, rounded down. Newton's steps find it, or the number above it, in all but few cases: a check of the result
/// takes less than a search by halves.
#[inline(never)]
#[tactic(auto, using(tick_units::proofs::RootLaws::root_from))]
pub fn root_of(number: u64) -> u64
    ensures { result ≡ root number }
{
    let near = nearer(number, nearer(number, first_near(number)));
    let above = nearer(number, near);
    if is_root(above - 1, number) {
        above - 1
    } else if is_root(above, number) {
        above
    } else {
        number.isqrt()
    }
}
