// Inner: called by rows, mat, pad and frames. Steps on the ring of n numbers, by one comparison instead of a remainder.
ghost use Rattle.std.specs.Prelude.{◌≡◌, ◌*◌, ◌<◌, ◌≤◌};
ghost use Rattle.limits.specs.Ring.{distance, step, place};

pub fn gap(n: usize, from: usize, to: usize) -> usize
    requires { (n ≤ 64) × (from < n) × (to < n) }
    ensures { result ≡ distance n from to }
{
    if from <= to { to - from } else { to + n - from }
}

pub fn forward(n: usize, from: usize, count: usize) -> usize
    requires { (n ≤ 64) × (from < n) × (count ≤ n) }
    ensures { result ≡ step n from count }
{
    let to = from + count;
    if to < n { to } else { to - n }
}

pub fn slot(w: usize, number: usize) -> usize
    requires { (w ≤ 32) × (number < 2 * w) }
    ensures { result ≡ place w number }
{
    if number < w { number } else { number - w }
}
