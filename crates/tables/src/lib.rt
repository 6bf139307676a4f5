// Inner: called by air. A table of messages as a lent slice of words: message p stands at width * p, its life first. What is
// written here serves tables of every width.
// Stays (no plainer): that messages have a width and lie in the words is a clause of each function, as in `rows`.
#![tactic(auto)]

ghost use Rattle.std.specs.Prelude.{◌≡◌, ◌+◌, ◌-◌, ◌*◌, ◌≤◌, ◌<◌, length};
ghost use Rattle.limits.specs.Lists.{tab, leading};
ghost use Rattle.limits.specs.Tables.{put, remove, age};
ghost use Rattle.rows.specs.Arrays.{closed};
ghost use Rattle.tables.specs.Words.{message_of, message_at, messages, outlives, Lowered};

// The message of `width` words is put at the table's end.
pub fn put(words: &mut [u16], width: usize, count: usize, message: &[u16])
    requires { (1 ≤ width) × (length message.now ≡ width) × (width * count + width ≤ length words.old) }
    ensures { messages width (count + 1) words.new ≡ put (message_of width message.now) (messages width count words.old) }
{
    rows::copy(words, width * count, message);
}

// Message p leaves, and the gap is closed.
pub fn remove(words: &mut [u16], width: usize, count: usize, p: usize)
    requires { (1 ≤ width) × (p < count) × (width * count ≤ length words.old) }
    ensures { messages width (count - 1) words.new ≡ remove p (messages width count words.old) }
{
    rows::close(words, width * p, width, width * count);
}

// The messages from `from` on have d less of life, up to the first that does not outlive d. Gives their number. Stops there, so
// that the compiler leaves it a plain loop: vector code that gathers lives a width apart is 2 KB long, and saves three instructions
// a message.
fn lower(words: &mut [u16], width: usize, from: usize, count: usize, d: u16) -> usize
    requires { (1 ≤ width) × (from ≤ count) × (width * count ≤ length words.old) }
    ensures { (result ≡ leading (outlives d) (tab (count - from) (λ i. message_at width words.old (from + i))))
        × Lowered width d from (from + result) words.old words.new }
{
    for i in from..count {
        let life = words[width * i];
        if life <= d {
            return i - from;
        }
        words[width * i] = life - d;
    }
    count - from
}

// The run of n messages from `from` on moves down to place `to` as a whole. The run before the first message that goes stays.
fn slide(words: &mut [u16], width: usize, from: usize, to: usize, n: usize)
    requires { (1 ≤ width) × (to ≤ from) × (width * (from + n) ≤ length words.old) }
    ensures { words.new ≡ closed (width * to) (width * (from - to)) (width * (from + n)) words.old }
{
    if to < from {
        rows::close(words, width * to, width * (from - to), width * (from + n));
    }
}

// The messages that outlive d move together, each with what is left of its life. Gives their number. In most ticks that is one run
// which stays where it is.
pub fn age(words: &mut [u16], width: usize, count: usize, d: u16) -> usize
    requires { (1 ≤ width) × (width * count ≤ length words.old) }
    ensures { messages width result words.new ≡ age d (messages width count words.old) }
{
    let mut kept = 0;
    let mut i = 0;
    // Stays (no plainer): a turn goes on by the run that was lowered, not by one message.
    while i < count {
        let n = lower(words, width, i, count, d);
        slide(words, width, i, kept, n);
        kept += n;
        i += n + 1;
    }
    kept
}
