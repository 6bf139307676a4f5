// Inner: called by air, mat and pad. Question 4 of what a message carries; the life is the tables' own.
ghost use Rattle.std.specs.Prelude.{◌≡◌, true};
ghost use Rattle.limits.specs.Limits.{sound_limits};
ghost use Rattle.limits.specs.Tables.{sound_data, sound_reply};

use limits::messages::{Data, Reply};
use limits::{Limits, ring};

// Stays (no plainer): the two below are two questions, of other fields.
pub fn data_sound(l: Limits, data: Data) -> bool
    requires { sound_limits l ≡ true }
    ensures { result ≡ sound_data l «data» }
{
    data.number < 2 * l.window && crate::legal_row(data.row)
}

pub fn reply_sound(l: Limits, reply: Reply) -> bool
    requires { sound_limits l ≡ true }
    ensures { result ≡ sound_reply l reply }
{
    let w = l.window;
    let Reply { first, last } = reply;
    first < 2 * w && (last < 2 * w && ring::gap(2 * w, first, last) + 1 <= w)
}
