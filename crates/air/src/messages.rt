// What a message in the air carries, and its words: the life first, then a number and sixteen cells, or a first and a last number.
ghost use Rattle.std.specs.Prelude.{◌≡◌, true, ℕ, ◌+◌, ◌*◌, ◌^◌, ◌<◌, ◌≤◌, length, get_or, take, refl};
ghost use Rattle.std.proofs.Common.{lit≤};
ghost use Rattle.limits.specs.declared.Limits.{Limits};
ghost use Rattle.limits.specs.Answer.{refusal_number};
ghost use Rattle.limits.specs.Limits.{sound_limits};
ghost use Rattle.limits.specs.Tables.{put};
ghost use Rattle.air.specs.Forms.{Form, FormLaws, entry_at, messages_of, data_form, reply_form};
ghost use Rattle.air.specs.Laws.{data_laws, reply_laws};

use limits::Limits;
use limits::answer::Refusal;
use limits::messages::{Data, Reply};

// What a message carries, and how it stands in the words of a table. Proofs know of a message what its `form` says.
pub trait Carried: Copy {
    ghost form: { Form Self };

    // what it carries can be written in 16-bit words
    ghost fits: { Self → Type 0 };

    ghost WIDTH: { ℕ };

    // How many words a message has.
    const WIDTH: usize;

    // Why a message more is refused at a full table.
    fn full() -> Refusal
        ensures { refusal_number result ≡ form.full };

    // The longest life of a message.
    fn longest(l: Limits) -> u16
        ensures { result ≡ form.longest l };

    // Question 4 of what a message carries.
    fn is_sound(self, l: Limits) -> bool
        requires { sound_limits l ≡ true }
        ensures { result ≡ form.sound l self };

    // Question 4 of the message whose words stand from `at` on, but for its cells.
    fn head_sound(l: Limits, words: &[u16], at: usize) -> bool
        requires { (sound_limits l ≡ true) × (at + form.width ≤ length words.now) }
        ensures { result ≡ form.head l (entry_at form.width words.now at) };

    // Whether the cells of the first n messages are legal.
    fn cells_sound(words: &[u16], n: usize) -> bool
        requires { form.width * n ≤ length words.now }
        ensures { result ≡ form.cells (take (form.width * n) words.now) };

    // What the message carries whose words stand from `at` on.
    fn read(words: &[u16], at: usize) -> Self
        requires { at + form.width ≤ length words.now }
        ensures { result ≡ form.reads (entry_at form.width words.now at).body };

    // The message is put behind the first `count`.
    fn write(self, life: u16, words: &mut [u16], count: usize)
        requires { fits self × (form.width * count + form.width ≤ length words.old) }
        ensures { messages_of form (count + 1) words.new ≡ put (record { body = self; life = life }) (messages_of form count words.old) };

    ghost laws: { FormLaws form fits };

    ghost width_is: { WIDTH ≡ form.width };
}

// N words are room for a table's 32 messages, and are not too many for a slice.
pub trait Roomy<const N: usize>: Carried {
    ghost room: { Self.form.width * 32 ≤ N };

    ghost slice: { N * 2 < 2 ^ 63 };
}

impl Roomy<576> for Data {
    ghost room = { lit≤ tt };

    ghost slice = { lit≤ tt };
}

impl Roomy<96> for Reply {
    ghost room = { lit≤ tt };

    ghost slice = { lit≤ tt };
}

impl Carried for Data {
    ghost form = { data_form };

    ghost fits = { λ x. x.number < 2 ^ 16 };

    ghost WIDTH = { 18 };

    const WIDTH: usize = 18;

    fn full() -> Refusal {
        Refusal::DataTableFull
    }

    fn longest(l: Limits) -> u16 {
        l.datalife
    }

    fn is_sound(self, l: Limits) -> bool {
        rows::messages::data_sound(l, self)
    }

    // The number is read only where the life passes, so that the compiler leaves the loop over messages a plain one: vector code
    // that gathers words a width apart is long, and slower.
    fn head_sound(l: Limits, words: &[u16], at: usize) -> bool {
        limits::within(1, l.datalife, words[at]) && usize::from(words[at + 1]) < 2 * l.window
    }

    // A life and a number that pass their own test are legal cells too, so that the words are tested in one row.
    fn cells_sound(words: &[u16], n: usize) -> bool {
        rows::legal_cells(words, 0, 18 * n)
    }

    fn read(words: &[u16], at: usize) -> Data {
        let number = usize::from(words[at + 1]);
        let row = rows::read(words, at + 2);
        Data { number, row }
    }

    fn write(self, life: u16, words: &mut [u16], count: usize) {
        let row = self.row;
        let mut message = [0; 18];
        message[0] = life;
        // Stays (no plainer): `as` narrows a number whose bound is proved; `try_from` would give an error that cannot be.
        message[1] = self.number as u16;
        rows::copy(&mut message, 2, &row);
        tables::put(words, 18, count, &message);
    }

    ghost laws = { data_laws };

    ghost width_is = { refl };
}

impl Carried for Reply {
    ghost form = { reply_form };

    ghost fits = { λ x. (x.first < 2 ^ 16) × (x.last < 2 ^ 16) };

    ghost WIDTH = { 3 };

    const WIDTH: usize = 3;

    fn full() -> Refusal {
        Refusal::ReplyTableFull
    }

    fn longest(l: Limits) -> u16 {
        l.replylife
    }

    fn is_sound(self, l: Limits) -> bool {
        rows::messages::reply_sound(l, self)
    }

    fn head_sound(l: Limits, words: &[u16], at: usize) -> bool {
        let first = usize::from(words[at + 1]);
        let last = usize::from(words[at + 2]);
        limits::within(1, l.replylife, words[at])
            && rows::messages::reply_sound(l, Reply { first, last })
    }

    fn cells_sound(_words: &[u16], _n: usize) -> bool {
        true
    }

    fn read(words: &[u16], at: usize) -> Reply {
        let first = usize::from(words[at + 1]);
        let last = usize::from(words[at + 2]);
        Reply { first, last }
    }

    fn write(self, life: u16, words: &mut [u16], count: usize) {
        // Stays (no plainer): as in `Data`.
        let message = [life, self.first as u16, self.last as u16];
        tables::put(words, 3, count, &message);
    }

    ghost laws = { reply_laws };

    ghost width_is = { refl };
}
