// Inner: called by the tables, events and runs. Question 4 and the calls on a count and words that are lent, and a table whose words
// are lent and change in place: its calls are those of a table that passed question 4.
ghost use Rattle.std.specs.Prelude.{◌≡◌, true, ◌&&◌, ◌∷◌, ◌+◌, ◌*◌, ◌<◌, ◌≤◌, ltb, length, get_or};
ghost use Rattle.limits.specs.declared.Limits.{Limits};
ghost use Rattle.limits.specs.Limits.{sound_limits};
ghost use Rattle.limits.specs.Questions.{ask, Answered, time_questions};
ghost use Rattle.limits.specs.Tables.{capacity, on_body, put, remove, age, expired};
ghost use Rattle.tables.specs.Words.{message_at};
ghost use Rattle.air.specs.Rules.{room_questions, place_questions};
ghost use Rattle.air.specs.Forms.{sound_of, messages_of, sound_table};
ghost use Rattle.air.specs.Tables.{table_messages, sound_in, HoldsIn, LentCall};
ghost use Rattle.air.specs.Lent.{lent_table, StaysLent};

use crate::messages::{Carried, Roomy};
use limits::Limits;
use limits::answer::Refusal;
use limits::messages::Message;
use std::marker::PhantomData;

// Question 4 of a message.
pub fn message_sound<M: Carried>(l: Limits, message: Message<M>) -> bool
    requires { sound_limits l ≡ true }
    ensures { result ≡ sound_of M.form l message }
{
    limits::within(1, M::longest(l), message.life) && message.body.is_sound(l)
}

// Question 4 of a table. Looks at every message, so that no test hangs on the one before it, and then at all the cells at once.
pub fn table_sound<M: Carried>(l: Limits, count: usize, words: &[u16]) -> bool
    requires { (sound_limits l ≡ true) × (M.form.width * 32 ≤ length words.now) }
    ensures { result ≡ sound_table M.form l count words.now }
{
    if 32 < count {
        return false;
    }
    let mut good = true;
    for i in 0..count {
        good &= M::head_sound(l, words, M::WIDTH * i);
    }
    good & M::cells_sound(words, count)
}

// Message p.
pub fn message_at<M: Carried>(words: &[u16], p: usize) -> Message<M>
    requires { M.form.width * p + M.form.width ≤ length words.now }
    ensures { result ≡ on_body M.form.reads (message_at M.form.width words.now p) }
{
    let at = M::WIDTH * p;
    Message {
        body: M::read(words, at),
        life: words[at],
    }
}

// Whether a message more finds a place.
// Stays (no plainer): this and `find` take the parts one by one, since a table that is only looked at lends nothing.
pub fn room(count: usize) -> bool
    ensures { result ≡ ltb count capacity }
{
    count < 32
}

// What message p carries: 17.
pub fn find<M: Roomy<N>, const N: usize>(
    count: usize,
    words: &[u16; N],
    p: usize,
) -> Result<M, Refusal>
    requires { count ≤ 32 }
    ensures { let ms = messages_of M.form count words.now in Answered (place_questions p ms) result (get_or ms p M.form.none).body }
{
    if count <= p {
        return Err(Refusal::NoMessage);
    }
    let message = message_at::<M>(words, p);
    Ok(message.body)
}

// Question 4 of limits and a table. This and the four calls below put it themselves, and take words of any length with room for 32
// messages.
pub fn is_sound<M: Carried>(l: Limits, count: usize, words: &[u16]) -> bool
    requires { M.form.width * 32 ≤ length words.now }
    ensures { result ≡ (sound_limits l && sound_table M.form l count words.now) }
{
    limits::sound_limits(l) && table_sound::<M>(l, count, words)
}

// Question 4 of limits, a table and a message.
fn is_sound_with<M: Carried>(l: Limits, count: usize, words: &[u16], message: Message<M>) -> bool
    requires { M.form.width * 32 ≤ length words.now }
    ensures { result ≡ (sound_limits l && (sound_table M.form l count words.now && sound_of M.form l message)) }
{
    is_sound::<M>(l, count, words) && message_sound(l, message)
}

// A message is put at the table's end: 4, then 13 or 18.
pub fn put<M: Carried>(
    l: Limits,
    count: &mut usize,
    words: &mut [u16],
    message: Message<M>,
) -> Result<(), Refusal>
    requires { M.form.width * 32 ≤ length words.old }
    ensures { let ms = messages_of M.form count.old words.old in LentCall M.form l
        (ask 4 (sound_limits l && (sound_table M.form l count.old words.old && sound_of M.form l message)) ∷ room_questions M.form.full ms)
        (put message ms) result count.old words.old count.new words.new }
{
    if !is_sound_with(l, *count, words, message) {
        return Err(Refusal::Unsound);
    }
    if !room(*count) {
        return Err(M::full());
    }
    message.body.write(message.life, words, *count);
    *count += 1;
    Ok(())
}

// Whether there is a message p: 4, 17.
pub fn found<M: Carried>(l: Limits, count: usize, words: &[u16], p: usize) -> Result<(), Refusal>
    requires { M.form.width * 32 ≤ length words.now }
    ensures { let ms = messages_of M.form count words.now in
        Answered (ask 4 (sound_limits l && sound_table M.form l count words.now) ∷ place_questions p ms) result tt }
{
    if !is_sound::<M>(l, count, words) {
        return Err(Refusal::Unsound);
    }
    if p < count {
        Ok(())
    } else {
        Err(Refusal::NoMessage)
    }
}

// Message p leaves, and the gap is closed: 4, 17.
pub fn remove<M: Carried>(
    l: Limits,
    count: &mut usize,
    words: &mut [u16],
    p: usize,
) -> Result<(), Refusal>
    requires { M.form.width * 32 ≤ length words.old }
    ensures { let ms = messages_of M.form count.old words.old in LentCall M.form l
        (ask 4 (sound_limits l && sound_table M.form l count.old words.old) ∷ place_questions p ms)
        (remove p ms) result count.old words.old count.new words.new }
{
    found::<M>(l, *count, words, p)?;
    tables::remove(words, M::WIDTH, *count, p);
    *count -= 1;
    Ok(())
}

// Lives fall by d, and messages with no life left go: 4, 9.
pub fn tick<M: Carried>(
    l: Limits,
    count: &mut usize,
    words: &mut [u16],
    d: u16,
) -> Result<(), Refusal>
    requires { M.form.width * 32 ≤ length words.old }
    ensures { let ms = messages_of M.form count.old words.old in LentCall M.form l
        (ask 4 (sound_limits l && sound_table M.form l count.old words.old) ∷ time_questions d)
        (age d ms) result count.old words.old count.new words.new }
{
    if !is_sound::<M>(l, *count, words) {
        return Err(Refusal::Unsound);
    }
    if d == 0 {
        return Err(Refusal::BadArgument);
    }
    *count = tables::age(words, M::WIDTH, *count, d);
    Ok(())
}

// How many messages the table has, and its words.
#[derive(Drop)]
pub struct LentTable<'a, M, const N: usize> {
    pub count: usize,
    pub words: &'a mut [u16; N],
    pub carries: PhantomData<M>,
}

impl<M: Roomy<N>, const N: usize> LentTable<'_, M, N> {
    // Whether a message more finds a place.
    pub fn has_room(&self) -> bool
        ensures { result ≡ ltb self.now.count capacity }
    {
        room(self.count)
    }

    // What message p carries: 17.
    pub fn find(&self, p: usize) -> Result<M, Refusal>
        requires { self.now.count ≤ 32 }
        ensures { let ms = table_messages M.form (lent_table self.now) in Answered (place_questions p ms) result (get_or ms p M.form.none).body }
    {
        find::<M, N>(self.count, self.words, p)
    }

    // A message goes into the air with a full life.
    pub fn put(&mut self, l: Limits, body: M)
        requires { (sound_limits l ≡ true) × (self.old.count < 32) × M.fits body }
        ensures lent { StaysLent self.old self.new }
        ensures put { sound_in M.form l (lent_table self.old) ≡ true → M.form.sound l body ≡ true
            → HoldsIn M.form l (lent_table self.new) (put (record { body = body; life = M.form.longest l }) (table_messages M.form (lent_table self.old))) }
    {
        body.write(M::longest(l), self.words, self.count);
        self.count += 1;
    }

    // Message p leaves, and the gap is closed.
    pub fn remove(&mut self, p: usize)
        requires { (p < self.old.count) × (self.old.count ≤ 32) }
        ensures lent { StaysLent self.old self.new }
        ensures removed { (l : Limits) → sound_in M.form l (lent_table self.old) ≡ true
            → HoldsIn M.form l (lent_table self.new) (remove p (table_messages M.form (lent_table self.old))) }
    {
        tables::remove(self.words, M::WIDTH, self.count, p);
        self.count -= 1;
    }

    // Lives fall by d, and messages with no life left go. Returns how many these are.
    pub fn age(&mut self, d: u16) -> usize
        requires { self.old.count ≤ 32 }
        ensures lent { StaysLent self.old self.new }
        ensures aged { (l : Limits) → sound_in M.form l (lent_table self.old) ≡ true
            → HoldsIn M.form l (lent_table self.new) (age d (table_messages M.form (lent_table self.old))) }
        ensures expired { result ≡ expired d (table_messages M.form (lent_table self.old)) }
    {
        let count = self.count;
        self.count = tables::age(self.words, M::WIDTH, count, d);
        count - self.count
    }
}
