// The limits of a link and questions 1 to 3, the answers of the whole product, legal cells, and steps on the ring of numbers.
#![tactic(auto)]

ghost use Rattle.std.specs.Prelude.{◌≡◌, true};
ghost use Rattle.limits.specs.Answer.{number_of};
ghost use Rattle.limits.specs.Questions.{Answered, first_no};
ghost use Rattle.limits.specs.Limits.{
  between,
  window_fits,
  times_fit,
  wait_fits,
  least_wait,
  limits_questions,
  accepted,
  sound_limits,
};

pub mod answer;
pub mod cells;
pub mod messages;
pub mod ring;

use answer::Refusal;

// Times are in ticks: the lives of data and replies in the air, the pad's reply wait (acknowledgment delay) and the mat's
// resend wait (retransmission timeout).
#[derive(Clone, Copy, Default)]
pub struct Limits {
    pub window: usize,
    pub datalife: u16,
    pub replylife: u16,
    pub replywait: u16,
    pub resendwait: u16,
}

// Question 1 of a window, of a link or of a frame.
pub fn window_fits(w: usize) -> bool
    ensures { result ≡ window_fits w }
{
    1 <= w && w <= 32
}

pub fn within(low: u16, high: u16, x: u16) -> bool
    ensures { result ≡ between low high x }
{
    low <= x && x <= high
}

fn times_fit(l: Limits) -> bool
    ensures { result ≡ times_fit l }
{
    within(1, 250, l.datalife) && (within(1, 250, l.replylife) && within(1, 250, l.replywait))
}

// Stays (no plainer): that the times fit is a clause of what is asked behind them, since the questions are put in order.
fn least_wait(l: Limits) -> u16
    requires { times_fit l ≡ true }
    ensures { result ≡ least_wait l }
{
    l.datalife + l.replylife + l.replywait - 2
}

fn wait_fits(l: Limits) -> bool
    requires { times_fit l ≡ true }
    ensures { result ≡ wait_fits l }
{
    l.resendwait == 0 || within(least_wait(l), 1000, l.resendwait)
}

// Questions 1 to 3.
fn asked(l: Limits) -> Result<(), Refusal>
    ensures { number_of result ≡ first_no (limits_questions l) }
{
    if !window_fits(l.window) {
        return Err(Refusal::BadWindow);
    }
    if !times_fit(l) {
        return Err(Refusal::BadTimes);
    }
    if !wait_fits(l) {
        return Err(Refusal::BadWait);
    }
    Ok(())
}

// The limits that a link is opened with: 1 to 3.
pub fn accept(l: Limits) -> Result<Limits, Refusal>
    ensures { Answered (limits_questions l) result (accepted l) }
{
    asked(l)?;
    let resendwait = if l.resendwait == 0 {
        least_wait(l)
    } else {
        l.resendwait
    };
    Ok(Limits { resendwait, ..l })
}

// Question 4 of limits.
// Stays (no plainer): that limits are sound is a clause of the inner functions and no type: each public call takes limits as they come
// and asks, so that it would make the value and each law take it apart.
pub fn sound_limits(l: Limits) -> bool
    ensures { result ≡ sound_limits l }
{
    asked(l).is_ok() && l.resendwait != 0
}
