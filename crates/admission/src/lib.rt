// Admission: who may be in the table, and the judgement of a newcomer.
// What a test is given is what its definition is given (`load t l p`, `fits_at t l p`, `judged t i l p q hs`): so no struct joins them.
#![tactic(auto)]

ghost use Rattle.std.specs.Prelude.{◌≡◌, ◌*◌, ◌/◌, min};
ghost use Rattle.quantity.specs.Quantity.{ticks};
ghost use Rattle.admission.specs.Steps.{enough, counted_in, uses_up_to, hold_above, longest_hold, wait_for, slot_fits};
ghost use Rattle.admission.specs.Admission.{load, used, longest_wait, fits_at, passes, period_fits, budget_fits, holds_fit, figures_of, placed, judged};

use quantity::Length;
use refusals::Refusal;
use timing::Figures;

// 4: the period is in its range and divides the frame.
#[tactic(auto, unfolding(crate::specs::Admission::period_fits))]
fn period_fits(frame: Length, period: u64) -> bool
    ensures { result ≡ period_fits frame.0 period }
{
    (1..=u64::from(Length::LONGEST_PERIOD.0)).contains(&period) && u64::from(frame.0) % period == 0
}

// 5: the budget is 1 to the period.
#[tactic(auto, unfolding(crate::specs::Admission::budget_fits))]
fn budget_fits(period: u64, budget: u64) -> bool
    ensures { result ≡ budget_fits period budget }
{
    (1..=period).contains(&budget)
}

// 6: no hold is above the budget.
fn holds_fit(budget: u64, holds: [u64; 8]) -> bool
    ensures { result ≡ holds_fit budget holds }
{
    holds.iter().all(|&hold| hold <= budget)
}

// The figures as they are kept, once they are judged to be in range.
fn figures(period: u64, budget: u64, holds: [u64; 8]) -> Figures
    ensures { result ≡ figures_of period budget holds }
{
    Figures {
        period: Length::of(period),
        budget: Length::of(budget),
        holds: holds.map(Length::of),
    }
}

// What an amount in each period takes of the frame: amount * (L / P).
fn part(frame: Length, amount: Length, period: Length) -> u64
    ensures { result ≡ amount.0 * (frame.0 / period.0) }
{
    if period == Length::NONE {
        return 0;
    }
    u64::from(amount.0) * u64::from(frame.0 / period.0)
}

// What a server adds to the load of the periods up to p.
#[tactic(auto, unfolding(crate::specs::Steps::counted_in))]
fn counted(f: Figures, frame: Length, p: Length) -> u64
    ensures { result ≡ counted_in f frame.0 p.0 }
{
    if f.is_present() && f.period <= p {
        part(frame, f.budget, f.period)
    } else {
        0
    }
}

// The load of the periods up to p, as far as it matters: the sum stays at the largest number, which is above every frame.
#[tactic(auto, using(crate::proofs::Steps::load_steps), unfolding(terms::specs::Words::sum))]
fn load(table: [Figures; 16], frame: Length, p: Length) -> u64
    ensures { result ≡ min (load table frame.0 p.0) enough }
{
    let mut sum = 0u64;
    for f in table {
        sum = sum.saturating_add(counted(f, frame, p));
    }
    sum
}

// Whether this server uses r and has a period up to p.
#[tactic(auto, unfolding(crate::specs::Steps::uses_up_to))]
fn uses(f: Figures, p: Length, r: u8) -> bool
    ensures { result ≡ uses_up_to f p.0 r }
{
    f.is_present() && f.period <= p && f.hold(r) != Length::NONE
}

// Whether some server with a period up to p uses r.
fn used(table: [Figures; 16], p: Length, r: u8) -> bool
    ensures { result ≡ used table p.0 r }
{
    table.iter().any(|&f| uses(f, p, r))
}

// The hold of r by a server with a period above p.
#[tactic(auto, unfolding(crate::specs::Steps::hold_above))]
fn hold_above(f: Figures, p: Length, r: u8) -> Length
    ensures { result ≡ hold_above f p.0 r }
{
    if f.period > p {
        f.hold(r)
    } else {
        Length::NONE
    }
}

// The largest of them. A loop: `map` with `max` takes nearly twice as long for a full table.
#[tactic(auto, using(quantity::proofs::Largest::max_larger), unfolding(terms::specs::Words::largest, quantity::specs::Quantity::larger, crate::specs::Steps::longest_hold))]
fn longest_hold(table: [Figures; 16], p: Length, r: u8) -> Length
    ensures { result ≡ longest_hold table p.0 r }
{
    let mut most = Length::NONE;
    for f in &table {
        most = most.max(hold_above(*f, p, r));
    }
    most
}

// How long a server with period p may have to wait for r.
#[tactic(auto, unfolding(crate::specs::Steps::wait_for))]
fn wait_for(table: [Figures; 16], p: Length, r: u8) -> Length
    ensures { result ≡ wait_for table p.0 r }
{
    if used(table, p, r) {
        longest_hold(table, p, r)
    } else {
        Length::NONE
    }
}

// B(k), of a server k with period p. A loop, as above.
#[tactic(auto, using(quantity::proofs::Largest::max_larger, crate::proofs::Steps::wait_steps), unfolding(terms::specs::Words::largest, quantity::specs::Quantity::larger))]
pub fn longest_wait(table: [Figures; 16], p: Length) -> Length
    ensures { result ≡ ticks (longest_wait table p.0) }
{
    let mut most = Length::NONE;
    for r in 0..8 {
        most = most.max(wait_for(table, p, r));
    }
    most
}

// The test for a server of the table with period p.
fn fits_at(table: [Figures; 16], frame: Length, p: Length) -> bool
    ensures { result ≡ fits_at table frame.0 p.0 }
{
    let sum = load(table, frame, p);
    let more = part(frame, longest_wait(table, p), p);
    sum.saturating_add(more) <= u64::from(frame.0)
}

// The test for a slot, which need not be in the table.
#[tactic(auto, unfolding(crate::specs::Steps::slot_fits))]
fn slot_fits(table: [Figures; 16], frame: Length, f: Figures) -> bool
    ensures { result ≡ slot_fits table frame.0 f }
{
    !f.is_present() || fits_at(table, frame, f.period)
}

// The test for every server of the table.
pub fn passes(table: [Figures; 16], frame: Length) -> bool
    ensures { result ≡ passes table frame.0 }
{
    table.iter().all(|&f| slot_fits(table, frame, f))
}

// The table with f in a slot.
#[tactic(auto, unfolding(crate::specs::Admission::placed))]
pub fn place(mut table: [Figures; 16], slot: usize, f: Figures) -> [Figures; 16]
    ensures { result ≡ placed table slot f }
{
    if slot < table.len() {
        table[slot] = f;
    }
    table
}

// The judgement of a newcomer for a slot, in document 01's order: 4, 5, 6, 7. Its figures are as wide as they come,
// and where it is admitted they are answered as they are kept.
#[tactic(auto, using(terms::proofs::Tests::test_of, crate::specs::Admission::Text::judged_is))]
pub fn judge(
    table: [Figures; 16],
    slot: usize,
    frame: Length,
    period: u64,
    budget: u64,
    holds: [u64; 8],
) -> Result<Figures, Refusal>
    ensures { result ≡ judged table slot frame.0 period budget holds }
{
    if !period_fits(frame, period) {
        return Err(Refusal::PeriodOutOfRange);
    }
    if !budget_fits(period, budget) {
        return Err(Refusal::BudgetOutOfRange);
    }
    if !holds_fit(budget, holds) {
        return Err(Refusal::HoldAboveBudget);
    }
    let f = figures(period, budget, holds);
    if !passes(place(table, slot, f), frame) {
        return Err(Refusal::TestNotMet);
    }
    Ok(f)
}
