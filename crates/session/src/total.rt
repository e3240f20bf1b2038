// The sum of demand 3.
ghost use Rattle.std.specs.Prelude.{◌≡◌, ◌≤◌, ◌+◌, ◌*◌, ◌^◌};
ghost use Rattle.rules.specs.Tasks.{known};
ghost use Rattle.rules.specs.Sum.{share, summed};

use rules::{Refusal, Session, Terms};

// Whether m and n are allowed and the task is below n. `manager` asks it of words, which are other numbers in other places.
fn known(s: &Session, task: u8) -> bool
    ensures { result ≡ known s.now task }
{
    (1..=16).contains(&s.m) && (1..=64).contains(&s.n) && task < s.n
}

// One task's share: transactions × (⌊length / period⌋ + 2), with ⌊length / 0⌋ as 0.
#[tactic(auto, using(crate::proofs::Laws::Total::share_most))]
fn share_of(length: u32, t: Terms) -> u64
    ensures is { result ≡ share length t }
    ensures small { result ≤ 255 * (2 ^ 32 + 1) }
{
    let periods = length.checked_div(t.period).unwrap_or(0);
    u64::from(t.transactions) * (u64::from(periods) + 2)
}

// The sum over every other task, for a wait of this length. A bad task is refused with number 1.
#[tactic(auto, using(crate::proofs::Laws::Total::total_none, crate::proofs::Laws::Total::total_more), unfolding(rules::specs::Sum::summed, rules::specs::Sum::bound))]
pub fn sum(s: Session, task: u8, length: u32) -> Result<u64, Refusal>
    ensures { result ≡ summed s task length }
{
    if !known(&s, task) {
        return Err(Refusal::UnknownTask);
    }
    let own = usize::from(task);
    let mut total = 0;
    for (j, t) in s.tasks[..usize::from(s.n)].iter().enumerate() {
        if j != own {
            total += share_of(length, t.terms);
        }
    }
    Ok(total)
}
