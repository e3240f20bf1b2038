// One item, and the figures of its task.
ghost use Rattle.std.specs.Prelude.{◌≡◌};
ghost use Rattle.report.specs.Items.{commit, wait};
ghost use Rattle.tally.specs.Parts.{added, counted};

use report::Figures;

// A total with so much more, if it fits.
fn add(total: u32, more: u64) -> Option<u32>
    ensures { result ≡ added total more }
{
    total.checked_add(u32::try_from(more).ok()?)
}

// The figures with a commit more, and whether that transaction had waited; none where a total would pass.
pub(crate) fn with_commit(f: Figures, waited: bool) -> Option<Figures>
    ensures { result ≡ counted f (commit 0 waited) }
{
    Some(Figures {
        committed: f.committed.checked_add(1)?,
        waited: f.waited.checked_add(u32::from(waited))?,
        ..f
    })
}

// The figures with a wait more of so many ticks, with its clashes and its retries; none where a total would pass.
pub(crate) fn with_wait(f: Figures, ticks: u32, clashes: u64, retries: u64) -> Option<Figures>
    ensures { result ≡ counted f (wait 0 ticks clashes retries) }
{
    Some(Figures {
        clashes: add(f.clashes, clashes)?,
        retries: add(f.retries, retries)?,
        longest: f.longest.max(ticks),
        ticks: f.ticks.checked_add(ticks)?,
        waits: f.waits.checked_add(1)?,
        ..f
    })
}
