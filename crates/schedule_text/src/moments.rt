//! The moments of steps, in runs: many steps in a row have one moment, which is kept once with their count.

ghost use Rattle.std.specs.Prelude.{◌≡◌, ◌+◌, ◌<◌, ◌^◌, ◌++◌, ◌∷◌, [], length};
ghost use Rattle.std.specs.Iterator.{YieldsFirst, item_count};
ghost use Rattle.std.specs.Vec.{vec_capacity, vec_len};
ghost use Rattle.schedule_text.specs.MomentRuns.{HaveSteps, moments_in};

use mctp_packet::Moment;
use std::marker::Model;

/// Steps in a row that have one moment.
#[derive(Clone, Copy, Debug)]
pub(crate) struct MomentRun {
    moment: Moment,
    /// How many steps they are.
    count: u64,
}

impl MomentRun {
    /// The moment of them all.
    pub(crate) fn moment(&self) -> Moment
        ensures { result ≡ self.now.moment }
    {
        self.moment
    }
}

/// Adds the moment of the next step. There has to be room for one run more.
pub(crate) fn push_moment(runs: &mut Vec<MomentRun>, moment: Moment)
    requires room { vec_len runs.old < vec_capacity runs.old }
    requires steps { HaveSteps runs.old.items }
    requires few { length (moments_in runs.old.items) + 1 < 2 ^ 64 }
    ensures moments { moments_in runs.new.items ≡ moments_in runs.old.items ++ moment ∷ [] }
    ensures steps { HaveSteps runs.new.items }
{
    match runs.last_mut() {
        Some(run) if run.moment == moment => run.count += 1,
        _ => runs.push_reserved(MomentRun { moment, count: 1 }),
    }
}

/// Goes over the moments of steps, in their order.
#[derive(Debug, Drop)]
pub struct MomentsIter<'a> {
    /// The runs that come after this one.
    runs: &'a [MomentRun],
    /// The moment of the run that was begun.
    moment: Moment,
    /// How many steps of that run are left.
    left: u64,
}

impl<'a> Model for MomentsIter<'a> {
    ghost use Rattle.std.specs.Prelude.{List, ℕ, ◌++◌, replicate};
    ghost use Rattle.schedule_text.specs.MomentRuns.{HaveSteps, moments_in};

    ghost Value = { List ℕ };

    ghost view = { λ i. replicate i.left i.moment ++ moments_in i.runs.now };

    ghost invariant = { λ i. HaveSteps i.runs.now };
}

impl<'a> MomentsIter<'a> {
    /// Goes over the moments of these runs.
    pub(crate) fn new(runs: &'a [MomentRun]) -> MomentsIter<'a>
        requires { HaveSteps runs.now }
        ensures { result ≡ moments_in runs.now }
    {
        MomentsIter {
            runs,
            moment: Moment::new(0).unwrap(),
            left: 0,
        }
    }
}

impl<'a> Iterator for MomentsIter<'a> {
    type Item = Moment;

    ghost next_gives = { YieldsFirst (λ moments. moments) };

    ghost remaining = { item_count (λ moments. moments) };

    fn next(&mut self) -> Option<Moment> {
        if self.left == 0 {
            let (run, runs) = self.runs.split_first()?;
            self.runs = runs;
            self.moment = run.moment;
            self.left = run.count;
        }
        self.left -= 1;
        Some(self.moment)
    }
}
