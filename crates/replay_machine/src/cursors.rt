ghost use Rattle.std.specs.Prelude.{◌≡◌, ℕ, suc, ◌≤◌, IsTrue};
ghost use Rattle.cut_file.specs.Cuts.{is_cut_point};
ghost use Rattle.cut_file.specs.Masks.{mask_of};
ghost use Rattle.flow_base.specs.Points.{width_of};
ghost use Rattle.replay_machine.specs.Tables.{ahead_of, runs_at};

use cut_file::{CutPoint, Run};

/// Where the masks of a point have come to.
#[derive(Clone, Copy)]
pub(crate) struct Cursor {
    /// Whether the listed runs are past, and those of the pattern are passed over and over.
    pub repeats: bool,
    /// The index of the next run.
    pub run: usize,
    /// For how many more visits the mask of the run that has begun stands.
    pub left: u32,
    /// That mask.
    pub mask: u32,
}

impl Cursor {
    // The runs among which the cursor stands.
    fn runs(self, point: &CutPoint) -> &[Run]
        ensures { result.now ≡ runs_at point.now self }
    {
        if self.repeats {
            point.rest.as_slice()
        } else {
            point.runs.as_slice()
        }
    }

    // The cursor at the begin of the next run; at the end of the list, and of the pattern, the pattern begins.
    fn begun(self, point: &CutPoint) -> Cursor
        requires point { IsTrue (is_cut_point point.now) }
        requires ended { self.left ≡ 0 }
        ensures some { 1 ≤ result.left }
        ensures same { (visit : ℕ) → mask_of (ahead_of point.now result) visit
            ≡ mask_of (ahead_of point.now self) visit }
    {
        match self.runs(point).get(self.run) {
            Some(run) => Cursor {
                repeats: self.repeats,
                run: self.run + 1,
                left: run.count,
                mask: run.mask,
            },
            None => {
                let first = point.rest.as_slice()[0];
                Cursor {
                    repeats: true,
                    run: 1,
                    left: first.count,
                    mask: first.mask,
                }
            }
        }
    }

    /// The cursor in a run of which some is left.
    pub fn ready(self, point: &CutPoint) -> Cursor
        requires point { IsTrue (is_cut_point point.now) }
        ensures some { 1 ≤ result.left }
        ensures same { (visit : ℕ) → mask_of (ahead_of point.now result) visit
            ≡ mask_of (ahead_of point.now self) visit }
    {
        if self.left == 0 {
            self.begun(point)
        } else {
            self
        }
    }

    /// The mask at the point's next visit, which is then past. It takes the same time at each visit.
    pub fn pass(&mut self, point: &CutPoint) -> u32
        requires { IsTrue (is_cut_point point.now) }
        ensures mask { result ≡ mask_of (ahead_of point.now self.old) 1 }
        ensures width { result ≤ width_of point.now.point.slot }
        ensures later { (visit : ℕ) → 1 ≤ visit →
            mask_of (ahead_of point.now self.new) visit ≡ mask_of (ahead_of point.now self.old) (suc visit) }
    {
        let ready = self.ready(point);
        *self = Cursor {
            left: ready.left - 1,
            ..ready
        };
        ready.mask & point.point.slot.width()
    }
}
