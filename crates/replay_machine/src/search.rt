ghost use Rattle.std.specs.Prelude.{◌≡◌, IsTrue};
ghost use Rattle.cut_file.specs.Cuts.{are_points};
ghost use Rattle.replay_machine.specs.Tables.{index_of};

use cut_file::CutPoint;
use flow_base::Point;

/// The index of a point among the points of a cut, by halves; None where none of them is the point.
pub(crate) fn find(points: &[CutPoint], point: Point) -> Option<usize>
    requires { IsTrue (are_points points.now) }
    ensures { result ≡ index_of points.now point }
{
    let mut part = points;
    let mut from = 0;
    while let [_, ..] = part {
        let (left, others) = part.split_at(part.len() / 2);
        let [cut_point, right @ ..] = others else {
            break;
        };
        if cut_point.point.is_same(point) {
            return Some(from + left.len());
        }
        if point.is_below(cut_point.point) {
            part = left;
        } else {
            from += left.len() + 1;
            part = right;
        }
    }
    None
}
