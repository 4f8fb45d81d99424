// A slice with a gap, before which entries are put in: moved to where the next one belongs, it stays there for those that follow, so that
// entries in order cost a single store each. Nothing changes where the slice has fewer entries than are said to be before and behind the gap.
ghost use Rattle.gapped_slices.specs.Gaps.{GapMoved, PutIn};

use crate::spots::is_within;
use field_slices::store;

#[tactic(auto, using(crate::proofs::GapLaws::moved_ahead, crate::proofs::GapLaws::moved_back))]
pub(crate) fn move_gap<T: Copy>(slice: &mut [T], front: usize, behind: usize, to: usize)
    ensures { GapMoved front behind to slice.old slice.new }
{
    if !is_within(slice.len(), front, behind) {
        return;
    }
    let gap = slice.len() - behind - front;
    if to < front {
        slice.copy_within(to..front, to + gap);
    } else if to - front <= behind {
        slice.copy_within(front + gap..to + gap, front);
    }
}

// v put in as a new entry before the one at index `at`.
#[tactic(auto, using(crate::proofs::GapLaws::put_new))]
pub(crate) fn put<T: Copy>(slice: &mut [T], front: usize, behind: usize, at: usize, v: T)
    ensures { PutIn front behind at v slice.old slice.new }
{
    move_gap(slice, front, behind, at);
    store(slice, at, v);
}
