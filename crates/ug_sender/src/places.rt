//! A worker out of its place in the crew, and back.

ghost use Rattle.std.specs.Prelude.{◌≡◌, ◌+◌, ◌<◌, Some, remove, slice_get};
ghost use Rattle.std.specs.Vec.{vec_len, vec_capacity};
ghost use Rattle.ug_sender.specs.Posts.{AreHere, posts_of};

use crate::worker::Worker;
use ug_board::Machine;
use ug_edge::Wire;

/// Takes out the worker at a place. There is then room for it.
pub(crate) fn take_out<W: Wire, M: Machine>(
    workers: &mut Vec<Worker<W, M>>,
    place: usize,
) -> Worker<W, M>
    requires within { place < vec_len workers.old }
    ensures worker { slice_get workers.old.items place ≡ Some result }
    ensures here { (id : _) → AreHere id (posts_of workers.old.items) → result.post.turnstile ≡ id }
    ensures left { workers.new.items ≡ remove workers.old.items place }
    ensures len { vec_len workers.new + 1 ≡ vec_len workers.old }
    ensures room { vec_len workers.new < vec_capacity workers.new }
{
    workers.remove(place)
}

/// Puts a worker of the post that was taken out into its place, for which there is room. The posts are then as before.
pub(crate) fn put_in<W: Wire, M: Machine>(
    workers: &mut Vec<Worker<W, M>>,
    place: usize,
    worker: Worker<W, M>,
)
    requires within { place < vec_len workers.old + 1 }
    requires room { vec_len workers.old < vec_capacity workers.old }
    ensures posts { (all : _) (out : _) → workers.old.items ≡ remove all place → slice_get all place ≡ Some out → worker.post ≡ out.post → posts_of workers.new.items ≡ posts_of all }
    ensures len { vec_len workers.new ≡ vec_len workers.old + 1 }
{
    let Ok(()) = workers.insert(place, worker) else {
        unreachable!()
    };
}
