//! How what a CPU had posted and what was seen of the history, at different moments, is told to fit together.

ghost use Rattle.std.specs.Prelude.{◌≡◌};
ghost use Rattle.eevdf_fleet.specs.Endless.{AgreeOnPosts};

use crate::names::Names;
use crate::posted::Posted;
use crate::run_queues::RunQueues;
use crate::seen::Seen;
use std::marker::PhantomData;

impl<N: Names> RunQueues<N> {
    /// A copy of what was posted.
    pub(crate) fn copy_posted(&self, posted: &mut Posted<N>) -> Posted<N>
        ensures posted { posted.new ≡ posted.old }
        ensures copy { result ≡ posted.old }
    {
        let token = self.board.sent(&mut posted.token);
        Posted {
            token,
            names: PhantomData,
        }
    }

    /// Learns that what was posted at one moment and seen at another is of one history.
    pub(crate) fn agree_on_posts(&self, seen: &mut Seen<N>, posted: &mut Posted<N>)
        ensures seen { seen.new ≡ seen.old }
        ensures posted { posted.new ≡ posted.old }
        ensures agree { AgreeOnPosts seen.old posted.old }
    {
        let Seen { token, names: _ } = self.copy(seen);
        let Posted {
            token: sent,
            names: _,
        } = self.copy_posted(posted);
        let _compared = self.board.compare(self.board.join(token, sent));
    }
}
