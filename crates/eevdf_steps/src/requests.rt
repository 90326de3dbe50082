//! The requests from CPU to CPU, as they are posted and taken.

ghost use Rattle.std.specs.Prelude.{◌≡◌, ◌<◌, drop, length, map, slice_set, true, IfOk};
ghost use Rattle.eevdf_steps.specs.Openings.{AreEmpty};
ghost use Rattle.eevdf_steps.specs.{declared.micro.Micro.TheVariants.Post};
ghost use Rattle.eevdf_steps.specs.PostLists as lists;

use crate::openings::empty_posts;
use crate::plan::Plan;
use crate::post_list::PostList;
use eevdf_queue::TaskId;
use std::alloc::{AllocError, Global};
use std::marker::Model;

/// For each pair of a sender and a home the requests from one to the other, and room for what will be left of
/// them.
#[derive(Drop)]
pub(crate) struct Requests {
    posts: Vec<PostList>,
    left: Vec<Vec<TaskId>>,
}

impl Model for Requests {
    ghost use Rattle.std.specs.Prelude.{◌≡◌, ◌≤◌, List, [], length, vec_capacity, vec_len};
    ghost use Rattle.eevdf_steps.specs.PostLists as lists;

    ghost Value = { List lists.PostList };

    ghost view = { λ r. r.posts.items };

    ghost invariant = { λ r. (r.left.items ≡ []) × (vec_len r.posts ≤ vec_capacity r.left) };
}

impl Requests {
    /// Empty lists for the callers of a plan, with room for all that they post.
    pub(crate) fn open(alloc: Global, plan: &Plan) -> Result<Requests, AllocError>
        ensures { IfOk result (λ r. AreEmpty plan.now r) }
    {
        let posts = empty_posts(alloc, plan)?;
        let left = Vec::with_capacity(alloc, posts.len())?;
        Ok(Requests { posts, left })
    }

    /// Takes the oldest request of a list that wasn't taken yet, where there is one.
    pub(crate) fn take(&mut self, place: usize) -> Option<TaskId>
        requires { place < length self.old }
        ensures oldest { result ≡ lists.oldest_in (lists.list_at self.old place) }
        ensures after { self.new
            ≡ slice_set self.old place (lists.taken_more (lists.list_at self.old place)) }
    {
        self.posts[place].take()
    }

    /// Adds a request to a list. It takes no memory.
    pub(crate) fn post(&mut self, place: usize, task: TaskId)
        requires place { place < length self.old }
        requires room { lists.has_room (lists.list_at self.old place) (Post task) ≡ true }
        ensures { self.new
            ≡ slice_set self.old place (lists.posted_more (lists.list_at self.old place) task) }
    {
        self.posts[place].post(task);
    }

    /// What is left of each list. It takes no memory.
    #[tactic(auto, using(std::proofs::lemmas::Grind::common_steps))]
    pub(crate) fn into_left(self) -> Vec<Vec<TaskId>>
        ensures { map (λ (l : _). l.items) result.items
            ≡ map (λ (l : _). drop l.taken l.posted) self }
    {
        let Requests { posts, mut left } = self;
        for list in posts {
            left.push_reserved(list.into_left());
        }
        left
    }
}
