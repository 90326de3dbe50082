//! The requests from one CPU to another.

ghost use Rattle.std.specs.Prelude.{◌≡◌, ◌<◌, length, drop, [], IfOk};
ghost use Rattle.eevdf_steps.specs.PostLists as posts;

use eevdf_queue::TaskId;
use std::alloc::{AllocError, Global};
use std::marker::Model;

/// Requests in the order in which they were posted, of which the first have been taken.
#[derive(Drop)]
pub(crate) struct PostList {
    tasks: Vec<TaskId>,
    taken: usize,
    room: usize,
}

impl Model for PostList {
    ghost use Rattle.std.specs.Prelude.{◌≤◌, length, vec_capacity};
    ghost use Rattle.eevdf_steps.specs.PostLists as posts;

    ghost Value = { posts.PostList };

    ghost view = { λ l. record { posted = l.tasks.items; taken = l.taken; room = l.room } };

    ghost invariant = { λ l. (l.taken ≤ length l.tasks.items) × (l.room ≤ vec_capacity l.tasks) };
}

impl PostList {
    /// A list with room for so many requests.
    pub(crate) fn open(alloc: Global, room: usize) -> Result<PostList, AllocError>
        ensures { IfOk result (λ l. l ≡ record { posted = []; taken = 0; room = room }) }
    {
        let tasks = Vec::with_capacity(alloc, room)?;
        Ok(PostList {
            tasks,
            taken: 0,
            room,
        })
    }

    /// Posts a request. It takes no memory.
    pub(crate) fn post(&mut self, task: TaskId)
        requires { length self.old.posted < self.old.room }
        ensures { self.new ≡ posts.posted_more self.old task }
    {
        self.tasks.push_reserved(task);
    }

    /// Takes the oldest request that wasn't taken yet, where there is one.
    pub(crate) fn take(&mut self) -> Option<TaskId>
        ensures oldest { result ≡ posts.oldest_in self.old }
        ensures after { self.new ≡ posts.taken_more self.old }
    {
        if self.taken >= self.tasks.len() {
            return None;
        }
        let task = self.tasks[self.taken];
        self.taken += 1;
        Some(task)
    }

    /// The requests that weren't taken. It takes no memory.
    pub(crate) fn into_left(self) -> Vec<TaskId>
        ensures { result.items ≡ drop self.taken self.posted }
    {
        let PostList {
            mut tasks,
            taken,
            room: _,
        } = self;
        tasks.rotate_left(taken);
        tasks.truncate(tasks.len() - taken);
        tasks
    }
}
