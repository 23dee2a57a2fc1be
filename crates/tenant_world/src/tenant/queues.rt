//! What a tenant is asked of its queues.
ghost use Rattle.std.specs.Prelude.{◌≡◌};
ghost use Rattle.far_asks.specs.declared.request.Request.TheVariants.{Push, Pop, Front, Count};

use super::Tenant;
use crate::queues::{count_in, front_content, pop_content, push_content};
use far_asks::Reply;
use far_words::Path;
use queue_block::HEAD;
use shelf_link::Shelf;

impl<K: Shelf> Tenant<K> {
    ghost use Rattle.tenant_world.specs.Serves.{IsStill, Serves};

    /// An item is put at the end of a queue.
    pub(super) fn push(&mut self, path: &Path, item: &[u8]) -> Reply
        requires { IsStill self.old.moves }
        ensures { Serves K.told K.faults self.old (Push path.now item.now) result self.new }
    {
        let most = self.home.size() as usize - HEAD;
        if item.len() > most {
            return Reply::TooLong { limit: most as u64 };
        }
        let Some(named) = self.names.get_mut(path) else {
            return Reply::Absent;
        };
        push_content(
            self.alloc,
            &mut named.content,
            &mut self.home,
            &mut self.moves,
            path,
            item,
        )
    }

    /// The first item of a queue is taken out.
    pub(super) fn pop(&mut self, path: &Path) -> Reply
        requires { IsStill self.old.moves }
        ensures { Serves K.told K.faults self.old (Pop path.now) result self.new }
    {
        let Some(named) = self.names.get_mut(path) else {
            return Reply::Absent;
        };
        pop_content(&mut named.content, &mut self.home, &mut self.moves)
    }

    /// The first item of a queue, which stays.
    pub(super) fn front(&mut self, path: &Path) -> Reply
        requires { IsStill self.old.moves }
        ensures { Serves K.told K.faults self.old (Front path.now) result self.new }
    {
        let Some(named) = self.names.get_mut(path) else {
            return Reply::Absent;
        };
        front_content(&mut named.content, &mut self.home)
    }

    /// How many items a queue has.
    pub(super) fn count(&self, path: &Path) -> Reply
        requires { IsStill self.now.moves }
        ensures { Serves K.told K.faults self.now (Count path.now) result self.now }
    {
        let Some(named) = self.names.get(path) else {
            return Reply::Absent;
        };
        count_in(&named.content)
    }
}
