ghost use Rattle.std.specs.Prelude.{◌≡◌, ◌<◌, ◌≤◌, true, false, [], length, take, OnErr, IfOk, IsErrOf};
ghost use Rattle.hc_outside.specs.Count.{HasRisen};
ghost use Rattle.hc_outside.specs.Sink.{Wrote};
ghost use Rattle.hc_outside.specs.OpenFile.{lent, state_of};

use crate::errors::StoreErr;
use crate::sink::Sink;
use crate::store::Store;
use std::alloc::Global;

/// The sink that appends to the open file of a store.
#[derive(Drop)]
pub struct OpenFile<'a, S: Store> {
    store: &'a mut S,
}

impl<'a, S: Store> OpenFile<'a, S> {
    /// The sink over the open file of this store.
    pub fn over(store: &'a mut S) -> OpenFile<'a, S>
        requires { (S.state store.old).is_open ≡ true }
        ensures same_store { (lent result).ghost_name ≡ store.entry.ghost_name }
        ensures same_state { (lent result).now ≡ store.old }
    {
        OpenFile { store }
    }
}

impl<'a, S: Store> Sink for OpenFile<'a, S> {
    ghost state = { state_of S.state };

    fn write(&mut self, alloc: Global, piece: &[u8]) -> Result<usize, StoreErr> {
        self.store.append(alloc, piece)
    }

    ghost sound = { λ f. (S.sound f.store.now).writes };
}
