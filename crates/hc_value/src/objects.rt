use hc_net::Nets;
use sqlite_items::Items;

/// Lists of nets, one for each object.
pub type NetLists = Items<Nets>;

/// The nets that stand for the objects of a core in every clock: for each object, by its number, the bits of a register, an
/// array (element 0 first), an input or a signal, or the word that is read of a RAM or ROM; and the constants 0 and 1.
#[derive(Debug, Drop)]
pub struct ObjectNets {
    pub objects: NetLists,
    pub zero: u32,
    pub one: u32,
}
