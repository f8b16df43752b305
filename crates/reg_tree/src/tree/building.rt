//! Building images: a root and keys as they are told, with marks and a class; a key's values all at once or some behind others; and room
//! for cells and for subkeys to come. Each is one step of the map, or a fault that changes nothing.
ghost use Rattle.std.specs.Prelude.{◌≡◌, ◌≤◌, ◌<◌, ◌+◌, ◌%◌, ℕ, [], ◌∷◌, length, Err, Some, OnOk, OnErr, IfOk, IfErr, IfSome};
ghost use Rattle.std.specs.FinMap.{insert, empty, get};
ghost use Rattle.reg_heap.specs.declared.limits.TheConstants.{BINS_LIMIT, GROWTH_BOUND, VALUES_LIMIT};
ghost use Rattle.reg_heap.specs.Paths.{Path};
ghost use Rattle.reg_heap.specs.Trees.{IsSmallKey};
ghost use Rattle.reg_heap.specs.Edits.{edited, descriptor_of, values_at, child_path};
ghost use Rattle.reg_arena.specs.Arena.{heap_of};
ghost use Rattle.reg_arena.specs.declared.TheConstants.{CARVE_LIMIT};
ghost use Rattle.reg_arena.specs.NewCells.{total_of};

use crate::{
    NewKey, NewValue, Node, Reached, Tree, TreeFault, build, build_values, lengthening, room,
    security,
};
use reg_arena::ArenaFault;
use std::alloc::Global;

impl Tree {
    ghost use Rattle.reg_tree.specs.TreeKeys.{made_root, IsAt, IsThere, KeepsNodes};
    ghost use Rattle.reg_tree.specs.CellSizes.{LacksRoom};
    ghost use Rattle.reg_tree.specs.KeyLengths.{ChangesLengths, NotesMade, lengths_at, no_lengths, with_lengths_of, with_key_lengths};
    ghost use Rattle.reg_tree.specs.Reaching.{IsWalkedTo};
    ghost use Rattle.reg_tree.specs.BuiltKeys.{MayBuild, built_key, with_values, class_sizes, TakesCells, BuildsRoot, BuildsKey, LacksKeyRoom};
    ghost use Rattle.reg_tree.specs.MoreRoom.{MakesRoom};
    ghost use Rattle.reg_tree.specs.MoreValues.{with_more_values, HasListRoom, MayExtend};
    ghost use Rattle.reg_tree.specs.LongerLists.{LengthensList, longer_sizes};
    ghost use Rattle.reg_values.specs.NewValues.{all_told, all_value_sizes, each_value_sizes, MayFollow};

    /// A tree of one root, as it is told: with its name, marks, class, descriptor and time, and no values; its four largest lengths are
    /// 0. Its one fault is `Memory`.
    ///
    /// Its bins are those of a new hive, and the class's cell, if it takes one; a bin more only where no free cell has room for it.
    pub fn build(alloc: Global, key: NewKey<'_>) -> Result<Tree, TreeFault>
        requires { IsSmallKey (built_key key) }
        ensures ok { IfOk result (λ t. t.tree ≡ insert empty [] (built_key key.entry)) }
        ensures builds { IfOk result (λ t. BuildsRoot t (built_key key.entry)) }
        ensures lengths { IfOk result (λ t. lengths_at (heap_of t.bins) t.root ≡ Some no_lengths) }
        ensures err { IfErr result (λ fault. fault ≡ TreeFault.Memory) }
    {
        let mut tree = match Tree::new(alloc, key.name, key.descriptor, key.time) {
            Ok(tree) => tree,
            Err(fault) => return Err(fault),
        };
        match tree.dress_root(alloc, key) {
            Ok(()) => Ok(tree),
            Err(ArenaFault::Full) => unreachable!(),
            Err(ArenaFault::Memory) => Err(TreeFault::Memory),
        }
    }

    /// Gives a new root its marks and its class.
    fn dress_root(&mut self, alloc: Global, key: NewKey<'_>) -> Result<(), ArenaFault>
        requires root { self.old.tree ≡ insert empty [] (made_root key.name.now key.descriptor.now key.time) }
        requires key { IsSmallKey (built_key key) }
        ensures ok { OnOk result (self.new.tree ≡ insert empty [] (built_key key.entry)) }
        ensures takes { OnOk result (TakesCells self.old self.new (class_sizes key.entry.class.now)) }
        ensures root { self.new.root ≡ self.old.root }
        ensures lengths { OnOk result (lengths_at (heap_of self.new.bins) self.new.root ≡ lengths_at (heap_of self.old.bins) self.old.root) }
        ensures full { (result ≡ Err ArenaFault.Full) → BINS_LIMIT < length self.old.bins.bytes + GROWTH_BOUND }
    {
        self.names.forget();
        build::dress(
            alloc,
            &mut self.arena,
            self.root,
            key.name,
            key.marks,
            key.class,
        )
    }

    /// Builds a key right below another that has none of its name, as it is told: with its name, marks, class, descriptor and time,
    /// and no values. `reach` found what is there of its name from the other one on, in the tree as it is, so that its place isn't looked
    /// for again. No other key's time changes. After a fault the tree is as before.
    ///
    /// The parent's largest lengths of a subkey's name and class are raised to the new key's, where these are greater; the four of the
    /// new key are 0, and each other key has those that it had.
    ///
    /// A key that is there and has the same descriptor may be told: then the new one shares that one's security, and its descriptor is
    /// neither hashed nor compared. Without one it is looked for.
    ///
    /// The cells that come are those of a key that is made at its place with its descriptor, and its class's, if it takes one. `Full`
    /// only where no free cell has room for all of them together and one bin more for them would pass the limit of 268,435,456 bytes;
    /// `Memory`. The bins grow only where no free cell has room for them, and by at most 1,310,720 bytes.
    pub fn build_key(
        &mut self,
        alloc: Global,
        parent: Node,
        reached: Reached<'_>,
        key: NewKey<'_>,
        like: Option<Node>,
    ) -> Result<Node, ArenaFault>
        requires parent { IsThere self.old parent }
        requires room { (p : Path) → IsAt self.old p parent → MayBuild self.old.tree p key.name.now }
        requires reached { IsWalkedTo self.old parent key.name.now reached }
        requires key { IsSmallKey (built_key key) }
        requires like { IfSome like (λ node. (q : Path) × IsAt self.old q node
            × (descriptor_of (get self.old.tree q) ≡ key.descriptor.now)) }
        ensures ok { (p : Path) → IsAt self.old p parent →
            IfOk result (λ node. (self.new.tree ≡ insert self.old.tree (child_path p key.entry.name.now) (built_key key.entry))
            × IsAt self.new (child_path p key.entry.name.now) node) }
        ensures builds { (p : Path) → IsAt self.old p parent → OnOk result (BuildsKey self.old self.new p (built_key key.entry)) }
        ensures lengths { (p : Path) → IsAt self.old p parent →
            OnOk result (ChangesLengths self.old self.new p (with_key_lengths (length key.entry.name.now) (length key.entry.class.now))) }
        ensures made { (p : Path) → IsAt self.old p parent → OnOk result (NotesMade self.new p (key.entry.name.now ∷ [])) }
        ensures space { (p : Path) → IsAt self.old p parent → (result ≡ Err ArenaFault.Full) → LacksKeyRoom self.old p (built_key key.entry) }
        ensures nodes { OnOk result (KeepsNodes self.old self.new) }
        ensures full { (result ≡ Err ArenaFault.Full) → BINS_LIMIT < length self.old.bins.bytes + GROWTH_BOUND }
        ensures err { OnErr result (self.new ≡ self.old) }
        ensures grows { length self.new.bins.bytes ≤ length self.old.bins.bytes + GROWTH_BOUND }
        ensures kept { length self.old.bins.bytes ≤ length self.new.bins.bytes }
    {
        self.names.forget();
        let known = security::security_like(&self.arena, like);
        build::build_below(
            alloc,
            &mut self.arena,
            &mut self.securities,
            parent,
            reached,
            key,
            known,
        )
    }

    /// Sees to it that some free cell has a size, which is a multiple of 8, not 0 and at most 16,777,216: only where none has, a bin of
    /// the least size for it is appended. So cells to come that fit into it take no bins of their own. The keys stay as they are, and
    /// so does each cell that isn't free. After a fault the tree is as before.
    ///
    /// `Full` only where no free cell has the size and one bin more for it would pass the limit of 268,435,456 bytes; `Memory`.
    pub fn reserve(&mut self, alloc: Global, size: u32) -> Result<(), ArenaFault>
        requires eights { size % 8 ≡ 0 }
        requires some { 0 < size }
        requires small { size ≤ CARVE_LIMIT }
        ensures room { OnOk result (MakesRoom self.old self.new size) }
        ensures space { result ≡ Err ArenaFault.Full → LacksRoom self.old.bins (size ∷ []) }
        ensures err { OnErr result (self.new ≡ self.old) }
    {
        self.names.forget();
        room::reserve(alloc, &mut self.arena, size)
    }

    /// Sees to it that the last list of a key's subkeys has room for so many more, or for 500 in all: where its cell hasn't, the list is
    /// moved into one that has, and its own is freed. So subkeys that come behind all others move no list, up to that number. A key without
    /// subkeys has no list, and nothing happens. The keys stay as they are, each at its offset. After a fault the tree is as before.
    ///
    /// The one cell that comes is the list's, and each other cell keeps its size. `Full` only where no free cell has room for it and one
    /// bin more would pass the limit of 268,435,456 bytes; `Memory`. The bins grow only where no free cell has room, and by no more than
    /// one bin.
    pub fn lengthen_list(&mut self, alloc: Global, node: Node, more: u32) -> Result<(), ArenaFault>
        requires node { IsThere self.old node }
        ensures lengthens { OnOk result (LengthensList self.old self.new node more) }
        ensures space { result ≡ Err ArenaFault.Full → LacksRoom self.old.bins (longer_sizes (heap_of self.old.bins) node.offset more) }
        ensures err { OnErr result (self.new ≡ self.old) }
    {
        self.names.forget();
        lengthening::lengthen(alloc, &mut self.arena, node.offset, more)
    }

    /// Puts values as all that a key has that has none, in their order, and gives the key a time; no other key's changes. Each is
    /// within the limits, no two names are the same after folding, and their cells have at most 16,777,216 bytes together, as
    /// `reg_values::front_of_one_carve` tells. After a fault the tree is as before.
    ///
    /// The cells that come are the list's, with room for `room` values, from their number to 16,384, and those of each value's record
    /// and data: none where there are no values; each other cell keeps its size, and the root its place. `Full` only where no free cell
    /// has room for all of them together and one bin more for them would pass the limit of 268,435,456 bytes; `Memory`. The bins grow
    /// only where no free cell has room for them, and by no more than one bin for them.
    pub fn build_values(
        &mut self,
        alloc: Global,
        node: Node,
        values: &[NewValue<'_>],
        room: usize,
        moment: u64,
    ) -> Result<(), ArenaFault>
        requires node { IsThere self.old node }
        requires bare { (p : Path) → IsAt self.old p node → values_at self.old.tree p ≡ [] }
        requires room { length values.now ≤ room }
        requires few { room ≤ VALUES_LIMIT }
        requires new { MayFollow [] (all_told values.now) }
        requires fits { total_of (all_value_sizes room (all_told values.now)) ≤ CARVE_LIMIT }
        ensures ok { (p : Path) → IsAt self.old p node →
            OnOk result (self.new.tree ≡ edited self.old.tree p (with_values (all_told values.now) moment)) }
        ensures room { OnOk result (0 < length values.now → HasListRoom (heap_of self.new.bins) node.offset room) }
        ensures takes { OnOk result (TakesCells self.old self.new (all_value_sizes room (all_told values.now))) }
        ensures root { OnOk result (self.new.root ≡ self.old.root) }
        ensures nodes { OnOk result (KeepsNodes self.old self.new) }
        ensures lengths { (p : Path) → IsAt self.old p node →
            OnOk result (ChangesLengths self.old self.new p (with_lengths_of (all_told values.now))) }
        ensures space { result ≡ Err ArenaFault.Full → LacksRoom self.old.bins (all_value_sizes room (all_told values.now)) }
        ensures err { OnErr result (self.new ≡ self.old) }
        ensures grows { OnOk result (length self.new.bins.bytes ≤
            length self.old.bins.bytes + 4127 + total_of (all_value_sizes room (all_told values.now))) }
        ensures kept { OnOk result (length self.old.bins.bytes ≤ length self.new.bins.bytes) }
    {
        self.names.forget();
        build_values::build(alloc, &mut self.arena, node.offset, values, room, moment)
    }

    /// Puts values behind those that a key has, at least one, in their order, and gives the key a time; no other key's changes. The
    /// key's list has room for all of them, as one that [`build_values`](Tree::build_values) made has for so many as it was told. Each
    /// is within the limits, no two names are the same after folding, and their cells have at most 16,777,216 bytes together, as
    /// `reg_values::front_of_one_more_carve` tells. After a fault the tree is as before.
    ///
    /// The cells that come are those of each value's record and data; each other cell keeps its size, the list with its room and the
    /// root their places. `Full` only where no free cell has room for all of them together and one bin more for them would pass the
    /// limit of 268,435,456 bytes; `Memory`. The bins grow only where no free cell has room for them, and by no more than one bin.
    pub fn extend_values(
        &mut self,
        alloc: Global,
        node: Node,
        values: &[NewValue<'_>],
        moment: u64,
    ) -> Result<(), ArenaFault>
        requires node { IsThere self.old node }
        requires more { (p : Path) → IsAt self.old p node →
            MayExtend (heap_of self.old.bins) node.offset (values_at self.old.tree p) (all_told values.now) }
        requires fits { total_of (each_value_sizes (all_told values.now)) ≤ CARVE_LIMIT }
        ensures ok { (p : Path) → IsAt self.old p node →
            OnOk result (self.new.tree ≡ edited self.old.tree p (with_more_values (all_told values.now) moment)) }
        ensures room { (room : ℕ) → HasListRoom (heap_of self.old.bins) node.offset room →
            OnOk result (HasListRoom (heap_of self.new.bins) node.offset room) }
        ensures takes { OnOk result (TakesCells self.old self.new (each_value_sizes (all_told values.now))) }
        ensures root { OnOk result (self.new.root ≡ self.old.root) }
        ensures nodes { OnOk result (KeepsNodes self.old self.new) }
        ensures lengths { (p : Path) → IsAt self.old p node →
            OnOk result (ChangesLengths self.old self.new p (with_lengths_of (all_told values.now))) }
        ensures space { result ≡ Err ArenaFault.Full → LacksRoom self.old.bins (each_value_sizes (all_told values.now)) }
        ensures err { OnErr result (self.new ≡ self.old) }
        ensures grows { OnOk result (length self.new.bins.bytes ≤
            length self.old.bins.bytes + 4127 + total_of (each_value_sizes (all_told values.now))) }
        ensures kept { OnOk result (length self.old.bins.bytes ≤ length self.new.bins.bytes) }
    {
        self.names.forget();
        build_values::extend(alloc, &mut self.arena, node.offset, values, moment)
    }
}
