ghost use Rattle.std.specs.Prelude.{true, false, ◌≡◌, ◌↔◌, ◌⊎◌, ◌≢◌, ◌≤◌, ◌<◌, ◌+◌, ◌%◌, ◌++◌, ℕ, List, [], length, drop, Err, Some, None, OnOk, OnErr, IfOk, IfErr};
ghost use Rattle.std.specs.Prelude.{IsSome, IfSome, MatchOption, max, slice_get, get_or, option_map};
ghost use Rattle.std.specs.List.{fold};
ghost use Rattle.std.specs.FinMap.{insert, empty, get};
ghost use Rattle.reg_names.specs.declared.TheConstants.{KEY_NAME_LIMIT, PATH_LIMIT, VALUE_NAME_LIMIT};
ghost use Rattle.reg_names.specs.Names.{is_key_name, is_value_name, is_path, path_of};
ghost use Rattle.reg_heap.specs.declared.limits.TheConstants.{BINS_LIMIT, DATA_LIMIT, DESCRIPTOR_LIMIT, GROWTH_BOUND, VALUES_LIMIT};
ghost use Rattle.reg_heap.specs.Paths.{Path, Rec, Member, children_of};
ghost use Rattle.reg_heap.specs.Members.{value_named, index_named};
ghost use Rattle.reg_heap.specs.Trees.{IsTree, IsWithinLimits};
ghost use Rattle.reg_heap.specs.Edits.{edited, with_descriptor, with_value, without_value, values_at, folded_path, are_too_many, without_key, IsKept};
ghost use Rattle.reg_heap.specs.Edits.{may_not_go, missing, last_there, is_within, is_under, without_tree, emptied, any_kept_within, any_kept_under};
ghost use Rattle.reg_arena.specs.Arena.{IsSound, heap_of};
ghost use Rattle.reg_arena.specs.EachCell.{GrowsFor};
ghost use Rattle.reg_arena.specs.NewBin.{IsBinSize};
ghost use Rattle.reg_arena.specs.NewCells.{cell_size as cell_size_of};
ghost use Rattle.reg_values.specs.ValueLists.{Makes, Tells};

mod building;

use crate::cells::carve_two;
use crate::key::new_root;
use crate::names_seen::NamesSeen;
use crate::{
    Created, Node, Reached, Subkey, TreeFault, ValueFound, find, make, prune, read, security,
    unmake, values,
};
use reg_arena::{Arena, ArenaFault, cell_size};
use reg_records::put_nk;
use reg_security::SecurityTable;
use reg_values::{LargestValues, Value};
use std::alloc::{AllocError, Global};
use std::marker::Model;

/// The keys of a hive. Contracts see its bins and the finite map from paths to keys.
pub struct Tree {
    arena: Arena,
    root: u32,
    securities: SecurityTable,
    names: NamesSeen,
}

// By hand, so that a caller that drops a tree has one call for that, and none for each of its parts.
impl Drop for Tree {
    fn drop(self) {
        let Tree {
            arena: _,
            root: _,
            securities: _,
            names: _,
        } = self;
    }
}

impl Model for Tree {
    ghost use Rattle.reg_tree.specs.TreeKeys.{Keys, coded_keys, tree_in};
    ghost use Rattle.reg_tree.specs.Internal.TreeInvariant.{TreeInvariant};
    ghost use Rattle.reg_tree.specs.Internal.NamesSeen.{AreNoted};

    ghost Value = { Keys };

    ghost coded = { coded_keys };

    ghost view = { λ t. record { bins = t.arena; root = t.root; tree = tree_in t.arena.bytes t.root } };

    ghost invariant = { λ t. TreeInvariant t.arena.bytes t.root t.securities × AreNoted t.names t.arena.bytes t.root };
}

impl Tree {
    ghost use Rattle.reg_tree.specs.TreeKeys.{made_root, tree_in, IsWholeTree, IsWholeWith, IsAt, IsThere, IsResolved, KeepsNodes, MakesKeys};
    ghost use Rattle.reg_index.specs.declared.Place.{Place};
    ghost use Rattle.reg_tree.specs.CellSizes.{BelongsThere, create_sizes, security_sizes, value_sizes, LacksRoom};
    ghost use Rattle.reg_tree.specs.NewHive.{IsNewHive};
    ghost use Rattle.reg_tree.specs.KeyLengths.{ChangesLengths, KeepsLengths, NotesMade, lengths_at, no_lengths, with_value_lengths, with_first_length};
    ghost use Rattle.reg_tree.specs.ValueAnswers.{IsFound, fitted_by, without_value_at};
    ghost use Rattle.reg_tree.specs.Reaching.{IsWalkedTo};
    ghost use Rattle.reg_tree.specs.SubkeyWalk.{IsSubkeyAt, name_length};
    ghost use Rattle.reg_tree.specs.BuiltKeys.{TakesCells};

    /// A tree of one root: the name as given, mark 8 (no delete), no class, the descriptor, the moment (100 ns ticks since
    /// 1601), no values; its four largest lengths are 0. Its bins are one, of the least size for the key node and its security,
    /// whose cells have just their sizes and hold the two records, with zeros behind them. Its one fault is `Memory`.
    #[tactic(auto, using(crate::proofs::InsertKey::PathGrowth::name_short))]
    pub fn new(
        alloc: Global,
        root_name: &[u8],
        descriptor: &[u8],
        moment: u64,
    ) -> Result<Tree, TreeFault>
        requires name { is_key_name root_name.now ≡ true }
        requires descriptor { (1 ≤ length descriptor.now) × (length descriptor.now ≤ DESCRIPTOR_LIMIT) }
        ensures ok { IfOk result (λ t. t.tree ≡ insert empty [] (made_root root_name.now descriptor.now moment)) }
        ensures lengths { IfOk result (λ t. lengths_at (heap_of t.bins) t.root ≡ Some no_lengths) }
        ensures cells { IfOk result (λ t. IsNewHive t root_name.now descriptor.now moment) }
        ensures err { IfErr result (λ fault. fault ≡ TreeFault.Memory) }
        ensures bin { IfOk result (λ t. IsBinSize (length t.bins.bytes)
            (cell_size_of (76 + length root_name.now) + cell_size_of (20 + length descriptor.now))) }
    {
        let mut securities = SecurityTable::new(alloc);
        match securities.expect(alloc, descriptor) {
            Ok(true) => {}
            Ok(false) => unreachable!(),
            Err(AllocError) => return Err(TreeFault::Memory),
        }
        let mut arena = Arena::new(alloc);
        let node_size = cell_size(76 + root_name.len() as u32);
        let ring_size = cell_size(20 + descriptor.len() as u32);
        let (root, security) = match carve_two(alloc, &mut arena, node_size, ring_size) {
            Ok(cells) => cells,
            Err(ArenaFault::Full) => unreachable!(),
            Err(ArenaFault::Memory) => return Err(TreeFault::Memory),
        };
        securities.add(&mut arena, None, security, descriptor);
        put_nk(&mut arena, root, &new_root(security, moment), root_name);
        Ok(Tree {
            arena,
            root,
            securities,
            names: NamesSeen::new(alloc),
        })
    }

    /// A tree of bins that are taken as they stand, since they are a whole hive, with this root and this ring of securities. Nothing is
    /// read or copied but the securities' descriptors. Its one fault is that memory was refused.
    pub fn adopt(alloc: Global, arena: Arena, root: u32, ring: &[u32]) -> Result<Tree, AllocError>
        requires { IsWholeWith arena.bytes root ring.now }
        ensures { IfOk result (λ t. t ≡ record { bins = arena; root = root; tree = tree_in arena.bytes root }) }
    {
        let securities = SecurityTable::of_ring(alloc, &arena, ring)?;
        Ok(Tree {
            arena,
            root,
            securities,
            names: NamesSeen::new(alloc),
        })
    }

    /// The bins with their cells, to be read byte by byte. They are whole, and spell the tree: each allocated cell is met from the
    /// root exactly as often as the records say, and the keys that are read there are those of the map. The free lists have precisely
    /// the free cells (clause `sound`).
    pub fn arena(&self) -> &Arena
        ensures bins { result.now ≡ self.now.bins }
        ensures whole { IsWholeTree self.now.bins.bytes self.now.root self.now.tree }
        ensures sound { IsSound self.now.bins.bytes self.now.bins.heads }
    {
        // Every arena is sound, as this call's contract says.
        prove!(self.arena.bins_size() % 4096 == 0);
        &self.arena
    }

    /// The root. It also tells what is true of every tree's keys. They are a tree: the root is there, and with each key the one
    /// above it; a path's last name is its key's, folded; and the names of a key's values differ after folding (clause `tree`).
    /// They are within the limits: each key by itself, how many are right below one, and how deep one is (clause `limits`), which
    /// is at most 512 names (clause `shallow`). And a node is that of one key (clause `one_path`).
    pub fn root(&self) -> Node
        ensures at { IsAt self.now [] result }
        ensures one_path { (p q : Path) → (node : Node) → IsAt self.now p node → IsAt self.now q node → p ≡ q }
        ensures shallow { (p : Path) → IsSome (get self.now.tree p) → length p ≤ PATH_LIMIT }
        ensures tree { IsTree self.now.tree }
        ensures limits { IsWithinLimits self.now.tree }
    {
        Node {
            offset: self.root,
            depth: 0,
        }
    }

    /// The key at the end of a path from a key, if it is there. The empty path leads to the key itself. Names are compared
    /// after folding.
    pub fn resolve(&self, from: Node, path: &[u8]) -> Option<Node>
        requires from { IsThere self.now from }
        requires path { is_path path.now ≡ true }
        ensures found { (p : Path) → IsAt self.now p from → IsResolved self.now (p ++ folded_path path.now) result }
        ensures depth { IfSome result (λ node. node.depth ≤ PATH_LIMIT) }
    {
        find::resolve(&self.arena, from, path)
    }

    /// Walks a path from a key as far as its keys are there, once: the last of them, the names behind it, which are missing, and
    /// where they belong. That serves `is_limited`, `create_at`, `build_key`, `delete_at` and `delete_tree_at`, as long as the tree is
    /// as it is.
    /// Names are compared after folding.
    pub fn reach<'a>(&self, from: Node, path: &'a [u8]) -> Reached<'a>
        requires from { IsThere self.now from }
        requires path { is_path path.now ≡ true }
        ensures reached { IsWalkedTo self.now from path.now result }
        ensures missing { (p : Path) → IsAt self.now p from → path_of result.missing.now ≡ missing self.now.tree p (path_of path.now) }
        ensures there { (p : Path) → IsAt self.now p from → result.missing.now ≡ [] → IsResolved self.now (p ++ folded_path path.now) (Some result.node) }
        ensures absent { (p : Path) → IsAt self.now p from → result.missing.now ≢ [] → IsResolved self.now (p ++ folded_path path.now) None }
    {
        find::reach(&self.arena, from, path)
    }

    /// A key's name, as it was given.
    pub fn name(&self, node: Node) -> &[u8]
        requires { IsThere self.now node }
        ensures told { (p : Path) → IsAt self.now p node → (r : Rec) → get self.now.tree p ≡ Some r → result.now ≡ r.name }
        ensures short { length result.now ≤ KEY_NAME_LIMIT }
        ensures key { (p : Path) → IsAt self.now p node → IsSome (get self.now.tree p) }
    {
        read::name(&self.arena, node.offset)
    }

    /// A key's last write time, in 100 ns ticks since 1601.
    pub fn time(&self, node: Node) -> u64
        requires { IsThere self.now node }
        ensures { (p : Path) → IsAt self.now p node → (r : Rec) → get self.now.tree p ≡ Some r → result ≡ r.time }
    {
        read::time(&self.arena, node.offset)
    }

    /// A key's marks, of which 0x08 says that it is never deleted.
    pub fn marks(&self, node: Node) -> u16
        requires { IsThere self.now node }
        ensures { (p : Path) → IsAt self.now p node → (r : Rec) → get self.now.tree p ≡ Some r → result ≡ r.marks }
    {
        read::marks(&self.arena, node.offset)
    }

    /// The bytes of a key's security descriptor.
    pub fn descriptor(&self, node: Node) -> &[u8]
        requires { IsThere self.now node }
        ensures told { (p : Path) → IsAt self.now p node → (r : Rec) → get self.now.tree p ≡ Some r → result.now ≡ r.descriptor }
        ensures short { length result.now ≤ DESCRIPTOR_LIMIT }
    {
        read::descriptor(&self.arena, node.offset)
    }

    /// The bytes of a key's class.
    pub fn class(&self, node: Node) -> &[u8]
        requires { IsThere self.now node }
        ensures told { (p : Path) → IsAt self.now p node → (r : Rec) → get self.now.tree p ≡ Some r → result.now ≡ r.class }
        ensures short { length result.now ≤ 65535 }
    {
        read::class(&self.arena, node.offset)
    }

    /// How many keys are right below a key.
    pub fn subkeys(&self, node: Node) -> u32
        requires { IsThere self.now node }
        ensures { (p : Path) → IsAt self.now p node → result ≡ length (children_of self.now.tree p) }
    {
        read::subkeys(&self.arena, node.offset)
    }

    /// The key at an index among those right below a key, counted from 0 in the order of their folded names; `None` where
    /// there are not so many.
    pub fn subkey(&self, node: Node, index: u32) -> Option<Node>
        requires { IsThere self.now node }
        ensures { (p : Path) → IsAt self.now p node →
            MatchOption result (length (children_of self.now.tree p) ≤ index)
            (λ child. (index < length (children_of self.now.tree p))
            × IsAt self.now (get_or (children_of self.now.tree p) index []) child) }
    {
        read::subkey(&self.arena, node, index)
    }

    /// The first of the keys right below a key, in the order of their folded names; `None` where there are none.
    pub fn first_subkey(&self, node: Node) -> Option<Subkey>
        requires { IsThere self.now node }
        ensures { (p : Path) → IsAt self.now p node →
            MatchOption result (children_of self.now.tree p ≡ []) (λ subkey. IsSubkeyAt self.now p node 0 subkey) }
    {
        read::first_subkey(&self.arena, node)
    }

    /// The key at an index among those right below a key, counted from 0 in the order of their folded names, from which a walk goes on;
    /// `None` where there are not so many.
    pub fn subkey_from(&self, node: Node, index: u32) -> Option<Subkey>
        requires { IsThere self.now node }
        ensures { (p : Path) → IsAt self.now p node →
            MatchOption result (length (children_of self.now.tree p) ≤ index) (λ subkey. IsSubkeyAt self.now p node index subkey) }
    {
        read::subkey_from(&self.arena, node, index)
    }

    /// The key behind one among those right below a key, in the order of their folded names; `None` where that one is the last.
    /// However many there are, it takes as long, so a walk from the first on goes once over them; `subkey` looks for each anew.
    pub fn next_subkey(&self, node: Node, subkey: Subkey) -> Option<Subkey>
        requires { (p : Path) × (index : ℕ) × IsAt self.now p node × IsSubkeyAt self.now p node index subkey }
        ensures { (p : Path) → IsAt self.now p node → (index : ℕ) → IsSubkeyAt self.now p node index subkey →
            MatchOption result (index + 1 ≡ length (children_of self.now.tree p)) (λ next. IsSubkeyAt self.now p node (index + 1) next) }
    {
        read::next_subkey(&self.arena, node, subkey.place)
    }

    /// The length of the longest name among the keys right below a key; 0 of none. It goes once over them, and reads one number of each.
    pub fn longest_subkey_name(&self, node: Node) -> u32
        requires { IsThere self.now node }
        ensures { (p : Path) → IsAt self.now p node → result ≡ fold (λ a (q : Path). max a (name_length (get self.now.tree q))) 0 (children_of self.now.tree p) }
    {
        read::longest_subkey_name(&self.arena, node.offset)
    }

    /// A key's value at an index, counted from 0 in the order in which the names were added, without its bytes; `None` where
    /// there are not so many.
    pub fn value(&self, node: Node, index: u32) -> Option<Value<'_>>
        requires { IsThere self.now node }
        ensures told { (p : Path) → IsAt self.now p node →
            MatchOption result (length (values_at self.now.tree p) ≤ index) (λ value. (member : Member)
            × (slice_get (values_at self.now.tree p) index ≡ Some member)
            × Tells member value.name.now value.kind value.size) }
        ensures short { IfSome result (λ value. length value.name.now ≤ VALUE_NAME_LIMIT) }
    {
        values::at(&self.arena, node.offset, index)
    }

    /// How many values a key has.
    pub fn values(&self, node: Node) -> u32
        requires { IsThere self.now node }
        ensures { (p : Path) → IsAt self.now p node → result ≡ length (values_at self.now.tree p) }
    {
        values::count(&self.arena, node.offset)
    }

    /// What is largest among a key's values: the longest name's length, and the size of the largest data; 0 of none. It goes once over
    /// them, and reads two numbers of each.
    pub fn largest_values(&self, node: Node) -> LargestValues
        requires { IsThere self.now node }
        ensures name { (p : Path) → IsAt self.now p node → result.name ≡ fold (λ a (m : Member). max a (length m.name)) 0 (values_at self.now.tree p) }
        ensures size { (p : Path) → IsAt self.now p node → result.size ≡ fold (λ a (m : Member). max a (length m.bytes)) 0 (values_at self.now.tree p) }
    {
        values::largest(&self.arena, node.offset)
    }

    /// A key's value of that name, after folding, if it has one.
    pub fn find_value(&self, node: Node, name: &[u8]) -> Option<ValueFound>
        requires { IsThere self.now node }
        ensures { (p : Path) → IsAt self.now p node → IsFound (values_at self.now.tree p) (value_named name.now (values_at self.now.tree p)) result }
    {
        if self.names.lacks(node.offset, name) {
            return None;
        }
        values::find_into(&self.arena, node.offset, name, &mut [])
    }

    /// The same, with the value's data copied over the front of a room that has place for it. The rest of the room stays as it was, and so
    /// does a room that has none. It takes no memory.
    pub fn find_value_into(&self, node: Node, name: &[u8], room: &mut [u8]) -> Option<ValueFound>
        requires { IsThere self.now node }
        ensures found { (p : Path) → IsAt self.now p node → IsFound (values_at self.now.tree p) (value_named name.now (values_at self.now.tree p)) result }
        ensures room { (p : Path) → IsAt self.now p node → room.new ≡ fitted_by (value_named name.now (values_at self.now.tree p)) room.old }
    {
        if self.names.lacks(node.offset, name) {
            return None;
        }
        values::find_into(&self.arena, node.offset, name, room)
    }

    /// The index of a key's value of that name, after folding, counted from 0, if it has one. That serves `set_at` and
    /// `remove_at`, as long as the tree is as it is.
    pub fn value_index(&self, node: Node, name: &[u8]) -> Option<u32>
        requires { IsThere self.now node }
        ensures { (p : Path) → IsAt self.now p node → result ≡ index_named name.now (values_at self.now.tree p) }
    {
        if self.names.lacks(node.offset, name) {
            return None;
        }
        values::index(&self.arena, node.offset, name)
    }

    /// A copy of the bytes of a key's value at an index, counted from 0. Its one fault is that memory was refused, and never
    /// of a value without bytes: for that no memory is taken.
    pub fn value_bytes(&self, alloc: Global, node: Node, index: u32) -> Result<Vec<u8>, AllocError>
        requires { (p : Path) × IsAt self.now p node × (index < length (values_at self.now.tree p)) }
        ensures told { (p : Path) → IsAt self.now p node →
            IfOk result (λ bytes. (member : Member) × (slice_get (values_at self.now.tree p) index ≡ Some member)
            × (bytes.items ≡ member.bytes)) }
        ensures empty { (p : Path) → IsAt self.now p node →
            OnErr result ((member : Member) → slice_get (values_at self.now.tree p) index ≡ Some member → member.bytes ≢ []) }
    {
        values::bytes(alloc, &self.arena, node.offset, index)
    }

    /// Copies the bytes of a key's value at an index, counted from 0, over the front of a room that has place for them. The rest
    /// of the room stays as it was. It takes no memory.
    pub fn fill_value(&self, node: Node, index: u32, room: &mut [u8])
        requires value { (p : Path) × IsAt self.now p node × (index < length (values_at self.now.tree p)) }
        requires room { (p : Path) → IsAt self.now p node → (member : Member) →
            slice_get (values_at self.now.tree p) index ≡ Some member → length member.bytes ≤ length room.old }
        ensures { (p : Path) → IsAt self.now p node →
            (member : Member) × (slice_get (values_at self.now.tree p) index ≡ Some member)
            × (room.new ≡ member.bytes ++ drop (length member.bytes) room.old) }
    {
        values::fill(&self.arena, node.offset, index, room)
    }

    /// Sets a value of a key, and the key's time. A name that is there keeps its place and its first spelling; a new one goes to
    /// the end. After a fault the tree is as before.
    ///
    /// The cells that come are those of its list and its data, where they need some, each of its size.
    ///
    /// `Limit` where the name is new and there are 16,384 values; `Full` only where no free cell has room for all the cells that
    /// it takes together and one bin more for them would pass the limit of 268,435,456 bytes; `Memory`. The bins grow only
    /// where no free cell has room for all of these together, and by at most 1,310,720 bytes.
    pub fn set_value(
        &mut self,
        alloc: Global,
        node: Node,
        name: &[u8],
        kind: u32,
        bytes: &[u8],
        moment: u64,
    ) -> Result<(), TreeFault>
        requires node { IsThere self.old node }
        requires name { is_value_name name.now ≡ true }
        requires bytes { length bytes.now ≤ DATA_LIMIT }
        ensures ok { (p : Path) → IsAt self.old p node → OnOk result (self.new.tree ≡ edited self.old.tree p (with_value name.now kind bytes.now moment)) }
        ensures cells { OnOk result (Makes (heap_of self.old.bins) (heap_of self.new.bins)
            (value_sizes (heap_of self.old.bins) node.offset name.now (length bytes.now))) }
        ensures nodes { OnOk result (KeepsNodes self.old self.new) }
        ensures lengths { (p : Path) → IsAt self.old p node →
            OnOk result (ChangesLengths self.old self.new p (with_value_lengths (length name.now) (length bytes.now))) }
        ensures limit { (p : Path) → IsAt self.old p node →
            ((result ≡ Err TreeFault.Limit) ↔ ((VALUES_LIMIT ≤ length (values_at self.old.tree p))
            × (value_named name.now (values_at self.old.tree p) ≡ None))) }
        ensures full { (result ≡ Err TreeFault.Full) → BINS_LIMIT < length self.old.bins.bytes + GROWTH_BOUND }
        ensures space { IfErr result (λ fault. fault ≡ TreeFault.Full →
            LacksRoom self.old.bins (value_sizes (heap_of self.old.bins) node.offset name.now (length bytes.now))) }
        ensures others { IfErr result (λ fault. (fault ≡ TreeFault.Limit) ⊎ ((fault ≡ TreeFault.Full) ⊎ (fault ≡ TreeFault.Memory))) }
        ensures err { OnErr result (self.new ≡ self.old) }
        ensures grows { OnOk result (length self.new.bins.bytes ≤ length self.old.bins.bytes + GROWTH_BOUND) }
        ensures growth { OnOk result (GrowsFor self.old.bins.bytes self.new.bins.bytes
            (value_sizes (heap_of self.old.bins) node.offset name.now (length bytes.now))) }
        ensures kept { OnOk result (length self.old.bins.bytes ≤ length self.new.bins.bytes) }
    {
        let place = self.value_index(node, name);
        if values::is_full(&self.arena, node.offset, place) {
            return Err(TreeFault::Limit);
        }
        match self.set_at(alloc, node, place, name, kind, bytes, moment) {
            Ok(()) => Ok(()),
            Err(fault) => Err(TreeFault::from(fault)),
        }
    }

    /// Sets a value of a key at the place that `value_index` told for its name, and the key's time: the value there keeps its
    /// place and its first spelling; without a place, a new one goes to the end, for which there must be room below 16,384 values.
    /// After a fault the tree is as before.
    ///
    /// The cells that come are those of its list and its data, where they need some, each of its size; each that stays keeps its
    /// size, and the root its place. `Full` only where no free cell has room for all of them together and one bin more for them would
    /// pass the limit of 268,435,456 bytes; `Memory`. The bins grow by at most 1,310,720 bytes, and only where no free cell has room.
    pub fn set_at(
        &mut self,
        alloc: Global,
        node: Node,
        place: Option<u32>,
        name: &[u8],
        kind: u32,
        bytes: &[u8],
        moment: u64,
    ) -> Result<(), ArenaFault>
        requires node { IsThere self.old node }
        requires place { (p : Path) → IsAt self.old p node → place ≡ index_named name.now (values_at self.old.tree p) }
        requires room { (p : Path) → IsAt self.old p node → place ≡ None → length (values_at self.old.tree p) < VALUES_LIMIT }
        requires name { is_value_name name.now ≡ true }
        requires bytes { length bytes.now ≤ DATA_LIMIT }
        ensures ok { (p : Path) → IsAt self.old p node → OnOk result (self.new.tree ≡ edited self.old.tree p (with_value name.now kind bytes.now moment)) }
        ensures takes { OnOk result (TakesCells self.old self.new
            (value_sizes (heap_of self.old.bins) node.offset name.now (length bytes.now))) }
        ensures root { OnOk result (self.new.root ≡ self.old.root) }
        ensures nodes { OnOk result (KeepsNodes self.old self.new) }
        ensures lengths { (p : Path) → IsAt self.old p node →
            OnOk result (ChangesLengths self.old self.new p (with_value_lengths (length name.now) (length bytes.now))) }
        ensures full { (result ≡ Err ArenaFault.Full) → BINS_LIMIT < length self.old.bins.bytes + GROWTH_BOUND }
        ensures space { IfErr result (λ fault. fault ≡ ArenaFault.Full →
            LacksRoom self.old.bins (value_sizes (heap_of self.old.bins) node.offset name.now (length bytes.now))) }
        ensures err { OnErr result (self.new ≡ self.old) }
        ensures grows { OnOk result (length self.new.bins.bytes ≤ length self.old.bins.bytes + GROWTH_BOUND) }
        ensures kept { OnOk result (length self.old.bins.bytes ≤ length self.new.bins.bytes) }
    {
        match self.names.expect(&self.arena, node.offset, name) {
            Ok(()) => {}
            Err(AllocError) => return Err(ArenaFault::Memory),
        }
        values::set_at(
            alloc,
            &mut self.arena,
            node.offset,
            place,
            name,
            kind,
            bytes,
            moment,
        )
    }

    /// Removes the value of a key at an index, counted from 0, and sets the key's time. The bins keep their length.
    pub fn remove_at(&mut self, node: Node, index: u32, moment: u64)
        requires { (p : Path) × IsAt self.old p node × (index < length (values_at self.old.tree p)) }
        ensures tree { (p : Path) → IsAt self.old p node → self.new.tree ≡ edited self.old.tree p (without_value_at index moment) }
        ensures nodes { KeepsNodes self.old self.new }
        ensures lengths { KeepsLengths self.old self.new }
        ensures long { length self.new.bins.bytes ≡ length self.old.bins.bytes }
    {
        self.names.forget();
        values::remove_at(&mut self.arena, node.offset, index, moment)
    }

    /// Removes a value of a key, and sets the key's time. `NotFound` just where there is none of that name, its one fault;
    /// then the tree is as before. The bins keep their length.
    pub fn delete_value(&mut self, node: Node, name: &[u8], moment: u64) -> Result<(), TreeFault>
        requires { IsThere self.old node }
        ensures ok { (p : Path) → IsAt self.old p node → OnOk result (self.new.tree ≡ edited self.old.tree p (without_value name.now moment)) }
        ensures nodes { OnOk result (KeepsNodes self.old self.new) }
        ensures lengths { OnOk result (KeepsLengths self.old self.new) }
        ensures absent { (p : Path) → IsAt self.old p node →
            ((result ≡ Err TreeFault.NotFound) ↔ (value_named name.now (values_at self.old.tree p) ≡ None)) }
        ensures others { IfErr result (λ fault. fault ≡ TreeFault.NotFound) }
        ensures err { OnErr result (self.new ≡ self.old) }
        ensures long { OnOk result (length self.new.bins.bytes ≡ length self.old.bins.bytes) }
    {
        self.names.forget();
        values::delete(&mut self.arena, node.offset, name, moment)
    }

    /// Makes the keys of a path from a key that are missing, each with the name as given, and sets the time of each and of the
    /// first one's parent. The last one made has the descriptor that is given, of 1 to 65,535 bytes, if one is; each other one has
    /// its parent's. Answers the last key of the path, and whether a key was made: if none was, nothing changed. After a fault the
    /// tree is as before.
    ///
    /// The four largest lengths of a key made are 0, but for that of its subkeys' names where the next is made below it.
    ///
    /// The cells that come are a key node's for each key made, of its size; those of the lists of its parent's subkeys that have no
    /// room in their cells or give way to two (up to three); and one for the descriptor that is given, where no key has it yet.
    ///
    /// `Limit` where a key is missing and more than 32 are, or the path has more than 512 names from the root on, or the
    /// first missing key's parent has 60,000 subkeys; `Full` only where no free cell has room for all the cells that it takes
    /// together and one bin more for them would pass the limit of 268,435,456 bytes; `Memory`. The bins grow only where no free
    /// cell has room for all of these together, and by at most 1,310,720 bytes.
    pub fn create(
        &mut self,
        alloc: Global,
        from: Node,
        path: &[u8],
        given: Option<&[u8]>,
        moment: u64,
    ) -> Result<Created, TreeFault>
        requires from { IsThere self.old from }
        requires path { is_path path.now ≡ true }
        requires given { IfSome given (λ descriptor. (1 ≤ length descriptor.now) × (length descriptor.now ≤ DESCRIPTOR_LIMIT)) }
        ensures ok { (p : Path) → IsAt self.old p from → IfOk result (λ made. MakesKeys self.old self.new p (path_of path.now)
            (option_map (λ descriptor. descriptor.now) given.entry) moment made) }
        ensures cells { (p : Path) → IsAt self.old p from →
            OnOk result ((place : Place) × BelongsThere self.old p (path_of path.now) place
            × Makes (heap_of self.old.bins) (heap_of self.new.bins) (create_sizes self.old p (path_of path.now) place
            (option_map (λ descriptor. descriptor.now) given.entry))
            × GrowsFor self.old.bins.bytes self.new.bins.bytes (create_sizes self.old p (path_of path.now) place
            (option_map (λ descriptor. descriptor.now) given.entry))) }
        ensures lengths { (p : Path) → IsAt self.old p from →
            OnOk result (ChangesLengths self.old self.new (last_there self.old.tree p (path_of path.now))
            (with_first_length (missing self.old.tree p (path_of path.now)))) }
        ensures made { (p : Path) → IsAt self.old p from →
            OnOk result (NotesMade self.new (last_there self.old.tree p (path_of path.now)) (missing self.old.tree p (path_of path.now))) }
        ensures same { IfOk result (λ made. made.is_new ≡ false → self.new ≡ self.old) }
        ensures limit { (p : Path) → IsAt self.old p from → ((result ≡ Err TreeFault.Limit) ↔ (are_too_many self.old.tree p (path_of path.now) ≡ true)) }
        ensures full { (result ≡ Err TreeFault.Full) → BINS_LIMIT < length self.old.bins.bytes + GROWTH_BOUND }
        ensures space { (p : Path) → IsAt self.old p from →
            IfErr result (λ fault. fault ≡ TreeFault.Full → (place : Place) × BelongsThere self.old p (path_of path.now) place
            × LacksRoom self.old.bins (create_sizes self.old p (path_of path.now) place
            (option_map (λ descriptor. descriptor.now) given.entry))) }
        ensures others { IfErr result (λ fault. (fault ≡ TreeFault.Limit) ⊎ ((fault ≡ TreeFault.Full) ⊎ (fault ≡ TreeFault.Memory))) }
        ensures err { OnErr result (self.new ≡ self.old) }
        ensures grows { OnOk result (length self.new.bins.bytes ≤ length self.old.bins.bytes + GROWTH_BOUND) }
        ensures kept { OnOk result (length self.old.bins.bytes ≤ length self.new.bins.bytes) }
    {
        self.names.forget();
        make::create(
            alloc,
            &mut self.arena,
            &mut self.securities,
            from,
            path,
            given,
            moment,
        )
    }

    /// Whether making the keys that `reach` found missing is refused for `Limit`: by their number, the length of the path, or the
    /// number of subkeys of the key that they would be below. Never where none is missing.
    pub fn is_limited(&self, reached: Reached<'_>) -> bool
        requires reached { (from : Node) × (path : List ℕ) × IsWalkedTo self.now from path reached × IsThere self.now from }
        ensures { (from : Node) → (path : List ℕ) → IsWalkedTo self.now from path reached.entry → (p : Path) → IsAt self.now p from →
            result ≡ are_too_many self.now.tree p (path_of path) }
    {
        make::is_limited(&self.arena, reached)
    }

    /// Makes the keys that `reach` found missing, as [`create`](Tree::create) does, which must be some and not too many. Answers
    /// the last of them. After a fault the tree is as before.
    ///
    /// `Full` only where no free cell has room for all the cells that it takes together and one bin more for them would pass the
    /// limit of 268,435,456 bytes; `Memory`. The bins grow only where no free cell has room for all of these together, and by at
    /// most 1,310,720 bytes.
    pub fn create_at(
        &mut self,
        alloc: Global,
        reached: Reached<'_>,
        given: Option<&[u8]>,
        moment: u64,
    ) -> Result<Node, ArenaFault>
        requires reached { (from : Node) × (path : List ℕ) × IsWalkedTo self.old from path reached × IsThere self.old from }
        requires missing { reached.missing.now ≢ [] }
        requires given { IfSome given (λ descriptor. (1 ≤ length descriptor.now) × (length descriptor.now ≤ DESCRIPTOR_LIMIT)) }
        requires few { (from : Node) → (path : List ℕ) → IsWalkedTo self.old from path reached → (p : Path) → IsAt self.old p from →
            are_too_many self.old.tree p (path_of path) ≡ false }
        ensures ok { (from : Node) → (path : List ℕ) → IsWalkedTo self.old from path reached.entry → (p : Path) → IsAt self.old p from →
            IfOk result (λ node. MakesKeys self.old self.new p (path_of path)
            (option_map (λ descriptor. descriptor.now) given.entry) moment (record { node = node; is_new = true })) }
        ensures cells { (from : Node) → (path : List ℕ) → IsWalkedTo self.old from path reached.entry → (p : Path) → IsAt self.old p from →
            OnOk result ((place : Place) × BelongsThere self.old p (path_of path) place
            × Makes (heap_of self.old.bins) (heap_of self.new.bins) (create_sizes self.old p (path_of path) place
            (option_map (λ descriptor. descriptor.now) given.entry))
            × GrowsFor self.old.bins.bytes self.new.bins.bytes (create_sizes self.old p (path_of path) place
            (option_map (λ descriptor. descriptor.now) given.entry))) }
        ensures lengths { (from : Node) → (path : List ℕ) → IsWalkedTo self.old from path reached.entry → (p : Path) → IsAt self.old p from →
            OnOk result (ChangesLengths self.old self.new (last_there self.old.tree p (path_of path))
            (with_first_length (missing self.old.tree p (path_of path)))) }
        ensures made { (from : Node) → (path : List ℕ) → IsWalkedTo self.old from path reached.entry → (p : Path) → IsAt self.old p from →
            OnOk result (NotesMade self.new (last_there self.old.tree p (path_of path)) (missing self.old.tree p (path_of path))) }
        ensures full { (result ≡ Err ArenaFault.Full) → BINS_LIMIT < length self.old.bins.bytes + GROWTH_BOUND }
        ensures space { (from : Node) → (path : List ℕ) → IsWalkedTo self.old from path reached.entry → (p : Path) → IsAt self.old p from →
            IfErr result (λ fault. fault ≡ ArenaFault.Full → (place : Place) × BelongsThere self.old p (path_of path) place
            × LacksRoom self.old.bins (create_sizes self.old p (path_of path) place
            (option_map (λ descriptor. descriptor.now) given.entry))) }
        ensures err { OnErr result (self.new ≡ self.old) }
        ensures grows { OnOk result (length self.new.bins.bytes ≤ length self.old.bins.bytes + GROWTH_BOUND) }
        ensures kept { OnOk result (length self.old.bins.bytes ≤ length self.new.bins.bytes) }
    {
        self.names.forget();
        make::create_at(
            alloc,
            &mut self.arena,
            &mut self.securities,
            reached,
            given,
            moment,
        )
    }

    /// Sets the descriptor of a key, of 1 to 65,535 bytes, and the key's time. Keys with equal descriptors share one security. After
    /// a fault the tree is as before.
    ///
    /// The cell that comes is the security's, of its size, where no key has the descriptor yet. `Full` only where no free cell has
    /// room for it and one bin more for it would pass the limit of 268,435,456 bytes; `Memory`. The bins grow only where no free cell
    /// has room for it, and by at most 1,310,720 bytes.
    pub fn set_security(
        &mut self,
        alloc: Global,
        node: Node,
        descriptor: &[u8],
        moment: u64,
    ) -> Result<(), ArenaFault>
        requires node { IsThere self.old node }
        requires descriptor { (1 ≤ length descriptor.now) × (length descriptor.now ≤ DESCRIPTOR_LIMIT) }
        ensures ok { (p : Path) → IsAt self.old p node →
            OnOk result (self.new.tree ≡ edited self.old.tree p (with_descriptor descriptor.now moment)) }
        ensures cells { OnOk result (Makes (heap_of self.old.bins) (heap_of self.new.bins) (security_sizes self.old.tree descriptor.now)) }
        ensures nodes { OnOk result (KeepsNodes self.old self.new) }
        ensures lengths { OnOk result (KeepsLengths self.old self.new) }
        ensures full { (result ≡ Err ArenaFault.Full) → BINS_LIMIT < length self.old.bins.bytes + GROWTH_BOUND }
        ensures space { IfErr result (λ fault. fault ≡ ArenaFault.Full → LacksRoom self.old.bins (security_sizes self.old.tree descriptor.now)) }
        ensures err { OnErr result (self.new ≡ self.old) }
        ensures grows { OnOk result (length self.new.bins.bytes ≤ length self.old.bins.bytes + GROWTH_BOUND) }
        ensures growth { OnOk result (GrowsFor self.old.bins.bytes self.new.bins.bytes (security_sizes self.old.tree descriptor.now)) }
        ensures kept { OnOk result (length self.old.bins.bytes ≤ length self.new.bins.bytes) }
    {
        self.names.forget();
        security::set(
            alloc,
            &mut self.arena,
            &mut self.securities,
            node.offset,
            descriptor,
            moment,
        )
    }

    /// Deletes the key to which `reach` found every name of a path that has some, with its values, and sets its parent's time. It
    /// must have no subkeys and no mark 0x08. It takes no memory, and the bins keep their length.
    pub fn delete_at(&mut self, reached: Reached<'_>, moment: u64)
        requires reached { (from : Node) × (path : List ℕ) × IsWalkedTo self.old from path reached × IsThere self.old from × (path_of path ≢ []) }
        requires there { reached.missing.now ≡ [] }
        requires goes { (p : Path) → IsAt self.old p reached.node → may_not_go self.old.tree p ≡ false }
        ensures tree { (p : Path) → IsAt self.old p reached.entry.node → self.new.tree ≡ without_key self.old.tree p moment }
        ensures nodes { (p : Path) → IsAt self.old p reached.entry.node → (q : Path) → (other : Node) → IsAt self.old q other → q ≢ p → IsAt self.new q other }
        ensures lengths { KeepsLengths self.old self.new }
        ensures long { length self.new.bins.bytes ≡ length self.old.bins.bytes }
    {
        self.names.forget();
        unmake::delete_at(
            &mut self.arena,
            &mut self.securities,
            reached.node.offset,
            reached.place,
            moment,
        )
    }

    /// Deletes a key with its values, and sets its parent's time. After a fault the tree is as before.
    ///
    /// `HasChildren` where the key has subkeys; `NoDelete` where it has none, and is the root or has mark 0x08. It takes no
    /// memory, and the bins keep their length.
    pub fn delete_key(&mut self, node: Node, moment: u64) -> Result<(), TreeFault>
        requires { IsThere self.old node }
        ensures ok { (p : Path) → IsAt self.old p node → OnOk result (self.new.tree ≡ without_key self.old.tree p moment) }
        ensures nodes { (p : Path) → IsAt self.old p node → OnOk result ((q : Path) → (other : Node) → IsAt self.old q other → q ≢ p → IsAt self.new q other) }
        ensures lengths { OnOk result (KeepsLengths self.old self.new) }
        ensures children { (p : Path) → IsAt self.old p node → ((result ≡ Err TreeFault.HasChildren) ↔ (children_of self.old.tree p ≢ [])) }
        ensures kept { (p : Path) → IsAt self.old p node → ((result ≡ Err TreeFault.NoDelete) ↔ ((children_of self.old.tree p ≡ []) × IsKept self.old.tree p)) }
        ensures others { IfErr result (λ fault. (fault ≡ TreeFault.HasChildren) ⊎ (fault ≡ TreeFault.NoDelete)) }
        ensures err { OnErr result (self.new ≡ self.old) }
        ensures long { OnOk result (length self.new.bins.bytes ≡ length self.old.bins.bytes) }
    {
        self.names.forget();
        unmake::delete(&mut self.arena, &mut self.securities, node.offset, moment)
    }

    /// Whether a key, or one below it, has mark 0x08, and so may not be deleted. It takes no memory.
    pub fn is_kept_within(&self, node: Node) -> bool
        requires { IsThere self.now node }
        ensures { (p : Path) → IsAt self.now p node → result ≡ any_kept_within self.now.tree p }
    {
        prune::is_kept_within(&self.arena, node.offset)
    }

    /// Whether a key below one has mark 0x08, and so may not be deleted. It takes no memory.
    pub fn is_kept_under(&self, node: Node) -> bool
        requires { IsThere self.now node }
        ensures { (p : Path) → IsAt self.now p node → result ≡ any_kept_under self.now.tree p }
    {
        prune::is_kept_under(&self.arena, node.offset)
    }

    /// Deletes the key to which `reach` found every name of a path that has some, with all keys below it and their values, and sets
    /// its parent's time. None of them may have mark 0x08. It takes no memory, and the bins keep their length.
    pub fn delete_tree_at(&mut self, reached: Reached<'_>, moment: u64)
        requires reached { (from : Node) × (path : List ℕ) × IsWalkedTo self.old from path reached × IsThere self.old from × (path_of path ≢ []) }
        requires there { reached.missing.now ≡ [] }
        requires goes { (p : Path) → IsAt self.old p reached.node → any_kept_within self.old.tree p ≡ false }
        ensures tree { (p : Path) → IsAt self.old p reached.entry.node → self.new.tree ≡ without_tree self.old.tree p moment }
        ensures nodes { (p : Path) → IsAt self.old p reached.entry.node → (q : Path) → (other : Node) → IsAt self.old q other →
            is_within p q ≡ false → IsAt self.new q other }
        ensures lengths { KeepsLengths self.old self.new }
        ensures long { length self.new.bins.bytes ≡ length self.old.bins.bytes }
    {
        self.names.forget();
        prune::delete_tree_at(
            &mut self.arena,
            &mut self.securities,
            reached.node.offset,
            moment,
        )
    }

    /// Deletes all keys below a key, with their values, and the key's own values, and sets its time where it lost any of them. None
    /// of the keys below it may have mark 0x08. It takes no memory, and the bins keep their length.
    pub fn empty(&mut self, node: Node, moment: u64)
        requires node { IsThere self.old node }
        requires goes { (p : Path) → IsAt self.old p node → any_kept_under self.old.tree p ≡ false }
        ensures tree { (p : Path) → IsAt self.old p node → self.new.tree ≡ emptied self.old.tree p moment }
        ensures nodes { (p : Path) → IsAt self.old p node → (q : Path) → (other : Node) → IsAt self.old q other →
            is_under p q ≡ false → IsAt self.new q other }
        ensures lengths { KeepsLengths self.old self.new }
        ensures long { length self.new.bins.bytes ≡ length self.old.bins.bytes }
    {
        self.names.forget();
        prune::empty(&mut self.arena, &mut self.securities, node.offset, moment)
    }

    /// Deletes a key with all keys below it and their values, and sets its parent's time. After a fault the tree is as before.
    ///
    /// `NoDelete` where the key is the root, or it or one below it has mark 0x08. It takes no memory, and the bins keep their length.
    pub fn delete_tree(&mut self, node: Node, moment: u64) -> Result<(), TreeFault>
        requires { IsThere self.old node }
        ensures ok { (p : Path) → IsAt self.old p node → OnOk result (self.new.tree ≡ without_tree self.old.tree p moment) }
        ensures nodes { (p : Path) → IsAt self.old p node → OnOk result ((q : Path) → (other : Node) → IsAt self.old q other →
            is_within p q ≡ false → IsAt self.new q other) }
        ensures lengths { OnOk result (KeepsLengths self.old self.new) }
        ensures kept { (p : Path) → IsAt self.old p node →
            ((result ≡ Err TreeFault.NoDelete) ↔ ((p ≡ []) ⊎ (any_kept_within self.old.tree p ≡ true))) }
        ensures others { IfErr result (λ fault. fault ≡ TreeFault.NoDelete) }
        ensures err { OnErr result (self.new ≡ self.old) }
        ensures long { OnOk result (length self.new.bins.bytes ≡ length self.old.bins.bytes) }
    {
        self.names.forget();
        prune::delete_tree(&mut self.arena, &mut self.securities, node.offset, moment)
    }
}
