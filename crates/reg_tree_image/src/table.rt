//! Which cells there are, and which of them were named.

ghost use Rattle.std.specs.List.{list_all};
ghost use Rattle.std.specs.Prelude.{◌≡◌, ◌≢◌, ◌↔◌, IsTrue, ◌+◌, ◌*◌, ◌<◌, ◌≤◌, ◌%◌, ◌==◌, ℕ, if◌then◌else◌, false, Some, None, OnOk, OnErr, IfErr, length};
ghost use Rattle.reg_tree_image.specs.Internal.CellStates.{state_in, naming_fault, named_as, Puts, not_yet, unnamed};

use crate::LoadFault;

/// What is known of the place of a cell.
#[derive(Clone, Copy, Debug, PartialEq, Eq)]
pub enum CellState {
    /// No allocated cell begins here.
    Unallocated,
    /// An allocated cell that wasn't named yet.
    Unnamed,
    /// It was named, not as a security.
    Named,
    /// It was named as a security.
    NamedSecurity,
    /// It is a key on the present path.
    OnPath,
}

/// What is known of each cell: one state for each eight bytes of the bins.
#[derive(Drop)]
pub struct CellTable {
    pub states: Vec<CellState>,
}

/// Whether a place is none of an allocated cell that wasn't named.
fn is_settled(state: CellState) -> bool
    ensures { result ≡ (not_yet state == 0) }
{
    match state {
        CellState::Unnamed => false,
        CellState::Unallocated | CellState::Named | CellState::NamedSecurity | CellState::OnPath =>
            true,
    }
}

/// Whether no place is one of an allocated cell that wasn't named.
fn are_settled(states: &[CellState]) -> bool
    ensures { result ≡ list_all (λ state. not_yet state == 0) states.now }
{
    states.iter().all(|state| is_settled(*state))
}

impl CellTable {
    /// Whether each allocated cell was named.
    pub fn is_named(&self) -> bool
        ensures { IsTrue result ↔ (unnamed self.now.states.items ≡ 0) }
    {
        are_settled(self.states.as_slice())
    }

    /// What is known of the cell at an offset.
    pub fn state(&self, offset: u32) -> CellState
        ensures { result ≡ state_in self.now.states.items offset }
    {
        let index = (offset / 8) as usize;
        if offset % 8 == 0 && index < self.states.len() {
            self.states[index]
        } else {
            CellState::Unallocated
        }
    }

    /// Puts a state at the offset of an allocated cell.
    fn put(&mut self, offset: u32, state: CellState)
        requires { state_in self.old.states.items offset ≢ CellState.Unallocated }
        ensures puts { Puts self.old.states.items self.new.states.items offset state }
        ensures unnamed { unnamed self.new.states.items + not_yet (state_in self.old.states.items offset) ≡ unnamed self.old.states.items + not_yet state }
    {
        let index = (offset / 8) as usize;
        self.states[index] = state;
    }

    /// Notes that an allocated cell begins at an offset.
    pub fn allocate(&mut self, offset: u32)
        requires { (offset % 8 ≡ 0) × (offset < 8 * length self.old.states.items) }
        ensures puts { Puts self.old.states.items self.new.states.items offset CellState.Unnamed }
        ensures long { length self.new.states.items ≡ length self.old.states.items }
    {
        let index = (offset / 8) as usize;
        self.states[index] = CellState::Unnamed;
    }

    /// Notes that the cell at an offset is named, as a security or as another record. An `Err` changes nothing.
    pub fn name(&mut self, offset: u32, security: bool) -> Result<(), LoadFault>
        ensures ok { OnOk result ((naming_fault (state_in self.old.states.items offset) security ≡ None) ×
            Puts self.old.states.items self.new.states.items offset (named_as security)) }
        ensures err { IfErr result (λ fault. naming_fault (state_in self.old.states.items offset) security ≡ Some fault) }
        ensures fewer { OnOk result (security ≡ false → unnamed self.new.states.items < unnamed self.old.states.items) }
        ensures no_more { unnamed self.new.states.items ≤ unnamed self.old.states.items }
        ensures named { OnOk result (security ≡ false → state_in self.new.states.items offset ≡ CellState.Named) }
        ensures same { OnErr result (self.new ≡ self.old) }
        ensures ample { IfErr result (λ fault. fault ≢ LoadFault.Memory) }
    {
        match self.state(offset) {
            CellState::Unallocated => Err(LoadFault::Record),
            CellState::OnPath => Err(LoadFault::Loop),
            CellState::Named => Err(LoadFault::Twice),
            CellState::NamedSecurity => {
                if security {
                    Ok(())
                } else {
                    Err(LoadFault::Twice)
                }
            }
            CellState::Unnamed => {
                let state = if security {
                    CellState::NamedSecurity
                } else {
                    CellState::Named
                };
                self.put(offset, state);
                Ok(())
            }
        }
    }

    /// Notes that a key that was named is on the present path.
    pub fn enter(&mut self, offset: u32)
        ensures entered { state_in self.old.states.items offset ≡ CellState.Named →
            Puts self.old.states.items self.new.states.items offset CellState.OnPath }
        ensures same { unnamed self.new.states.items ≡ unnamed self.old.states.items }
    {
        if self.state(offset) == CellState::Named {
            self.put(offset, CellState::OnPath);
        }
    }

    /// Notes that a key is no longer on the present path. Where it isn't on it, nothing changes.
    pub fn leave(&mut self, offset: u32)
        ensures left { state_in self.old.states.items offset ≡ CellState.OnPath →
            Puts self.old.states.items self.new.states.items offset CellState.Named }
        ensures same { unnamed self.new.states.items ≡ unnamed self.old.states.items }
        ensures kept { state_in self.old.states.items offset ≢ CellState.OnPath → self.new ≡ self.old }
    {
        if self.state(offset) == CellState::OnPath {
            self.put(offset, CellState::Named);
        }
    }
}
