// What follows for every journal from what two slots stand for.
ghost use Rattle.std.specs.Prelude.{◌≡◌, List, ℕ};
ghost use Rattle.frs_journal.specs.Damage.{IsDamaged};
ghost use Rattle.frs_journal.specs.Loads.{Loads};
ghost use Rattle.frs_journal.specs.declared.faults.Slot.{Slot};

use frs_base::Machine;

/// Two slots load to one state of a machine, and one number of commands.
pub fn loads_once<M: Machine>()
    ensures { (m n : M.State) (k l : ℕ) (a b : List ℕ) → M.law.origin m ≡ M.law.origin n
        → Loads M.law m k a b → Loads M.law n l a b → (m ≡ n) × (k ≡ l) }
{}

/// Slots that load to a state aren't damaged anywhere, so that a load of what a journal left never
/// answers that they are.
pub fn never_damaged<M: Machine>()
    ensures { (m : M.State) (k : ℕ) (a b : List ℕ) (slot : Slot) (offset : ℕ)
        → Loads M.law m k a b → IsDamaged M.law a b slot offset → ⊥ }
{}

/// Two slots are damaged at one place at most, so that a load that finds them damaged answers the
/// first place that is wrong.
pub fn damaged_once<M: Machine>()
    ensures { (a b : List ℕ) (s t : Slot) (k l : ℕ)
        → IsDamaged M.law a b s k → IsDamaged M.law a b t l → (s ≡ t) × (k ≡ l) }
{}
