// Machines: states that commands change.
ghost use Rattle.std.specs.Prelude.{◌≡◌, IfOk, OnOk};
ghost use Rattle.frs_base.specs.Machines.{Decodes, Lawful, Rules, Runs};

use std::alloc::{AllocError, Global};

/// A state that commands change, one step each, and that a journal of the commands brings back.
///
/// A command is made ready first, which takes all the memory that it needs and leaves the state,
/// and then taken, which can't fail. Its bytes stand in a journal; none of them begin with 0xFF,
/// which a journal keeps for marks of its own.
pub trait Machine: Drop {
    /// What changes the state.
    type Cmd: Drop;

    /// A command with all that it needs.
    type Ready: Drop;

    /// All that a machine is but the room that it has reserved.
    ghost State: { Type 0 };

    /// The state of a machine.
    ghost state: { Self → State };

    /// Its commands, their bytes and steps, and the origin of a state.
    ghost law: { Rules State Self.Cmd };

    /// The command that was made ready.
    ghost command: { Self.Ready → Self.Cmd };

    /// What was made ready may be taken by this machine.
    ghost fits: { Self.Ready → Self → Type 0 };

    /// Makes a command ready. The state stays, also after an error.
    fn ready(&mut self, alloc: Global, cmd: Self::Cmd) -> Result<Self::Ready, AllocError>
        ensures same { state self.new ≡ state self.old }
        ensures ready { IfOk result (λ ready. (command ready ≡ cmd) × fits ready self.new) };

    /// Takes what was made ready for it.
    fn take(&mut self, ready: Self::Ready)
        requires { fits ready self.old }
        ensures { law.step (state self.old) (command ready) (state self.new) };

    /// The bytes of a command.
    fn encode(alloc: Global, cmd: &Self::Cmd) -> Result<Vec<u8>, AllocError>
        ensures bytes { IfOk result (λ bytes. bytes.items ≡ law.code cmd.now) }
        ensures known { OnOk result (law.is_cmd cmd.now) };

    /// The command that has these bytes, `None` exactly where they are no command's.
    fn decode(alloc: Global, bytes: &[u8]) -> Result<Option<Self::Cmd>, AllocError>
        ensures { IfOk result (λ found. Decodes law bytes.now found) };

    /// Commands that lead to this state from its origin.
    fn save(&self, alloc: Global) -> Result<Vec<Self::Cmd>, AllocError>
        ensures { IfOk result (λ cmds. Runs law.step (law.origin (state self.now)) cmds.items (state self.now)) };

    /// The rules are lawful.
    ghost lawful: { Lawful law };

    /// What fits a machine has a step.
    ghost leads: { (ready : Self.Ready) (m : Self) → fits ready m → (t : State) × law.step (state m) (command ready) t };
}
